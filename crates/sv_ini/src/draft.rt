//! A section that is being read, with a table of its keys.

ghost use Rattle.std.specs.Prelude.{◌≡◌, [], IfOk, OnOk};

use crate::section::Section;
use crate::value::Value;
use std::alloc::{AllocError, Global};
use std::collections::HashMap;
use std::marker::Model;
use sv_base::items::Items;
use sv_base::text::Text;

/// A section that is being read: its keys in order of first appearance, with their places by name.
#[derive(Drop)]
pub struct Draft {
    name: Text,
    keys: Vec<(Text, Value)>,
    places: HashMap<String, usize>,
}

impl Model for Draft {
    ghost use Rattle.std.specs.Prelude.{List, ℕ};
    ghost use Rattle.sv_ini.specs.Places.{HasPlaces};
    ghost use Rattle.sv_ini.specs.declared.section.Section.{Section};

    ghost Value = { Section };

    ghost view = { λ d. record { name = d.name; keys = d.keys.items } };

    ghost invariant = { λ d. HasPlaces (λ (k : List ℕ × List ℕ). k.0) d.places d.keys.items };
}

impl Draft {
    ghost use Rattle.sv_ini.specs.declared.section.Section.{Section};
    ghost use Rattle.sv_ini.specs.Keys.{place_of_key, with_key, with_further, with_keys};

    /// A section without keys.
    pub fn new(alloc: Global, name: Text) -> Draft
        ensures name { result.name ≡ name }
        ensures keys { result.keys ≡ [] }
    {
        Draft {
            name,
            keys: Vec::new(alloc),
            places: HashMap::new(alloc),
        }
    }

    /// Sets a key, and gives its place.
    pub fn set(&mut self, alloc: Global, key: Text, value: &str) -> Result<usize, AllocError>
        ensures place { IfOk result (λ place. place ≡ place_of_key key self.old.keys) }
        ensures after { OnOk result
            (self.new ≡ with_keys self.old (with_key key value.now self.old.keys)) }
        ensures name { self.new.name ≡ self.old.name }
    {
        let place = self.place_of(key.as_str());
        let value = Value::new(alloc, value)?;
        if place < self.keys.as_slice().len() {
            self.keys[place] = (key, value);
            return Ok(place);
        }
        let name = String::from_str(alloc, key.as_str())?;
        self.keys.push((key, value))?;
        match self.places.insert(name, place) {
            Ok(_) => Ok(place),
            Err(_) => {
                self.keys.pop();
                Err(AllocError)
            }
        }
    }

    /// Where this key stands, or would be added.
    fn place_of(&self, key: &str) -> usize
        ensures { result ≡ place_of_key key.now self.now.keys }
    {
        match self.places.get(key) {
            Some(place) => *place,
            None => self.keys.as_slice().len(),
        }
    }

    /// Adds a further line to the value of the key at this place.
    pub fn go_on(&mut self, place: usize, line: &str) -> Result<(), AllocError>
        ensures after { OnOk result
            (self.new ≡ with_keys self.old (with_further place line.now self.old.keys)) }
        ensures name { self.new.name ≡ self.old.name }
    {
        if place < self.keys.as_slice().len() {
            let entry = &mut self.keys[place];
            entry.1.go_on(line)?;
        }
        Ok(())
    }

    /// The section as it was read.
    pub fn into_section(self, alloc: Global) -> Result<Section, AllocError>
        ensures { IfOk result (λ section. section ≡ self) }
    {
        let Draft { name, keys, .. } = self;
        Ok(Section {
            name,
            keys: into_texts(alloc, keys)?,
        })
    }
}

fn into_texts(alloc: Global, keys: Vec<(Text, Value)>) -> Result<Items<(Text, Text)>, AllocError>
    ensures { IfOk result (λ texts. texts ≡ keys.items) }
{
    let mut texts = Items::new(alloc);
    for (key, value) in keys {
        texts.push((key, value.into_text()))?;
    }
    Ok(texts)
}
