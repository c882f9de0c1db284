//! The keys of a section, with those of included texts.

ghost use Rattle.std.specs.Prelude.{◌≡◌, List, ℕ, IfOk, OnOk};
ghost use Rattle.sv_ini.specs.Places.{HasPlaces};
ghost use Rattle.sv_sections.specs.AllSections.{with_all_keys};
ghost use Rattle.sv_sections.specs.Lookups.{AddsPlace};

use std::alloc::{AllocError, Global};
use std::collections::HashMap;
use std::marker::Model;
use sv_base::items::Items;
use sv_base::text::Text;

/// The keys of a section, with their places by name.
#[derive(Drop)]
pub struct Keyed {
    keys: Vec<(Text, Text)>,
    places: HashMap<String, usize>,
}

impl Model for Keyed {
    ghost use Rattle.std.specs.Prelude.{List, ℕ};
    ghost use Rattle.sv_ini.specs.Places.{HasPlaces};

    ghost Value = { List (List ℕ × List ℕ) };

    ghost view = { λ k. k.keys.items };

    ghost invariant = { λ k. HasPlaces (λ (key : List ℕ × List ℕ). key.0) k.places k.keys.items };
}

impl Keyed {
    ghost use Rattle.sv_ini.specs.Keys.{place_of_key, with_key};

    fn new(alloc: Global, keys: Items<(Text, Text)>) -> Result<Keyed, AllocError>
        ensures { IfOk result (λ keyed. keyed ≡ keys) }
    {
        let places = places_of(alloc, keys.as_slice())?;
        let keys = keys.into_vec();
        Ok(Keyed { keys, places })
    }

    /// Sets a key, at its place or after the others.
    fn set(&mut self, alloc: Global, key: Text, value: Text) -> Result<(), AllocError>
        ensures { OnOk result (self.new ≡ with_key key value self.old) }
    {
        let place = self.place_of(key.as_str());
        if place < self.keys.as_slice().len() {
            self.keys[place] = (key, value);
            return Ok(());
        }
        let name = String::from_str(alloc, key.as_str())?;
        self.keys.push((key, value))?;
        match self.places.insert(name, place) {
            Ok(_) => Ok(()),
            Err(_) => {
                self.keys.pop();
                Err(AllocError)
            }
        }
    }

    /// Where this key stands, or would be added.
    fn place_of(&self, key: &str) -> usize
        ensures { result ≡ place_of_key key.now self.now }
    {
        match self.places.get(key) {
            Some(place) => *place,
            None => self.keys.as_slice().len(),
        }
    }

    fn into_keys(self) -> Items<(Text, Text)>
        ensures { result ≡ self }
    {
        let Keyed { keys, .. } = self;
        Items::from_vec(keys)
    }
}

/// The places of these keys by name; of several of one name the first counts.
fn places_of(alloc: Global, keys: &[(Text, Text)]) -> Result<HashMap<String, usize>, AllocError>
    ensures { IfOk result (λ places.
        HasPlaces (λ (key : List ℕ × List ℕ). key.0) places keys.now) }
{
    let mut places = HashMap::new(alloc);
    let mut place = 0;
    let mut left = keys;
    while let [key, rest @ ..] = left {
        add_place(alloc, &mut places, key.0.as_str(), place)?;
        place += 1;
        left = rest;
    }
    Ok(places)
}

/// Adds the place of a name that has none yet.
pub fn add_place(
    alloc: Global,
    places: &mut HashMap<String, usize>,
    name: &str,
    place: usize,
) -> Result<(), AllocError>
    ensures { OnOk result (AddsPlace places.old places.new name.now place) }
{
    match places.get(name) {
        Some(_) => Ok(()),
        None => {
            places.insert(String::from_str(alloc, name)?, place)?;
            Ok(())
        }
    }
}

/// These keys with more of them, each in the place of one of its name or after the others.
#[tactic(auto, using(crate::proofs::Folds::keys_more))]
pub fn with_all_keys(
    alloc: Global,
    keys: Items<(Text, Text)>,
    more: Items<(Text, Text)>,
) -> Result<Items<(Text, Text)>, AllocError>
    ensures { IfOk result (λ all. all ≡ with_all_keys keys more) }
{
    let mut all = Keyed::new(alloc, keys)?;
    for (key, value) in more.into_vec() {
        all.set(alloc, key, value)?;
    }
    Ok(all.into_keys())
}
