//! The keys of a section that is being read.
ghost use Rattle.std.specs.Prelude.{◌≡◌, [], IfOk, OnOk, encode_utf8_all};
ghost use Rattle.std.specs.List.{position};
ghost use Rattle.std.specs.Str.{bytes_eq};

use crate::value::Value;
use std::alloc::{AllocError, Global};
use std::marker::Model;
use sv_base::Text;

/// Where something stands: the number of its text, 0 for the main one, and its line in that text, from 1 on.
#[derive(Clone, Copy, Debug)]
pub struct Spot {
    pub text: usize,
    pub line: usize,
}

/// A key with its value.
pub struct Entry {
    /// The key in lower case.
    pub key: Text,
    /// The value without comments, its further lines behind line feeds.
    pub value: Value,
    /// Where the value begins.
    pub spot: Spot,
}

impl Drop for Entry {
    fn drop(self) {
        let Self {
            key: _,
            value: _,
            spot: _,
        } = self;
    }
}

/// The keys of a section, each once, in order of first appearance.
#[derive(Drop)]
pub struct Keys {
    keys: Vec<Entry>,
}

impl Model for Keys {
    ghost use Rattle.std.specs.Prelude.{List};
    ghost use Rattle.sv_moving.specs.declared.keys.Entry.{Entry};

    ghost Value = { List Entry };

    ghost view = { λ k. k.keys.items };
}

impl Keys {
    ghost use Rattle.sv_moving.specs.Keys.{place_of_key, with_entry, with_further};

    /// No keys.
    pub fn new(alloc: Global) -> Keys
        ensures { result ≡ [] }
    {
        Keys {
            keys: Vec::new(alloc),
        }
    }

    /// The keys.
    pub fn as_slice(&self) -> &[Entry]
        ensures { result.now ≡ self.now }
    {
        self.keys.as_slice()
    }

    /// Sets a key, and gives its place.
    pub fn set(&mut self, entry: Entry) -> Result<usize, AllocError>
        ensures place { IfOk result (λ place. place ≡ place_of_key entry.key self.old) }
        ensures after { OnOk result (self.new ≡ with_entry entry self.old) }
    {
        let place = place_of_key(entry.key.as_str(), self.keys.as_slice());
        if place < self.keys.as_slice().len() {
            self.keys[place] = entry;
        } else {
            self.keys.push(entry)?;
        }
        Ok(place)
    }

    /// Adds a further line to the value of the key at this place, behind this many blank ones.
    pub fn go_on(&mut self, place: usize, blanks: usize, line: &[char]) -> Result<(), AllocError>
        ensures { OnOk result
            (self.new ≡ with_further place blanks (encode_utf8_all line.now) self.old) }
    {
        if place < self.keys.as_slice().len() {
            let entry = &mut self.keys[place];
            entry.value.go_on(blanks, line)?;
        }
        Ok(())
    }
}

ghost use Rattle.sv_moving.specs.Keys.{place_of_key};

/// Where this key stands, or would be added.
fn place_of_key(key: &str, keys: &[Entry]) -> usize
    ensures { result ≡ place_of_key key.now keys.now }
{
    match found_key(key, keys) {
        Some(place) => place,
        None => keys.len(),
    }
}

fn found_key(key: &str, keys: &[Entry]) -> Option<usize>
    ensures { result ≡ position (λ (e : Entry). bytes_eq e.key key.now) keys.now }
{
    keys.iter().position(|entry| entry.key.as_str() == key)
}
