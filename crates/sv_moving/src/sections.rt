//! The sections that are being read.
ghost use Rattle.std.specs.Prelude.{◌≡◌, [], IfOk, OnOk, encode_utf8_all};
ghost use Rattle.std.specs.List.{position};
ghost use Rattle.std.specs.Str.{bytes_eq};

use crate::keys::{Entry, Keys, Spot};
use std::alloc::{AllocError, Global};
use std::marker::Model;
use sv_base::Text;

/// A section of a configuration.
pub struct Section {
    /// The name between the brackets, as it stands there.
    pub name: Text,
    /// Where it is first opened.
    pub spot: Spot,
    pub keys: Keys,
}

impl Drop for Section {
    fn drop(self) {
        let Self {
            name: _,
            spot: _,
            keys: _,
        } = self;
    }
}

/// The sections of a configuration in order of first appearance; `DEFAULT` is one of them.
#[derive(Drop)]
pub struct Sections {
    sections: Vec<Section>,
}

impl Model for Sections {
    ghost use Rattle.std.specs.Prelude.{List};
    ghost use Rattle.sv_moving.specs.declared.sections.Section.{Section};

    ghost Value = { List Section };

    ghost view = { λ s. s.sections.items };
}

impl Sections {
    ghost use Rattle.sv_moving.specs.Keys.{place_of_key, with_entry, with_further};
    ghost use Rattle.sv_moving.specs.Sections.{section_at, place_of_section, with_section};
    ghost use Rattle.sv_moving.specs.Sections.{in_section};

    /// No sections.
    pub fn new(alloc: Global) -> Sections
        ensures { result ≡ [] }
    {
        Sections {
            sections: Vec::new(alloc),
        }
    }

    /// The sections.
    pub fn as_slice(&self) -> &[Section]
        ensures { result.now ≡ self.now }
    {
        self.sections.as_slice()
    }

    /// Adds a section where there is none of this name, and gives its place.
    pub fn add(&mut self, alloc: Global, name: Text, spot: Spot) -> Result<usize, AllocError>
        ensures place { IfOk result (λ place. place ≡ place_of_section name self.old) }
        ensures after { OnOk result (self.new ≡ with_section name spot self.old) }
    {
        let place = place_of_section(name.as_str(), self.sections.as_slice());
        if place < self.sections.as_slice().len() {
            return Ok(place);
        }
        let keys = Keys::new(alloc);
        self.sections.push(Section { name, spot, keys })?;
        Ok(place)
    }

    /// Sets a key of the section at this place, and gives the key's place.
    pub fn set(&mut self, place: usize, entry: Entry) -> Result<usize, AllocError>
        ensures place { IfOk result
            (λ at. at ≡ place_of_key entry.key (section_at place self.old).keys) }
        ensures after { OnOk result (self.new ≡ in_section place (with_entry entry) self.old) }
    {
        if place < self.sections.as_slice().len() {
            let section = &mut self.sections[place];
            section.keys.set(entry)
        } else {
            Ok(0)
        }
    }

    /// Adds a further line to the value of a key, behind this many blank ones.
    pub fn go_on(
        &mut self,
        place: usize,
        key: usize,
        blanks: usize,
        line: &[char],
    ) -> Result<(), AllocError>
        ensures { OnOk result (self.new
            ≡ in_section place (with_further key blanks (encode_utf8_all line.now)) self.old) }
    {
        if place < self.sections.as_slice().len() {
            let section = &mut self.sections[place];
            section.keys.go_on(key, blanks, line)?;
        }
        Ok(())
    }
}

ghost use Rattle.sv_moving.specs.Sections.{place_of_section};

/// Where a section of this name stands, or would be added.
fn place_of_section(name: &str, sections: &[Section]) -> usize
    ensures { result ≡ place_of_section name.now sections.now }
{
    match found_section(name, sections) {
        Some(place) => place,
        None => sections.len(),
    }
}

fn found_section(name: &str, sections: &[Section]) -> Option<usize>
    ensures { result ≡ position (λ (s : Section). bytes_eq s.name name.now) sections.now }
{
    sections
        .iter()
        .position(|section| section.name.as_str() == name)
}
