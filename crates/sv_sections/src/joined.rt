//! The sections of a text, which those of included texts join.

ghost use Rattle.std.specs.Prelude.{◌≡◌, IfOk, OnOk};
ghost use Rattle.sv_ini.specs.Keys.{with_keys};
ghost use Rattle.sv_ini.specs.Places.{HasPlaces};
ghost use Rattle.sv_ini.specs.declared.section.Section.{Section};
ghost use Rattle.sv_sections.specs.AllSections.{with_all_keys};

use crate::keyed::{add_place, with_all_keys};
use std::alloc::{AllocError, Global};
use std::collections::HashMap;
use std::marker::Model;
use std::mem;
use sv_base::items::Items;
use sv_base::text::Text;
use sv_ini::section::Section;

/// The sections of several texts, with their places by name.
#[derive(Drop)]
pub struct Joined {
    sections: Vec<Section>,
    places: HashMap<String, usize>,
}

impl Model for Joined {
    ghost use Rattle.std.specs.Prelude.{List};
    ghost use Rattle.sv_ini.specs.Places.{HasPlaces};
    ghost use Rattle.sv_ini.specs.declared.section.Section.{Section};

    ghost Value = { List Section };

    ghost view = { λ j. j.sections.items };

    ghost invariant = { λ j. HasPlaces (λ (s : Section). s.name) j.places j.sections.items };
}

impl Joined {
    ghost use Rattle.sv_ini.specs.Sections.{place_of_section};
    ghost use Rattle.sv_sections.specs.AllSections.{with_section};

    /// These sections.
    pub fn new(alloc: Global, sections: Items<Section>) -> Result<Joined, AllocError>
        ensures { IfOk result (λ joined. joined ≡ sections) }
    {
        let places = places_of(alloc, sections.as_slice())?;
        let sections = sections.into_vec();
        Ok(Joined { sections, places })
    }

    /// Adds a section of an included text: its keys join the section of its name, or it stands after the others; an
    /// include section is passed over.
    #[tactic(auto, unfolding(crate::specs::AllSections::with_section))]
    pub fn add(&mut self, alloc: Global, section: Section) -> Result<(), AllocError>
        ensures { OnOk result (self.new ≡ with_section self.old section) }
    {
        if section.name.as_str() == "include" {
            return Ok(());
        }
        let place = self.place_of(section.name.as_str());
        if place < self.sections.as_slice().len() {
            return add_keys(alloc, &mut self.sections[place], section.keys);
        }
        let name = String::from_str(alloc, section.name.as_str())?;
        self.sections.push(section)?;
        match self.places.insert(name, place) {
            Ok(_) => Ok(()),
            Err(_) => {
                self.sections.pop();
                Err(AllocError)
            }
        }
    }

    /// Where a section of this name stands, or would be added.
    fn place_of(&self, name: &str) -> usize
        ensures { result ≡ place_of_section name.now self.now }
    {
        match self.places.get(name) {
            Some(place) => *place,
            None => self.sections.as_slice().len(),
        }
    }

    /// The sections of all texts.
    pub fn into_sections(self) -> Items<Section>
        ensures { result ≡ self }
    {
        let Joined { sections, .. } = self;
        Items::from_vec(sections)
    }
}

/// The places of these sections by name; of several of one name the first counts.
fn places_of(alloc: Global, sections: &[Section]) -> Result<HashMap<String, usize>, AllocError>
    ensures { IfOk result (λ places. HasPlaces (λ (s : Section). s.name) places sections.now) }
{
    let mut places = HashMap::new(alloc);
    let mut place = 0;
    let mut left = sections;
    while let [section, rest @ ..] = left {
        add_place(alloc, &mut places, section.name.as_str(), place)?;
        place += 1;
        left = rest;
    }
    Ok(places)
}

fn add_keys(
    alloc: Global,
    section: &mut Section,
    more: Items<(Text, Text)>,
) -> Result<(), AllocError>
    ensures keys { OnOk result
        (section.new ≡ with_keys section.old (with_all_keys section.old.keys more)) }
    ensures name { section.new.name ≡ section.old.name }
{
    let keys = mem::replace(&mut section.keys, Items::new(alloc));
    section.keys = with_all_keys(alloc, keys, more)?;
    Ok(())
}
