//! What was read of a text so far.

ghost use Rattle.std.specs.Prelude.{◌≡◌, [], Ok, IfOk, IfErr, OnOk, Some};

use crate::draft::Draft;
use crate::fault::IniFault;
use crate::kind::{LineKind, kind_of};
use crate::section::Section;
use std::alloc::{AllocError, Global};
use std::collections::HashMap;
use std::marker::Model;
use sv_base::text::Text;

/// The sections that are being read, in order of first appearance, with their places by name.
#[derive(Drop)]
pub struct Drafts {
    drafts: Vec<Draft>,
    places: HashMap<String, usize>,
}

impl Model for Drafts {
    ghost use Rattle.std.specs.Prelude.{List};
    ghost use Rattle.sv_ini.specs.Places.{HasPlaces};
    ghost use Rattle.sv_ini.specs.declared.section.Section.{Section};

    ghost Value = { List Section };

    ghost view = { λ d. d.drafts.items };

    ghost invariant = { λ d. HasPlaces (λ (s : Section). s.name) d.places d.drafts.items };
}

/// What was read of a text so far.
#[derive(Drop)]
pub struct SectionReader {
    sections: Drafts,
    /// The place of the section that is open.
    current: Option<usize>,
    /// The place of the key whose value is going on.
    going: Option<usize>,
}

impl Drafts {
    ghost use Rattle.sv_ini.specs.Keys.{place_of_key, with_key, with_further};
    ghost use Rattle.sv_ini.specs.Sections.{section_at, place_of_section, with_section, in_section};

    fn new(alloc: Global) -> Drafts
        ensures { result ≡ [] }
    {
        Drafts {
            drafts: Vec::new(alloc),
            places: HashMap::new(alloc),
        }
    }

    /// Adds a section where there is none of this name, and gives its place.
    fn add(&mut self, alloc: Global, name: &str) -> Result<usize, AllocError>
        ensures place { IfOk result (λ place. place ≡ place_of_section name.now self.old) }
        ensures after { OnOk result (self.new ≡ with_section name.now self.old) }
    {
        let place = self.place_of(name);
        if place < self.drafts.as_slice().len() {
            return Ok(place);
        }
        let key = String::from_str(alloc, name)?;
        let draft = Draft::new(alloc, Text::from_str(alloc, name)?);
        self.drafts.push(draft)?;
        match self.places.insert(key, place) {
            Ok(_) => Ok(place),
            Err(_) => {
                self.drafts.pop();
                Err(AllocError)
            }
        }
    }

    /// Where a section of this name stands, or would be added.
    fn place_of(&self, name: &str) -> usize
        ensures { result ≡ place_of_section name.now self.now }
    {
        match self.places.get(name) {
            Some(place) => *place,
            None => self.drafts.as_slice().len(),
        }
    }

    /// Sets a key of the section at this place, and gives the key's place.
    fn set(
        &mut self,
        alloc: Global,
        place: usize,
        key: Text,
        value: &str,
    ) -> Result<usize, AllocError>
        ensures place { IfOk result (λ at. at ≡ place_of_key key (section_at place self.old).keys) }
        ensures after { OnOk result
            (self.new ≡ in_section place (with_key key value.now) self.old) }
    {
        if place < self.drafts.as_slice().len() {
            let draft = &mut self.drafts[place];
            draft.set(alloc, key, value)
        } else {
            Ok(0)
        }
    }

    /// Adds a further line to the value of a key.
    fn go_on(&mut self, place: usize, key: usize, line: &str) -> Result<(), AllocError>
        ensures { OnOk result (self.new ≡ in_section place (with_further key line.now) self.old) }
    {
        if place < self.drafts.as_slice().len() {
            let draft = &mut self.drafts[place];
            draft.go_on(key, line)?;
        }
        Ok(())
    }

    fn into_sections(self, alloc: Global) -> Result<Vec<Section>, AllocError>
        ensures { IfOk result (λ sections. sections.items ≡ self) }
    {
        let Drafts { drafts, .. } = self;
        let mut sections = Vec::new(alloc);
        for draft in drafts {
            sections.push(draft.into_section(alloc)?)?;
        }
        Ok(sections)
    }
}

impl SectionReader {
    ghost use Rattle.std.specs.Str.{str_to_ascii_lowercase};
    ghost use Rattle.sv_ini.specs.Sections.{nothing_read, gone_on, opened, set_at, after_line};
    ghost use Rattle.sv_ini.specs.Sections.{IsFault};

    /// Before the first line.
    pub fn new(alloc: Global) -> SectionReader
        ensures { result ≡ nothing_read }
    {
        SectionReader {
            sections: Drafts::new(alloc),
            current: None,
            going: None,
        }
    }

    /// Reads one more line, which has this number. After a fault the reading is of no further use.
    pub fn read(&mut self, alloc: Global, number: usize, line: &str) -> Result<(), IniFault>
        ensures read { OnOk result (after_line number line.now self.old ≡ Ok self.new) }
        ensures fault { IfErr result
            (λ fault. IsFault fault (after_line number line.now self.old)) }
    {
        match kind_of(self.going.is_some(), line) {
            LineKind::Blank => self.going = None,
            LineKind::Comment => {}
            LineKind::Further(text) => self.go_on(text)?,
            LineKind::Opens(name) => self.open_section(alloc, name)?,
            LineKind::Sets(key, value) => match self.current {
                Some(place) => self.set(alloc, place, key, value)?,
                None => return Err(IniFault::OutsideSection(number)),
            },
            LineKind::Bad => return Err(IniFault::BadLine(number)),
        }
        Ok(())
    }

    fn open_section(&mut self, alloc: Global, name: &str) -> Result<(), AllocError>
        ensures { OnOk result (self.new ≡ opened name.now self.old) }
    {
        self.current = Some(self.sections.add(alloc, name)?);
        self.going = None;
        Ok(())
    }

    fn set(&mut self, alloc: Global, place: usize, key: &str, value: &str) -> Result<(), AllocError>
        requires { self.old.current ≡ Some place }
        ensures { OnOk result
            (self.new ≡ set_at place (str_to_ascii_lowercase key.now) value.now self.old) }
    {
        let key = Text::from_string(key.to_ascii_lowercase(alloc)?);
        self.going = Some(self.sections.set(alloc, place, key, value)?);
        Ok(())
    }

    fn go_on(&mut self, line: &str) -> Result<(), AllocError>
        ensures { OnOk result
            (self.new ≡ gone_on self.old.current self.old.going line.now self.old) }
    {
        if let (Some(place), Some(key)) = (self.current, self.going) {
            self.sections.go_on(place, key, line)?;
        }
        Ok(())
    }

    /// The sections that were read.
    pub fn into_sections(self, alloc: Global) -> Result<Vec<Section>, AllocError>
        ensures { IfOk result (λ sections. sections.items ≡ self.sections) }
    {
        let SectionReader { sections, .. } = self;
        sections.into_sections(alloc)
    }
}
