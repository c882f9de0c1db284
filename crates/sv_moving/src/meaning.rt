//! What a reading of a configuration says, one section and one key after the other.
ghost use Rattle.std.specs.Prelude.{◌≡◌, ◌++◌, ◌∷◌, [], IfOk, OnOk, map};
ghost use Rattle.std.specs.List.{flat_map};
ghost use Rattle.sv_moving.specs.Differences.{said_there, key_there, all_there};
ghost use Rattle.sv_moving.specs.Differences.{said_here, key_here, all_here};

use crate::keys::{Entry, Spot};
use crate::sections::Section;
use std::alloc::{AllocError, Global};
use sv_base::{Items, Text};
use sv_ini::Section as SectionHere;

/// That a section is there, or that a key of it has a value.
#[derive(Clone)]
pub struct Meaning {
    pub section: Text,
    /// The key in lower case; the empty text where this speaks of the section itself.
    pub key: Text,
    pub value: Text,
    /// Where it stands; line 0 where that isn't known.
    pub spot: Spot,
}

impl Drop for Meaning {
    fn drop(self) {
        let Self {
            section: _,
            key: _,
            value: _,
            spot: _,
        } = self;
    }
}

/// All that these sections of Supervisor's reading say.
pub fn all_there(alloc: Global, sections: &[Section]) -> Result<Items<Meaning>, AllocError>
    ensures { IfOk result (λ meanings. meanings ≡ all_there sections.now) }
{
    let mut meanings = Items::new(alloc);
    let mut left = sections;
    while let [section, rest @ ..] = left {
        say_there(alloc, &mut meanings, section)?;
        left = rest;
    }
    Ok(meanings)
}

fn say_there(
    alloc: Global,
    meanings: &mut Items<Meaning>,
    section: &Section,
) -> Result<(), AllocError>
    ensures { OnOk result (meanings.new ≡ meanings.old ++ said_there section.now) }
{
    meanings.push(of_section(&section.name, section.spot)?)?;
    say_keys_there(alloc, meanings, &section.name, section.keys.as_slice())?;
    Ok(())
}

fn say_keys_there(
    alloc: Global,
    meanings: &mut Items<Meaning>,
    section: &Text,
    keys: &[Entry],
) -> Result<(), AllocError>
    ensures { OnOk result (meanings.new ≡ meanings.old ++ map (key_there section.now) keys.now) }
{
    let mut left = keys;
    while let [entry, rest @ ..] = left {
        say_key_there(alloc, meanings, section, entry)?;
        left = rest;
    }
    Ok(())
}

fn say_key_there(
    alloc: Global,
    meanings: &mut Items<Meaning>,
    section: &Text,
    entry: &Entry,
) -> Result<(), AllocError>
    ensures { OnOk result
        (meanings.new ≡ meanings.old ++ key_there section.now entry.now ∷ []) }
{
    meanings.push(meaning_of(alloc, section, entry)?)?;
    Ok(())
}

/// That this key of the section of this name has its value.
pub fn meaning_of(alloc: Global, section: &Text, entry: &Entry) -> Result<Meaning, AllocError>
    ensures { IfOk result (λ meaning. meaning ≡ key_there section.now entry.now) }
{
    Ok(Meaning {
        section: section.clone()?,
        key: entry.key.clone()?,
        value: Text::from_str(alloc, entry.value.as_str())?,
        spot: entry.spot,
    })
}

/// That a section is there.
fn of_section(name: &Text, spot: Spot) -> Result<Meaning, AllocError>
    ensures { IfOk result (λ meaning.
        meaning ≡ record { section = name.now; key = []; value = []; spot = spot }) }
{
    Ok(Meaning {
        section: name.clone()?,
        key: Text::fixed(""),
        value: Text::fixed(""),
        spot,
    })
}

/// All that these sections of this project's reading say.
pub fn all_here(alloc: Global, sections: &[SectionHere]) -> Result<Items<Meaning>, AllocError>
    ensures { IfOk result (λ meanings. meanings ≡ all_here sections.now) }
{
    let mut meanings = Items::new(alloc);
    let mut left = sections;
    while let [section, rest @ ..] = left {
        say_here(&mut meanings, section)?;
        left = rest;
    }
    Ok(meanings)
}

fn say_here(meanings: &mut Items<Meaning>, section: &SectionHere) -> Result<(), AllocError>
    ensures { OnOk result (meanings.new ≡ meanings.old ++ said_here section.now) }
{
    meanings.push(of_section(&section.name, Spot { text: 0, line: 0 })?)?;
    say_keys_here(meanings, &section.name, section.keys.as_slice())?;
    Ok(())
}

fn say_keys_here(
    meanings: &mut Items<Meaning>,
    section: &Text,
    keys: &[(Text, Text)],
) -> Result<(), AllocError>
    ensures { OnOk result (meanings.new ≡ meanings.old ++ map (key_here section.now) keys.now) }
{
    let mut left = keys;
    while let [key, rest @ ..] = left {
        say_key_here(meanings, section, key)?;
        left = rest;
    }
    Ok(())
}

fn say_key_here(
    meanings: &mut Items<Meaning>,
    section: &Text,
    key: &(Text, Text),
) -> Result<(), AllocError>
    ensures { OnOk result (meanings.new ≡ meanings.old ++ key_here section.now key.now ∷ []) }
{
    meanings.push(Meaning {
        section: section.clone()?,
        key: key.0.clone()?,
        value: key.1.clone()?,
        spot: Spot { text: 0, line: 0 },
    })?;
    Ok(())
}
