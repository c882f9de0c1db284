//! What is told of a configuration.

use crate::gathered::{Gathered, gather};
use crate::lines::{put_difference, put_entry, put_refusal, put_row};
use crate::stopped::{DIFFERS, NO_MEMORY, REFUSED, SAME, Stopped, UNREADABLE, UNWRITTEN, told};
use std::alloc::{AllocError, Global};
use sv_base::{Host, Items, Text};
use sv_conf::config::config;
use sv_ini::Section as SectionHere;
use sv_moving::{
    Meaning, ROWS, Refusal, Section, all_here, all_there, cured, differences, read_there,
};
use sv_out::Shelf;
use sv_out::sink::{Sink, write_all};
use sv_sections::ConfFault;
use sv_sections::includes::sections_in;
use sv_sections::sections::with_included;

/// What is asked.
#[derive(Clone, Copy)]
pub enum Asked {
    /// Where the configuration means something else here.
    Differences,
    /// What it says in Supervisor's reading.
    Entries,
}

/// Tells what is asked of the configuration of this file, and gives the status: 0 where nothing differs, 1 where
/// something is told, 2 where Supervisor refuses the file, 3 where a file can't be read, 4 where the report can't be
/// written, 5 where memory is refused.
pub fn tell<S: Shelf, K: Sink>(
    alloc: Global,
    asked: Asked,
    file: &str,
    host: &Host,
    shelf: &mut S,
    out: &mut K,
) -> u8 {
    let mut text = String::new(alloc);
    let status = match report(alloc, asked, file, host, shelf, &mut text) {
        Ok(status) => status,
        Err(Stopped::OutOfMemory) => return NO_MEMORY,
        Err(Stopped::Unreadable(name)) => {
            if put_unreadable(&mut text, name.as_str()).is_err() {
                return NO_MEMORY;
            }
            UNREADABLE
        }
    };
    match write_all(out, text.as_bytes()) {
        Ok(()) => status,
        Err(_) => UNWRITTEN,
    }
}

/// The configuration of this file as one text that means the same here; nothing where Supervisor refuses it.
pub fn written<S: Shelf>(
    alloc: Global,
    file: &str,
    host: &Host,
    shelf: &mut S,
) -> Result<Option<String>, Stopped> {
    let all = gather(alloc, file, host, shelf)?;
    let texts = all.texts.as_slice();
    match read_there(alloc, texts) {
        Ok(sections) => Ok(Some(cured(alloc, texts, all.heres.as_slice(), sections.as_slice())?)),
        Err(Refusal::OutOfMemory) => Err(Stopped::OutOfMemory),
        Err(_) => Ok(None),
    }
}

fn put_unreadable(text: &mut String, name: &str) -> Result<(), AllocError> {
    text.push_str("cannot read ")?;
    text.push_str(name)?;
    text.push_str("\n")
}

/// Adds the report of the configuration of this file, and gives its status.
fn report<S: Shelf>(
    alloc: Global,
    asked: Asked,
    file: &str,
    host: &Host,
    shelf: &mut S,
    text: &mut String,
) -> Result<u8, Stopped> {
    let all = gather(alloc, file, host, shelf)?;
    match read_there(alloc, all.texts.as_slice()) {
        Ok(sections) => match asked {
            Asked::Entries => put_entries(alloc, sections.as_slice(), text),
            Asked::Differences => put_differences(alloc, &all, sections.as_slice(), host, text),
        },
        Err(Refusal::OutOfMemory) => Err(Stopped::OutOfMemory),
        Err(refusal) => {
            put_refusal(alloc, text, all.names.as_slice(), &refusal)?;
            Ok(REFUSED)
        }
    }
}

/// Adds a line for each section and each key.
fn put_entries(alloc: Global, sections: &[Section], text: &mut String) -> Result<u8, Stopped> {
    let said = all_there(alloc, sections)?;
    for meaning in said.as_slice() {
        put_entry(alloc, text, meaning)?;
    }
    Ok(SAME)
}

/// Adds a line for each difference, for each row of the table that applies, and for a refusal here.
fn put_differences(
    alloc: Global,
    all: &Gathered,
    sections: &[Section],
    host: &Host,
    text: &mut String,
) -> Result<u8, Stopped> {
    let said = all_there(alloc, sections)?;
    let there = with_heres(alloc, said.as_slice(), all.heres.as_slice())?;
    match sections_here(alloc, all)? {
        Ok(sections) => put_compared(alloc, all, there.as_slice(), sections.as_slice(), text)?,
        Err(_) => {}
    }
    put_rows(alloc, all.names.as_slice(), there.as_slice(), text)?;
    put_fault(alloc, all, host, text)?;
    if text.as_str().is_empty() {
        Ok(SAME)
    } else {
        Ok(DIFFERS)
    }
}

/// The sections of this project's reading, or its fault.
fn sections_here(
    alloc: Global,
    all: &Gathered,
) -> Result<Result<Items<SectionHere>, ConfFault>, Stopped> {
    let Some(main) = all.texts.as_slice().first() else {
        return Ok(Ok(Items::new(alloc)));
    };
    let sections = match sections_in(alloc, main.as_slice()) {
        Ok(sections) => sections,
        Err(fault) => return Ok(Err(told(fault)?)),
    };
    match with_included(alloc, sections, all.included.as_slice()) {
        Ok(sections) => Ok(Ok(sections)),
        Err(fault) => Ok(Err(told(fault)?)),
    }
}

/// Adds the differences of the two readings.
fn put_compared(
    alloc: Global,
    all: &Gathered,
    there: &[Meaning],
    sections: &[SectionHere],
    text: &mut String,
) -> Result<(), AllocError> {
    let said = all_here(alloc, sections)?;
    let here = with_heres(alloc, said.as_slice(), all.heres.as_slice())?;
    let found = differences(alloc, there, here.as_slice())?;
    for difference in found.as_slice() {
        put_difference(alloc, text, all.names.as_slice(), difference)?;
    }
    Ok(())
}

/// These meanings, with the directory of its text for each `%(here)s` of a value.
fn with_heres(
    alloc: Global,
    meanings: &[Meaning],
    heres: &[Text],
) -> Result<Items<Meaning>, AllocError> {
    let mut all = Items::new(alloc);
    for meaning in meanings {
        let here = match heres.get(meaning.spot.text) {
            Some(here) => here.as_str(),
            None => "",
        };
        all.push(with_here(alloc, meaning, here)?)?;
    }
    Ok(all)
}

fn with_here(alloc: Global, meaning: &Meaning, here: &str) -> Result<Meaning, AllocError> {
    let value = meaning.value.as_str().replace(alloc, "%(here)s", here)?;
    Ok(Meaning {
        section: meaning.section.clone()?,
        key: meaning.key.clone()?,
        value: Text::from_string(value),
        spot: meaning.spot,
    })
}

/// Adds the rows of the table that apply.
fn put_rows(
    alloc: Global,
    names: &[Text],
    meanings: &[Meaning],
    text: &mut String,
) -> Result<(), AllocError> {
    for meaning in meanings {
        for row in ROWS.iter() {
            if row.applies(meaning) {
                put_row(alloc, text, names, meaning, row)?;
            }
        }
    }
    Ok(())
}

/// Adds the fault for which the configuration is refused here.
fn put_fault(alloc: Global, all: &Gathered, host: &Host, text: &mut String) -> Result<(), Stopped> {
    let Some(main) = all.texts.as_slice().first() else {
        return Ok(());
    };
    match config(alloc, main.as_slice(), all.included.as_slice(), host) {
        Ok(_) => Ok(()),
        Err(fault) => {
            let fault = told(fault)?.text(alloc)?;
            text.push_str("The whole file is refused here: ")?;
            text.push_str(fault.as_str())?;
            text.push_str("\n")?;
            Ok(())
        }
    }
}
