//! The texts of a configuration: the main one, and those that it includes.

use crate::stopped::{Stopped, told};
use std::alloc::{AllocError, Global};
use sv_base::{Bytes, Host, Items, Text};
use sv_moving::{Refusal, Section, read_there};
use sv_out::{Shelf, ShelfFault};
use sv_sections::includes::includes;

/// The texts of a configuration, the main one first, with their names and the directories that they stand in.
pub struct Gathered {
    pub names: Items<Text>,
    pub heres: Items<Text>,
    pub texts: Items<Bytes>,
    /// The included ones once more, each with its name.
    pub included: Items<(Text, Bytes)>,
}

impl Drop for Gathered {
    fn drop(self) {
        let Self {
            names: _,
            heres: _,
            texts: _,
            included: _,
        } = self;
    }
}

/// The texts of the configuration of this file.
pub fn gather<S: Shelf>(
    alloc: Global,
    file: &str,
    host: &Host,
    shelf: &mut S,
) -> Result<Gathered, Stopped> {
    let main = match shelf.read(alloc, file) {
        Ok(main) => main,
        Err(ShelfFault::OutOfMemory) => return Err(Stopped::OutOfMemory),
        Err(_) => return Err(Stopped::Unreadable(Text::from_str(alloc, file)?)),
    };
    let mut all = Gathered {
        names: Items::new(alloc),
        heres: Items::new(alloc),
        texts: Items::new(alloc),
        included: Items::new(alloc),
    };
    all.names.push(Text::from_str(alloc, file)?)?;
    all.heres.push(host.here.clone()?)?;
    all.texts.push(main)?;
    let patterns = patterns_of(alloc, all.texts.as_slice(), host)?;
    for pattern in patterns.as_slice() {
        add_listed(alloc, pattern.as_str(), shelf, &mut all)?;
    }
    Ok(all)
}

/// The patterns of the files that Supervisor includes; none where it refuses the main text, or they can't be expanded.
fn patterns_of(alloc: Global, main: &[Bytes], host: &Host) -> Result<Vec<Text>, Stopped> {
    let sections = match read_there(alloc, main) {
        Ok(sections) => sections,
        Err(Refusal::OutOfMemory) => return Err(Stopped::OutOfMemory),
        Err(_) => return Ok(Vec::new(alloc)),
    };
    let Some(files) = value_in(sections.as_slice(), "include", "files") else {
        return Ok(Vec::new(alloc));
    };
    let text = include_text(alloc, files)?;
    match includes(alloc, text.as_bytes(), host) {
        Ok(patterns) => Ok(patterns),
        Err(fault) => {
            told(fault)?;
            Ok(Vec::new(alloc))
        }
    }
}

/// The value of a key in the section of this name.
fn value_in<'a>(sections: &'a [Section], name: &str, key: &str) -> Option<&'a str> {
    let section = sections.iter().find(|s| s.name.as_str() == name)?;
    let entry = section
        .keys
        .as_slice()
        .iter()
        .find(|e| e.key.as_str() == key)?;
    Some(entry.value.as_str())
}

/// A text that includes these files, in one line.
fn include_text(alloc: Global, files: &str) -> Result<String, AllocError> {
    let mut text = String::from_str(alloc, "[include]\nfiles=")?;
    for word in files.split_whitespace() {
        text.push_str(word)?;
        text.push(' ')?;
    }
    Ok(text)
}

/// Adds the texts of the files that a pattern lists.
fn add_listed<S: Shelf>(
    alloc: Global,
    pattern: &str,
    shelf: &mut S,
    all: &mut Gathered,
) -> Result<(), Stopped> {
    let names = match shelf.names(alloc, pattern) {
        Ok(names) => names,
        Err(ShelfFault::OutOfMemory) => return Err(Stopped::OutOfMemory),
        Err(_) => return Err(Stopped::Unreadable(Text::from_str(alloc, pattern)?)),
    };
    for name in names.as_slice() {
        if !is_one_of(all.names.as_slice(), name.as_str()) {
            add_text(alloc, name, shelf, all)?;
        }
    }
    Ok(())
}

fn is_one_of(names: &[Text], name: &str) -> bool {
    names.iter().any(|other| other.as_str() == name)
}

/// Adds the text of a file; one that can't be opened is passed over, as Supervisor does.
fn add_text<S: Shelf>(
    alloc: Global,
    name: &Text,
    shelf: &mut S,
    all: &mut Gathered,
) -> Result<(), Stopped> {
    match shelf.read(alloc, name.as_str()) {
        Ok(text) => Ok(keep(alloc, name, text, all)?),
        Err(ShelfFault::OutOfMemory) => Err(Stopped::OutOfMemory),
        Err(_) => Ok(()),
    }
}

fn keep(alloc: Global, name: &Text, text: Bytes, all: &mut Gathered) -> Result<(), AllocError> {
    let copy = Bytes::from_slice(alloc, text.as_slice())?;
    all.included.push((name.clone()?, copy))?;
    all.names.push(name.clone()?)?;
    all.heres
        .push(Text::from_str(alloc, directory_in(name.as_str()))?)?;
    all.texts.push(text)
}

/// What stands before the last slash of a path.
fn directory_in(path: &str) -> &str {
    match path.rsplit_once('/') {
        Some((directory, _)) => directory,
        None => "",
    }
}
