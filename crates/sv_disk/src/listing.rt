//! Which files a pattern names.
ghost use Rattle.std.specs.Prelude.{◌≡◌, IfOk};
ghost use Rattle.sv_out.specs.Files.{AreRising};

use std::alloc::{AllocError, Global};
use std::collections::BTreeSet;
use std::io::ErrorKind;
use std::rt::Files;
use std::{fs, io};
use sv_base::Text;
use sv_out::matches;

/// The names of the files that a pattern matches, in which `*` is any run without `/` and `?` one character but `/`. They
/// rise by bytes, each once.
pub(crate) fn names_on<R: Files + AllocGlobal + Clone + Drop>(
    alloc: Global,
    rt: &R,
    pattern: &str,
) -> io::Result<Vec<Text>>
    ensures { IfOk result (λ names. AreRising names.items) }
{
    let mut found = Vec::new(alloc);
    let mut first = true;
    for part in pattern.split('/') {
        found = if first {
            first_parts(alloc, rt, part)?
        } else {
            further_parts(alloc, rt, found, part)?
        };
        first = false;
    }
    rising(alloc, there(alloc, rt, found)?)
}

/// Whether a part of a pattern stands for several names.
fn is_open(part: &str) -> bool {
    part.contains('*') || part.contains('?')
}

/// The paths that the first part of a pattern stands for; an empty one is the root.
fn first_parts<R: Files + AllocGlobal + Clone + Drop>(
    alloc: Global,
    rt: &R,
    part: &str,
) -> io::Result<Vec<String>> {
    let mut paths = Vec::new(alloc);
    if is_open(part) {
        add_matching(alloc, rt, ".", "", part, &mut paths)?;
    } else {
        paths.push(String::from_str(alloc, part)?)?;
    }
    Ok(paths)
}

/// The paths that a further part of a pattern stands for, below these ones.
fn further_parts<R: Files + AllocGlobal + Clone + Drop>(
    alloc: Global,
    rt: &R,
    above: Vec<String>,
    part: &str,
) -> io::Result<Vec<String>> {
    let mut paths = Vec::new(alloc);
    for path in above {
        let begin = format!(in alloc; "{path}/")?;
        if is_open(part) {
            add_matching(alloc, rt, begin.as_str(), begin.as_str(), part, &mut paths)?;
        } else {
            paths.push(format!(in alloc; "{begin}{part}")?)?;
        }
    }
    Ok(paths)
}

/// Adds the entries of a directory that a part of a pattern matches, each after `begin`. What is no directory has none.
fn add_matching<R: Files + AllocGlobal + Clone + Drop>(
    alloc: Global,
    rt: &R,
    directory: &str,
    begin: &str,
    part: &str,
    paths: &mut Vec<String>,
) -> io::Result<()> {
    let entries = match fs::read_dir(rt, directory) {
        Ok(entries) => entries,
        Err(error) if is_absent(error.kind()) => return Ok(()),
        Err(error) => return Err(error),
    };
    for entry in entries {
        let entry = entry?;
        let name = entry.file_name();
        if matches(part.as_bytes(), name.as_bytes()) {
            paths.push(format!(in alloc; "{begin}{name}")?)?;
        }
    }
    Ok(())
}

/// Whether nothing of that name, or no directory, was there.
fn is_absent(kind: ErrorKind) -> bool {
    kind == ErrorKind::NotFound || kind == ErrorKind::NotADirectory
}

/// Those of these paths at which there is something.
fn there<R: Files>(alloc: Global, rt: &R, paths: Vec<String>) -> io::Result<BTreeSet<Text>> {
    let mut names = BTreeSet::new(alloc);
    for path in paths {
        match fs::metadata(rt, path.as_str()) {
            Ok(_) => {
                names.insert(Text::from_string(path))?;
            }
            Err(error) if is_absent(error.kind()) => {}
            Err(error) => return Err(error),
        }
    }
    Ok(names)
}

/// The names of a set, which rise.
fn rising(alloc: Global, names: BTreeSet<Text>) -> io::Result<Vec<Text>>
    ensures { IfOk result (λ rising. AreRising rising.items) }
{
    let mut list = Vec::new(alloc);
    for name in names.iter() {
        list.push(copy_of(name)?)?;
    }
    Ok(list)
}

fn copy_of(name: &Text) -> Result<Text, AllocError>
    ensures { IfOk result (λ copy. copy ≡ name.now) }
{
    name.clone()
}
