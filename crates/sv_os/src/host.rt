//! The machine that a program runs on, for the expansions of its configuration.
ghost use Rattle.std.specs.Prelude.{◌≡◌, IfOk, map};
ghost use Rattle.std.specs.Option.{unwrap_or};
ghost use Rattle.std.specs.Path.{path_join, path_parent};
ghost use Rattle.sv_out.specs.Files.{AreRising};

use crate::clock::OsClock;
use std::alloc::{AllocError, Global};
use std::collections::BTreeMap;
use std::env::FillError;
use std::path::Path;
use std::rt::{Clock, Env, Files};
use std::{env, fs, str};
use sv_base::{Host, Items, Text};
use sv_outside::Clock as Moments;

/// Where Linux tells the machine's name.
const NAME_FILE: &str = "/proc/sys/kernel/hostname";

/// The machine of a process of this number, with this configuration file: the directory of the file, from the root on, or
/// the working directory where there is none; the variables by rising names, each once, and those that are UTF-8 alone; the
/// time by the clock. What the machine doesn't tell is empty or 0.
pub fn host_of<R: Files + Env + Clock + AllocGlobal>(
    rt: &R,
    pid: u32,
    file: Option<&str>,
) -> Result<Host, AllocError>
    ensures pid { IfOk result (λ host. host.pid ≡ pid) }
    ensures environment { IfOk result (λ host.
        AreRising (map (λ variable. variable.0) host.environment)) }
{
    Ok(Host {
        name: name_of(rt)?,
        here: here_of(rt, file)?,
        pid,
        environment: environment_of(rt.alloc(), rt)?,
        start: OsClock::new(rt).now(),
    })
}

fn name_of<R: Files + AllocGlobal>(rt: &R) -> Result<Text, AllocError> {
    match fs::read_to_string(rt, NAME_FILE) {
        Ok(name) => Text::from_str(rt.alloc(), name.as_str().trim_end()),
        Err(_) => Ok(Text::fixed("")),
    }
}

fn here_of<R: Env + AllocGlobal>(rt: &R, file: Option<&str>) -> Result<Text, AllocError> {
    let current = match env::current_dir(rt) {
        Ok(path) => path.into_string(),
        Err(_) => String::new(rt.alloc()),
    };
    match file {
        Some(file) => directory_of(rt.alloc(), current.as_str(), file),
        None => Ok(Text::from_string(current)),
    }
}

/// The directory of a file whose name is read from this directory on.
pub fn directory_of(alloc: Global, current: &str, file: &str) -> Result<Text, AllocError>
    ensures { IfOk result (λ directory.
        directory ≡ unwrap_or (path_parent (path_join current.now file.now)) current.now) }
{
    let path = Path::new(current).join(alloc, file)?;
    match path.as_path().parent() {
        Some(directory) => Text::from_str(alloc, directory.as_str()),
        None => Text::from_str(alloc, current),
    }
}

/// The variables of the environment, by rising names. Of two of one name the first counts.
pub fn environment_of<E: Env>(alloc: Global, rt: &E) -> Result<Items<(Text, Text)>, AllocError>
    ensures { IfOk result (λ variables. AreRising (map (λ variable. variable.0) variables)) }
{
    let mut variables = BTreeMap::new(alloc);
    let mut room = Vec::from_elem(alloc, 0u8, 256)?;
    for number in 0..usize::MAX {
        match entry_at(rt, number, &mut room)? {
            Some(length) => {
                if let Some(entry) = room.as_slice().get(..length) {
                    add_entry(alloc, &mut variables, entry)?;
                }
            }
            None => break,
        }
    }
    Ok(Items::from_vec(variables.into_iter().collect(alloc)?))
}

/// Puts an entry of the environment at the front of this room, which grows as need be: its length, or none past the last.
fn entry_at<E: Env>(
    rt: &E,
    number: usize,
    room: &mut Vec<u8>,
) -> Result<Option<usize>, AllocError> {
    for _ in 0..usize::BITS {
        match rt.var_at(number, room.as_mut_slice()) {
            Ok(length) => return Ok(Some(length)),
            Err(FillError::NotPresent) => return Ok(None),
            Err(FillError::TooLong) => room.resize(room.len().saturating_mul(2), 0u8)?,
        }
    }
    Err(AllocError)
}

/// Adds an entry `NAME=VALUE`, unless its name is there; no other entry says anything.
fn add_entry(
    alloc: Global,
    variables: &mut BTreeMap<Text, Text>,
    entry: &[u8],
) -> Result<(), AllocError> {
    let Ok(entry) = str::from_utf8(entry) else {
        return Ok(());
    };
    let Some((name, value)) = entry.split_once('=') else {
        return Ok(());
    };
    let name = Text::from_str(alloc, name)?;
    if !name.as_str().is_empty() && !variables.contains_key(&name) {
        variables.insert(name, Text::from_str(alloc, value)?)?;
    }
    Ok(())
}
