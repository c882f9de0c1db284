//! Which file a command's first word names, and whether it can be executed.
ghost use Rattle.std.specs.Prelude.{◌≡◌};
ghost use Rattle.sv_processes.specs.Rights.{is_program, may_execute};

use crate::state::ProcessState;
use std::alloc::{AllocError, Global};
use std::fs::{File, Metadata};
use std::io::ErrorKind;
use std::os::unix::fs::MetadataExt;
use std::rt::Files;
use std::{fs, io};
use sv_os::read_some;

/// What is searched where a program has no `PATH`.
pub(crate) const DEFAULT_PATH: &str = "/bin:/usr/bin";

/// What there is behind a command's first word.
#[derive(Drop)]
pub(crate) enum Look {
    /// A file that can be executed, or one of which the start itself will tell.
    Program,
    /// No such file.
    Missing,
    /// A directory: its path.
    Directory(String),
    /// A file without the right to execute it: its path.
    Closed(String),
    /// A text that doesn't begin with `#!`: its path.
    PlainText(String),
}

/// Who wants to execute a file.
#[derive(Clone, Copy)]
pub enum Caller<'a> {
    /// This process.
    Itself(&'a ProcessState),
    /// Another user, of whom only the program's own start tells.
    Other,
}

/// Looks at a command's first word. One with a slash is read from this directory on; any other is looked for along the path,
/// where the first that can be executed counts, and else the first that is there.
pub(crate) fn search<R: Files>(
    rt: &R,
    alloc: Global,
    word: &str,
    directory: &str,
    path: &str,
    caller: Caller<'_>,
) -> Result<Look, AllocError> {
    if word.contains('/') {
        return look_at(rt, joined(alloc, directory, word)?, caller);
    }
    let mut first = Look::Missing;
    for entry in path.split(':') {
        let place = joined(alloc, directory, entry)?;
        match look_at(rt, joined(alloc, place.as_str(), word)?, caller)? {
            Look::Program => return Ok(Look::Program),
            Look::Missing => {}
            other => {
                if matches!(first, Look::Missing) {
                    first = other;
                }
            }
        }
    }
    Ok(first)
}

/// This path, read from a directory on; an empty directory is the daemon's.
fn joined(alloc: Global, directory: &str, path: &str) -> Result<String, AllocError> {
    if directory.is_empty() || path.starts_with('/') {
        return String::from_str(alloc, path);
    }
    if path.is_empty() {
        return String::from_str(alloc, directory);
    }
    format!(in alloc; "{directory}/{path}")
}

fn look_at<R: Files>(rt: &R, path: String, caller: Caller<'_>) -> Result<Look, AllocError> {
    let found = match fs::metadata(rt, path.as_str()) {
        Ok(found) => found,
        Err(error) => return Ok(look_of(&error, path)),
    };
    if found.is_dir() {
        return Ok(Look::Directory(path));
    }
    if !found.is_file() || !may(&found, caller) {
        return Ok(Look::Closed(path));
    }
    if has_program(rt, path.as_str()) {
        return Ok(Look::Program);
    }
    Ok(Look::PlainText(path))
}

/// What an error of the look stands for.
fn look_of(error: &io::Error, path: String) -> Look {
    match error.kind() {
        ErrorKind::NotFound | ErrorKind::NotADirectory => Look::Missing,
        ErrorKind::PermissionDenied => Look::Closed(path),
        _ => Look::Program,
    }
}

fn may(found: &Metadata, caller: Caller<'_>) -> bool {
    match caller {
        Caller::Itself(state) => may_execute(found.mode(), found.uid(), found.gid(), state),
        Caller::Other => found.mode() & 0o111 != 0,
    }
}

/// Whether this process may execute a file of these rights, this owner and this group: root where anybody may, its owner by
/// the owner's right, its group by the group's, all others by theirs.
pub fn may_execute(mode: u32, owner: u32, group: u32, state: &ProcessState) -> bool
    ensures { result ≡ may_execute mode owner group state.now }
{
    if state.user == 0 {
        return mode & 0o111 != 0;
    }
    if state.user == owner {
        return mode & 0o100 != 0;
    }
    if state.group == group || state.groups.as_slice().contains(&group) {
        return mode & 0o010 != 0;
    }
    mode & 0o001 != 0
}

/// Whether this file is a program by its first bytes; also where they can't be read.
fn has_program<R: Files>(rt: &R, path: &str) -> bool {
    let Ok(mut file) = File::open(rt, path) else {
        return true;
    };
    let mut head = [0u8; 128];
    match read_some(&mut file, &mut head) {
        Ok(count) => is_program(head.get(..count).unwrap_or(&[])),
        Err(_) => true,
    }
}

/// Whether a file that begins so is a program, and no plain text, which the system refuses and a shell would run: it begins
/// with `#!`, or it has a NUL.
pub fn is_program(head: &[u8]) -> bool
    ensures { result ≡ is_program head.now }
{
    head.starts_with(b"#!") || head.contains(&0)
}
