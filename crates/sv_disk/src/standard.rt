//! The names of the daemon's own streams.
ghost use Rattle.std.specs.Prelude.{◌≡◌};
ghost use Rattle.sv_disk.specs.Standard.{descriptor_named, standard_named};

use std::alloc::AllocError;
use std::io::ErrorKind;
use std::path::Path;
use std::rt::Files;
use std::{fs, io};

/// One of the daemon's own streams. It may be anything: a socket can't be opened by its name, and a file would be
/// written from a second holder.
#[derive(Clone, Copy, Debug, PartialEq, Eq)]
pub enum Standard {
    /// Standard output.
    Out,
    /// Standard error.
    Err,
}

/// How many symbolic links are followed.
const STEPS: u32 = 8;

/// Which of the daemon's own streams a name means, by itself or by its symbolic links. `own` is the folder of the daemon in
/// `/proc`, with a slash at its end.
pub(crate) fn standard_at<R: Files + AllocGlobal>(
    rt: &R,
    own: &str,
    name: &str,
) -> io::Result<Option<Standard>> {
    let mut path = String::from_str(rt.alloc(), name)?;
    for _ in 0..STEPS {
        if let Some(standard) = standard_in(own, path.as_str()) {
            return Ok(Some(standard));
        }
        match target_of(rt, path.as_str())? {
            Some(target) => path = target,
            None => return Ok(None),
        }
    }
    Ok(None)
}

/// What a symbolic link names, read from its own directory; none where it is no link.
fn target_of<R: Files + AllocGlobal>(rt: &R, name: &str) -> io::Result<Option<String>> {
    match fs::read_link(rt, name) {
        Ok(target) => Ok(Some(beside(rt, name, target.as_path())?)),
        Err(error) if error.kind() == ErrorKind::OutOfMemory => Err(error),
        Err(_) => Ok(None),
    }
}

/// A path that is read from the directory of this name.
fn beside<R: AllocGlobal>(rt: &R, name: &str, path: Path<'_>) -> Result<String, AllocError> {
    match Path::new(name).parent() {
        Some(directory) => Ok(directory.join(rt.alloc(), path)?.into_string()),
        None => String::from_str(rt.alloc(), path.as_str()),
    }
}

/// Which of the daemon's own streams a name means by itself.
fn standard_in(own: &str, name: &str) -> Option<Standard> {
    match standard_named(name) {
        Some(standard) => Some(standard),
        None => descriptor_named(name.strip_prefix(own)?),
    }
}

/// Which of the daemon's own streams has this name for every process.
pub fn standard_named(name: &str) -> Option<Standard>
    ensures { result ≡ standard_named name.now }
{
    match name {
        "/dev/stdout" | "/dev/fd/1" | "/proc/self/fd/1" => Some(Standard::Out),
        "/dev/stderr" | "/dev/fd/2" | "/proc/self/fd/2" => Some(Standard::Err),
        _ => None,
    }
}

/// Which of the daemon's own streams has this name in the daemon's folder of `/proc`.
pub fn descriptor_named(name: &str) -> Option<Standard>
    ensures { result ≡ descriptor_named name.now }
{
    match name {
        "fd/1" => Some(Standard::Out),
        "fd/2" => Some(Standard::Err),
        _ => None,
    }
}
