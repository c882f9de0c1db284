//! Renaming and emptying, of plain files alone.
ghost use Rattle.std.specs.Prelude.{◌≡◌};

use crate::kinds::{Kind, kind_at};
use crate::standard::standard_at;
use std::io::ErrorKind;
use std::rt::Files;
use std::{fs, io};

/// Renames a plain file over another one; a missing one and an empty one stay as they are. Of anything else, and of the
/// daemon's own streams, it is an error: their names are there for others too. `own` is the folder of the daemon in `/proc`.
///
/// Where the second name is that of a backup, `LOG.NUMBER`, nothing is renamed either while the log itself is missing or
/// empty: room is made for nothing then, and the oldest backup would be lost for it.
pub(crate) fn shift_on<R: Files + AllocGlobal>(
    rt: &R,
    own: &str,
    from: &str,
    to: &str,
) -> io::Result<()> {
    match kind_at(rt, from)? {
        Kind::Missing | Kind::Plain(0) => return Ok(()),
        Kind::Plain(_) => {}
        _ => return Err(io::Error::from(ErrorKind::InvalidInput)),
    }
    if standard_at(rt, own, from)?.is_some() {
        return Err(io::Error::from(ErrorKind::InvalidInput));
    }
    if is_needless(rt, to)? {
        return Ok(());
    }
    fs::rename(rt, from, to)
}

/// Whether this is a backup's name, and its log has nothing to be backed up.
fn is_needless<R: Files>(rt: &R, to: &str) -> io::Result<bool> {
    match log_of(to) {
        Some(log) => Ok(matches!(kind_at(rt, log)?, Kind::Missing | Kind::Plain(0))),
        None => Ok(false),
    }
}

/// The log whose backup has this name, `LOG.NUMBER`.
fn log_of(name: &str) -> Option<&str> {
    let (log, number) = name.rsplit_once('.')?;
    let is_number = !number.is_empty() && number.bytes().all(|byte| byte.is_ascii_digit());
    is_number.then_some(log)
}

/// Makes a plain file empty; a missing one is made, and anything else stays as it is.
pub(crate) fn empty_on<R: Files + AllocGlobal>(rt: &R, own: &str, name: &str) -> io::Result<()> {
    match kind_at(rt, name)? {
        Kind::Missing | Kind::Plain(_) if standard_at(rt, own, name)?.is_none() => {
            fs::write(rt, name, b"".as_slice())
        }
        _ => Ok(()),
    }
}
