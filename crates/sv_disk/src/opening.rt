//! Opening a log.

use crate::kinds::{Kind, Node, kind_at, node_of};
use crate::refusal::Refusal;
use std::fs::{OpenFile, OpenOptions, Permissions};
use std::io::ErrorKind;
use std::os::unix::fs::{MetadataExt, OpenOptionsExt, PermissionsExt};
use std::rt::Files;
use std::{fs, io};

/// The rights of a file that the daemon made up a name for: its owner's alone.
const OWN_MODE: u32 = 0o600;

/// How a log is made that isn't there.
#[derive(Clone, Copy)]
pub(crate) enum Making {
    /// The daemon made up its name: for its owner alone, and never through a link.
    Own,
    /// With the rights that the umask leaves.
    Shared,
    /// With these rights.
    WithMode(u32),
}

/// An open log.
#[derive(Drop)]
pub(crate) struct OpenLog<F> {
    pub(crate) file: F,
    pub(crate) node: Node,
}

/// The rights that a mask leaves of those for reading and writing.
pub fn mode_under(umask: u32) -> u32 {
    0o666 & !umask
}

/// Opens a log, at whose end each piece is added; a missing one is made. Nothing is opened that could wait: a named pipe
/// and a socket are refused.
pub(crate) fn open_log<R: Files>(
    rt: &R,
    name: &str,
    making: Making,
) -> Result<OpenLog<R::File>, Refusal> {
    let kind = kind_at(rt, name)?;
    match kind {
        Kind::Pipe => Err(Refusal::Pipe),
        Kind::Socket => Err(Refusal::Socket),
        _ => match making {
            Making::Own => open_own(rt, name),
            Making::Shared => Ok(opened(
                OpenOptions::new().append(true).create(true).open(rt, name)?,
            )?),
            Making::WithMode(mode) => Ok(open_with(rt, name, mode, kind == Kind::Missing)?),
        },
    }
}

/// An open log over this file.
fn opened<F: OpenFile + Drop>(file: F) -> io::Result<OpenLog<F>> {
    let node = node_of(&file.metadata()?);
    Ok(OpenLog { file, node })
}

/// Opens a log; one that is made gets these rights, whatever the daemon's umask is.
fn open_with<R: Files>(
    rt: &R,
    name: &str,
    mode: u32,
    is_missing: bool,
) -> io::Result<OpenLog<R::File>> {
    let file = OpenOptions::new()
        .append(true)
        .create(true)
        .mode(mode)
        .open(rt, name)?;
    if is_missing {
        file.set_permissions(Permissions::from_mode(mode))?;
    }
    opened(file)
}

/// Opens a log whose name the daemon made up, so that somebody else may have made something there: it is to be a plain file
/// of the daemon's user, and not one behind a link.
fn open_own<R: Files>(rt: &R, name: &str) -> Result<OpenLog<R::File>, Refusal> {
    let log = opened(own_file(rt, name)?)?;
    let found = fs::symlink_metadata(rt, name)?;
    if found.is_file() && node_of(&found) == log.node && is_ours(rt, found.uid()) {
        Ok(log)
    } else {
        Err(Refusal::OtherFile)
    }
}

/// Whether what belongs to this user may be the daemon's own, as far as the system tells whose the daemon is.
fn is_ours<R: Files>(rt: &R, owner: u32) -> bool {
    match fs::metadata(rt, "/proc/self") {
        Ok(daemon) => daemon.uid() == owner,
        Err(_) => true,
    }
}

/// The file of this name; it is made by one call that goes through no link.
fn own_file<R: Files>(rt: &R, name: &str) -> io::Result<R::File> {
    match OpenOptions::new().append(true).open(rt, name) {
        Err(error) if error.kind() == ErrorKind::NotFound => OpenOptions::new()
            .append(true)
            .create_new(true)
            .mode(OWN_MODE)
            .open(rt, name),
        answer => answer,
    }
}
