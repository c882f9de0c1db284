//! What stands at a name.
ghost use Rattle.std.specs.Prelude.{◌≡◌};

use std::fs::Metadata;
use std::io::ErrorKind;
use std::os::unix::fs::{FileTypeExt, MetadataExt};
use std::rt::Files;
use std::{fs, io};

/// What stands at a name, behind its symbolic links.
#[derive(Clone, Copy, PartialEq, Eq)]
pub(crate) enum Kind {
    /// Nothing, or a link to nothing.
    Missing,
    /// A plain file of so many bytes.
    Plain(u64),
    /// A named pipe: to open it, or to write to it, may take as long as its reader wants.
    Pipe,
    /// A socket, which can't be opened by its name.
    Socket,
    /// A device or a directory.
    Other,
}

/// What stands at a name. An error but a missing file is one.
pub(crate) fn kind_at<R: Files>(rt: &R, name: &str) -> io::Result<Kind> {
    match fs::metadata(rt, name) {
        Ok(found) => Ok(kind_of(&found)),
        Err(error) if error.kind() == ErrorKind::NotFound => Ok(Kind::Missing),
        Err(error) => Err(error),
    }
}

fn kind_of(found: &Metadata) -> Kind {
    let kind = found.file_type();
    if kind.is_file() {
        Kind::Plain(found.len())
    } else if kind.is_fifo() {
        Kind::Pipe
    } else if kind.is_socket() {
        Kind::Socket
    } else {
        Kind::Other
    }
}

/// Which file it is, whatever names it has: its device's number and its own on it.
#[derive(Clone, Copy, PartialEq, Eq)]
pub(crate) struct Node {
    device: u64,
    number: u64,
}

/// Which file this is.
pub(crate) fn node_of(found: &Metadata) -> Node {
    Node {
        device: found.dev(),
        number: found.ino(),
    }
}
