//! Why an address can't be opened.
ghost use Rattle.std.specs.Prelude.{◌≡◌, IfOk, string_bytes};
ghost use Rattle.sv_sockets.specs.Addresses.{address, inet_address, opening_line};

use std::alloc::{AllocError, Global};
use std::io;
use std::io::ErrorKind;
use sv_base::{Place, Text};

/// Why an address can't be opened.
#[derive(Drop)]
pub enum OpenFault {
    /// Another process accepts there, or is about to.
    InUse,
    /// At the path there is a file that is no socket; it stays as it is.
    NoSocket,
    /// At the path of the lock there is something that is no plain file.
    NoLock,
    /// The directory of the path isn't there.
    NoDirectory,
    /// The user or the group that the socket's file is to belong to is unknown.
    NoOwner,
    /// The system refuses to give the socket's file the owner that it is to have.
    Owner(io::Error),
    /// What else the system refuses.
    System(io::Error),
    OutOfMemory,
}

impl From<AllocError> for OpenFault {
    fn from(_: AllocError) -> OpenFault {
        OpenFault::OutOfMemory
    }
}

impl From<io::Error> for OpenFault {
    fn from(error: io::Error) -> OpenFault {
        match error.kind() {
            ErrorKind::AddrInUse => OpenFault::InUse,
            ErrorKind::OutOfMemory => OpenFault::OutOfMemory,
            _ => OpenFault::System(error),
        }
    }
}

impl OpenFault {
    /// The reason in words.
    pub fn reason(&self, alloc: Global) -> Result<Text, AllocError> {
        match self {
            OpenFault::InUse => Ok(Text::fixed("in use by another process")),
            OpenFault::NoSocket => Ok(Text::fixed("a file that is no socket is there")),
            OpenFault::NoLock => Ok(Text::fixed(
                "the file beside it that ends in .lock is no plain file",
            )),
            OpenFault::NoDirectory => Ok(Text::fixed("no such directory")),
            OpenFault::NoOwner => Ok(Text::fixed("the user or the group of chown= is unknown")),
            OpenFault::Owner(error) => {
                let words = words_of(alloc, error)?;
                let words = format!(in alloc; "can't change its owner: {words}")?;
                Ok(Text::from_string(words))
            }
            OpenFault::System(error) => Ok(Text::from_string(words_of(alloc, error)?)),
            OpenFault::OutOfMemory => Ok(Text::fixed("out of memory")),
        }
    }
}

/// What the system's error is called.
fn words_of(alloc: Global, error: &io::Error) -> Result<String, AllocError> {
    let kind = error.kind();
    match error.raw_os_error() {
        Some(_) if kind != ErrorKind::Uncategorized => format!(in alloc; "{kind}"),
        _ => format!(in alloc; "{error}"),
    }
}

/// The line for an address that can't be opened for this reason, with its line feed.
pub fn opening_line(alloc: Global, place: &Place, reason: &str) -> Result<Text, AllocError>
    ensures { IfOk result (λ line. line ≡ opening_line place.now reason.now) }
{
    let mut line = String::from_str(alloc, "Error: cannot open ")?;
    line.push_str(address_of(alloc, place)?.as_str())?;
    line.push_str(": ")?;
    line.push_str(reason)?;
    line.push_str("\n")?;
    Ok(Text::from_string(line))
}

/// An address as a server's URL has it.
fn address_of(alloc: Global, place: &Place) -> Result<String, AllocError>
    ensures { IfOk result (λ line. string_bytes line ≡ address place.now) }
{
    match place {
        Place::Inet(host, port) => inet_address_of(alloc, host.as_str(), *port),
        Place::Unix(path) => {
            let path = path.as_str();
            format!(in alloc; "unix://{path}")
        }
    }
}

fn inet_address_of(alloc: Global, host: &str, port: u16) -> Result<String, AllocError>
    ensures { IfOk result (λ line. string_bytes line ≡ inet_address host.now port) }
{
    let port = format!(in alloc; "{port}")?;
    let mut line = String::from_str(alloc, "http://")?;
    line.push_str(host)?;
    line.push_str(":")?;
    line.push_str(port.as_str())?;
    Ok(line)
}
