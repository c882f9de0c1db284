//! Why a log takes no piece.

use std::alloc::{AllocError, Global};
use std::io;
use std::io::ErrorKind;

/// Why a log takes no piece.
#[derive(Drop)]
pub(crate) enum Refusal {
    /// The system refused a call.
    System(io::Error),
    /// A named pipe stands there.
    Pipe,
    /// A socket stands there.
    Socket,
    /// The name is a link, or no plain file stands there, where the daemon would make a file of its own.
    OtherFile,
    /// The daemon's own stream doesn't take all of it.
    Standard,
}

impl From<io::Error> for Refusal {
    fn from(error: io::Error) -> Refusal {
        Refusal::System(error)
    }
}

impl From<AllocError> for Refusal {
    fn from(error: AllocError) -> Refusal {
        Refusal::System(io::Error::from(error))
    }
}

impl Refusal {
    /// The same as an error of the system, for the count.
    pub(crate) fn into_error(self) -> io::Error {
        match self {
            Refusal::System(error) => error,
            _ => io::Error::from(ErrorKind::Other),
        }
    }

    /// In words, with what helps.
    pub(crate) fn words(&self, alloc: Global) -> Result<String, AllocError> {
        match self {
            Refusal::System(error) if error.kind() == ErrorKind::NotFound => {
                String::from_str(alloc, "its directory isn't there")
            }
            Refusal::System(error) => format!(in alloc; "{error}"),
            Refusal::Pipe => String::from_str(
                alloc,
                "it is a named pipe, whose reader could stop the daemon",
            ),
            Refusal::Socket => String::from_str(alloc, "it is a socket"),
            Refusal::OtherFile => String::from_str(alloc, "another file stands at its name"),
            Refusal::Standard => String::from_str(alloc, "the daemon's own stream doesn't take it"),
        }
    }
}
