//! Why the daemon isn't begun.

use std::alloc::AllocError;
use sv_base::Text;

/// Why the daemon isn't begun.
#[derive(Drop)]
pub enum Unbegun {
    /// For the reason that this line says, with its line feed.
    Refused(Text),
    /// It was asked for these lines alone, on standard output.
    Told(Text),
    /// Its own call refused words or configuration, said so, and gave this status.
    Ended(u8),
    OutOfMemory,
}

impl From<AllocError> for Unbegun {
    fn from(_: AllocError) -> Unbegun {
        Unbegun::OutOfMemory
    }
}
