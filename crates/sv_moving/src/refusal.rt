//! Why Supervisor refuses a configuration.
ghost use Rattle.std.specs.Prelude.{◌≡◌};
ghost use Rattle.sv_moving.specs.declared.refusal.Refusal.TheVariants.{OutOfMemory};

use std::alloc::{AllocError, AllocFailed};
use sv_base::Items;

/// Why Supervisor refuses a configuration. Texts count from 0, which is the main one, lines from 1, bytes from 0.
#[derive(Drop)]
pub enum Refusal {
    /// A line of this text that stands before any section of it.
    NoHeader(usize, usize),
    /// All the lines of this text that are neither of a section nor of a key.
    BadLines(usize, Items<usize>),
    /// The first byte of this text at which no character begins.
    NotUtf8(usize, usize),
    /// There was no memory left for the answer.
    OutOfMemory,
}

impl From<AllocError> for Refusal {
    ghost from_gives = { λ _ e. e ≡ OutOfMemory };

    fn from(_: AllocError) -> Refusal {
        Refusal::OutOfMemory
    }
}

impl<T: Drop> From<AllocFailed<T>> for Refusal {
    ghost from_gives = { λ _ e. e ≡ OutOfMemory };

    fn from(_: AllocFailed<T>) -> Refusal {
        Refusal::OutOfMemory
    }
}
