//! Why reading stopped.
ghost use Rattle.std.specs.Prelude.{◌≡◌};
ghost use Rattle.sv_letters.specs.declared.bad_byte.BadByte.{BadByte};
ghost use Rattle.sv_xmlcall.specs.declared.stop.Stop.{Stop};

use std::alloc::{AllocError, AllocFailed};
use sv_letters::BadByte;

/// Why reading stops within a text.
#[derive(Clone, Copy, PartialEq, Eq)]
pub enum Stop {
    /// At the first byte with which no text goes on: the number of bytes from it to the end.
    At(usize),
    /// Before a value inside too many others.
    TooDeep,
    /// Out of memory.
    OutOfMemory,
}

impl From<BadByte> for Stop {
    ghost from_gives = { λ bad stop. stop ≡ Stop.At bad.0 };

    fn from(bad: BadByte) -> Stop {
        Stop::At(bad.0)
    }
}

impl From<AllocError> for Stop {
    ghost from_gives = { λ error stop. stop ≡ Stop.OutOfMemory };

    fn from(_error: AllocError) -> Stop {
        Stop::OutOfMemory
    }
}

impl<T: Drop> From<AllocFailed<T>> for Stop {
    ghost from_gives = { λ error stop. stop ≡ Stop.OutOfMemory };

    fn from(_error: AllocFailed<T>) -> Stop {
        Stop::OutOfMemory
    }
}
