//! Why reading stopped.
ghost use Rattle.std.specs.Prelude.{◌≡◌};
ghost use Rattle.sv_journal.specs.declared.stop.Stop.{Stop};
ghost use Rattle.sv_letters.specs.declared.bad_byte.BadByte.{BadByte};

use std::alloc::{AllocError, AllocFailed};
use sv_letters::BadByte;

/// Why reading stopped within a line.
#[derive(Clone, Copy, PartialEq, Eq)]
pub enum Stop {
    /// At the first byte that no line of a journal has there: the number of bytes from it to the line's end.
    At(usize),
    /// Out of memory.
    OutOfMemory,
}

impl From<BadByte> for Stop {
    ghost from_gives = { λ bad stop. stop ≡ Stop.At bad.0 };

    fn from(bad: BadByte) -> Stop {
        Stop::At(bad.0)
    }
}

impl From<AllocError> for Stop {
    ghost from_gives = { λ error stop. stop ≡ Stop.OutOfMemory };

    fn from(_error: AllocError) -> Stop {
        Stop::OutOfMemory
    }
}

impl<T: Drop> From<AllocFailed<T>> for Stop {
    ghost from_gives = { λ error stop. stop ≡ Stop.OutOfMemory };

    fn from(_error: AllocFailed<T>) -> Stop {
        Stop::OutOfMemory
    }
}
