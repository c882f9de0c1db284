//! The statuses, and why nothing is told.
ghost use Rattle.std.specs.Prelude.{◌≡◌};
ghost use Rattle.sv_check.specs.declared.stopped.Stopped.TheVariants.{OutOfMemory};

use std::alloc::{AllocError, AllocFailed};
use sv_base::Text;
use sv_sections::ConfFault;

/// Nothing differs.
pub const SAME: u8 = 0;
/// Something is told.
pub const DIFFERS: u8 = 1;
/// Supervisor itself would refuse the file.
pub const REFUSED: u8 = 2;
/// The words, or a file, couldn't be read.
pub const UNREADABLE: u8 = 3;
/// The report couldn't be written.
pub const UNWRITTEN: u8 = 4;
/// Memory was refused.
pub const NO_MEMORY: u8 = 5;

/// Why nothing is told.
#[derive(Drop)]
pub enum Stopped {
    /// This file, or this pattern of files, couldn't be read.
    Unreadable(Text),
    OutOfMemory,
}

impl From<AllocError> for Stopped {
    ghost from_gives = { λ _ e. e ≡ OutOfMemory };

    fn from(_: AllocError) -> Stopped {
        Stopped::OutOfMemory
    }
}

impl<T: Drop> From<AllocFailed<T>> for Stopped {
    ghost from_gives = { λ _ e. e ≡ OutOfMemory };

    fn from(_: AllocFailed<T>) -> Stopped {
        Stopped::OutOfMemory
    }
}

/// The fault, unless memory was refused.
pub fn told(fault: ConfFault) -> Result<ConfFault, Stopped> {
    match fault {
        ConfFault::OutOfMemory => Err(Stopped::OutOfMemory),
        fault => Ok(fault),
    }
}
