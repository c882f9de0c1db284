//! Why a configuration text is refused.

ghost use Rattle.std.specs.Prelude.{◌≡◌};
ghost use Rattle.sv_ini.specs.declared.fault.IniFault.TheVariants.{OutOfMemory};

use std::alloc::{AllocError, AllocFailed};
use thiserror::Error;

/// Why a configuration text is refused. Lines count from 1, places from 0.
#[derive(Debug, Drop, Error)]
pub enum IniFault {
    /// The text has more than 1,048,576 bytes.
    #[error("4 TooLong")]
    TooLong,
    /// The place of the first byte at which no character begins.
    #[error("1 NotUtf8 {0}")]
    NotUtf8(usize),
    /// The first line that is none of the lines of a configuration text.
    #[error("2 BadLine {0}")]
    BadLine(usize),
    /// The first line that gives a key before any section.
    #[error("3 OutsideSection {0}")]
    OutsideSection(usize),
    /// There was no memory left for the answer.
    #[error("out of memory")]
    OutOfMemory,
}

impl IniFault {
    ghost use Rattle.sv_ini.specs.Sections.{fault_number};

    /// The number by which the fault is printed; out of memory has none.
    pub fn number(&self) -> Option<u32>
        ensures { result ≡ fault_number self.now }
    {
        match self {
            IniFault::NotUtf8(_) => Some(1),
            IniFault::BadLine(_) => Some(2),
            IniFault::OutsideSection(_) => Some(3),
            IniFault::TooLong => Some(4),
            IniFault::OutOfMemory => None,
        }
    }
}

impl From<AllocError> for IniFault {
    ghost from_gives = { λ _ e. e ≡ OutOfMemory };

    fn from(_: AllocError) -> IniFault {
        IniFault::OutOfMemory
    }
}

impl<T: Drop> From<AllocFailed<T>> for IniFault {
    ghost from_gives = { λ _ e. e ≡ OutOfMemory };

    fn from(_: AllocFailed<T>) -> IniFault {
        IniFault::OutOfMemory
    }
}
