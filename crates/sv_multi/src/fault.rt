//! Why a value doesn't ask for several calls.
ghost use Rattle.std.specs.Prelude.{◌≡◌};
ghost use Rattle.sv_multi.specs.declared.fault.MultiFault.{MultiFault};

use std::alloc::{AllocError, AllocFailed};
use thiserror::Error;

/// Why a value has no parts.
#[derive(Clone, Copy, Debug, PartialEq, Eq, Error)]
pub enum MultiFault {
    /// The value isn't an array of structs.
    #[error("1 NotParts")]
    NotParts,
    /// There was no memory left for the answer.
    #[error("out of memory")]
    OutOfMemory,
}

impl From<AllocError> for MultiFault {
    ghost from_gives = { λ error fault. fault ≡ MultiFault.OutOfMemory };

    fn from(_error: AllocError) -> MultiFault {
        MultiFault::OutOfMemory
    }
}

impl<T: Drop> From<AllocFailed<T>> for MultiFault {
    ghost from_gives = { λ error fault. fault ≡ MultiFault.OutOfMemory };

    fn from(_error: AllocFailed<T>) -> MultiFault {
        MultiFault::OutOfMemory
    }
}
