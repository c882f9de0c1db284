//! Why the sizes aren't known.
use std::alloc::{AllocError, AllocFailed};
use sv_base::Text;
use thiserror::Error;

/// Why the sizes of log files aren't known.
#[derive(Debug, Drop, Error)]
pub enum SizesFault {
    /// The shelf failed at the file of this name, and its count of faults rose.
    #[error("cannot read {}", .0.as_str())]
    Failed(Text),
    #[error("out of memory")]
    OutOfMemory,
}

impl From<AllocError> for SizesFault {
    ghost use Rattle.std.specs.Prelude.{◌≡◌};
    ghost use Rattle.sv_load.specs.declared.sizes.fault.SizesFault.TheVariants.{OutOfMemory};

    ghost from_gives = { λ error fault. fault ≡ OutOfMemory };

    fn from(_: AllocError) -> SizesFault {
        SizesFault::OutOfMemory
    }
}

impl<T: Drop> From<AllocFailed<T>> for SizesFault {
    ghost use Rattle.std.specs.Prelude.{◌≡◌};
    ghost use Rattle.sv_load.specs.declared.sizes.fault.SizesFault.TheVariants.{OutOfMemory};

    ghost from_gives = { λ error fault. fault ≡ OutOfMemory };

    fn from(_: AllocFailed<T>) -> SizesFault {
        SizesFault::OutOfMemory
    }
}
