//! Why no configuration is given.
ghost use Rattle.std.specs.Prelude.{◌≡◌};

use std::alloc::AllocError;
use sv_base::Text;
use sv_sections::ConfFault;
use thiserror::Error;

/// Why a configuration isn't given.
#[derive(Debug, Drop, Error)]
pub enum LoadFault {
    /// The shelf has no such main file.
    #[error("no such file")]
    Missing,
    /// The configuration is refused, for another cause than memory.
    #[error("the configuration is refused")]
    Refused(ConfFault),
    /// A call on the shelf failed, which counted it. It was given this name of a file, or this pattern.
    #[error("cannot read {}", .0.as_str())]
    Failed(Text),
    #[error("out of memory")]
    OutOfMemory,
}

impl From<AllocError> for LoadFault {
    ghost use Rattle.sv_load.specs.declared.fault.LoadFault.TheVariants.{OutOfMemory};

    ghost from_gives = { λ error fault. fault ≡ OutOfMemory };

    fn from(_: AllocError) -> LoadFault {
        LoadFault::OutOfMemory
    }
}

impl From<ConfFault> for LoadFault {
    ghost use Rattle.sv_load.specs.Loading.{refused};

    ghost from_gives = { λ fault given. given ≡ refused fault };

    fn from(fault: ConfFault) -> LoadFault {
        match fault {
            ConfFault::OutOfMemory => LoadFault::OutOfMemory,
            fault => LoadFault::Refused(fault),
        }
    }
}
