//! Why a group is not added or removed.
ghost use Rattle.std.specs.Prelude.{◌≡◌, Some, None};
ghost use Rattle.sv_groups.specs.declared.fault.GroupFault.TheVariants.{OutOfMemory};
ghost use Rattle.sv_groups.specs.Changes.{fault_number};

use std::alloc::{AllocError, AllocFailed};
use sv_base::ids::ChildId;
use thiserror::Error;

/// Why a group wasn't added or removed.
#[derive(Clone, Copy, Debug, PartialEq, Eq, Error)]
pub enum GroupFault {
    /// No group of the roster has this name.
    #[error("no such group")]
    Unknown,
    /// This process of the group isn't at rest; it is the first such one in start order.
    #[error("a process of the group still runs")]
    StillRunning(ChildId),
    /// A group of the roster has this name already.
    #[error("the group is there already")]
    Already,
    /// Memory was refused.
    #[error("out of memory")]
    OutOfMemory,
}

impl GroupFault {
    /// The fault's number; running out of memory has none.
    pub fn number(&self) -> Option<u8>
        ensures { result ≡ fault_number self.now }
    {
        match self {
            GroupFault::Unknown => Some(1),
            GroupFault::StillRunning(_) => Some(2),
            GroupFault::Already => Some(3),
            GroupFault::OutOfMemory => None,
        }
    }
}

impl<T: Drop> From<AllocFailed<T>> for GroupFault {
    ghost from_gives = { λ _ e. e ≡ OutOfMemory };

    fn from(_e: AllocFailed<T>) -> GroupFault {
        GroupFault::OutOfMemory
    }
}

impl From<AllocError> for GroupFault {
    ghost from_gives = { λ _ e. e ≡ OutOfMemory };

    fn from(_e: AllocError) -> GroupFault {
        GroupFault::OutOfMemory
    }
}
