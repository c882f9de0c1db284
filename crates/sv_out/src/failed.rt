//! The one error of a call on the outside.

ghost use Rattle.std.specs.Prelude.{◌≡◌, ◌≤◌};
ghost use Rattle.sv_out.specs.Faults.{counted};

use thiserror::Error;

/// A call on the outside failed; the object's count of faults rose in it.
#[derive(Clone, Copy, Debug, Error)]
#[error("the call failed")]
pub struct Failed;

impl Failed {
    /// Counts a call that failed. A count at the end of its range stays there.
    pub fn counted(faults: &mut u64) -> Failed
        ensures count { faults.new ≡ counted faults.old }
        ensures later { faults.old ≤ faults.new }
    {
        *faults = faults.saturating_add(1);
        Failed
    }
}
