//! The dial: it makes connections and takes them back.
ghost use Rattle.std.specs.Prelude.{◌≡◌, List, ℕ, Option, IfOk, OnOk, OnErr};
ghost use Rattle.sv_out.specs.Exchanges.{IsFresh, Keeps, IsRefused};
ghost use Rattle.sv_out.specs.Rises.{RisesWith};
ghost use Rattle.sv_out.specs.Faults.{RisesWhere};

use crate::connection::Link;
use std::alloc::{AllocError, Global};
use sv_base::Place;
use thiserror::Error;

/// Why there is no connection.
#[derive(Clone, Copy, Debug, Error)]
pub enum DialFault {
    /// The call failed; the dial's count of faults rose in it.
    #[error("the call failed")]
    Failed,
    #[error("out of memory")]
    OutOfMemory,
}

impl From<AllocError> for DialFault {
    ghost use Rattle.sv_out.specs.declared.dialing.DialFault.TheVariants.{OutOfMemory};

    ghost from_gives = { λ error fault. fault ≡ OutOfMemory };

    fn from(_: AllocError) -> DialFault {
        DialFault::OutOfMemory
    }
}

/// What connects: to a network, to a script in memory. A dial that can, tells the exchanges of the links that it took
/// back, in that order.
pub trait Dial {
    ghost use Rattle.sv_out.specs.declared.connection.Exchange.{Exchange};

    type Link: Link + Drop;

    ghost told: { Self → Option (List Exchange) };

    ghost faults: { Self → ℕ };

    /// A connection to this place. Nothing was read from it or written to it, and it has no faults. Fails only where
    /// the dial's count of faults rose in this call.
    fn connect(&mut self, alloc: Global, place: &Place) -> Result<Self::Link, DialFault>
        ensures fresh { IfOk result (λ link.
            IsFresh place.now (told self.old) (Self.Link.told link)) }
        ensures unharmed { IfOk result (λ link. Self.Link.faults link ≡ 0) }
        ensures kept { told self.new ≡ told self.old }
        ensures cause { RisesWhere (faults self.old) (faults self.new) (IsRefused result) }
        ensures same { IfOk result (λ link. faults self.new ≡ faults self.old) };

    /// Takes a connection back: its exchange is then the last that the dial tells, and where that finds no memory,
    /// what the dial tells stays. The dial's count of faults rises exactly where the link's count isn't 0.
    fn close(&mut self, alloc: Global, link: Self::Link) -> Result<(), AllocError>
        ensures kept { OnOk result (Keeps (told self.old) (told self.new) (Self.Link.told link)) }
        ensures lost { OnErr result (told self.new ≡ told self.old) }
        ensures count { RisesWith (faults self.old) (faults self.new) (Self.Link.faults link) };
}
