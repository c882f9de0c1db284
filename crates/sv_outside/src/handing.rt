//! How jobs are handed to a gate, and orders to those who carry them out.
ghost use Rattle.std.specs.Prelude.{◌≡◌, false};
ghost use Rattle.sv_out.specs.Faults.{RisesWhere};
ghost use Rattle.sv_outside.specs.Gates.{kept_more};

use crate::ready::Ready;
use crate::{Gate, Job};

/// What became of an order.
#[derive(Clone, Copy, PartialEq, Eq)]
pub enum Handed {
    /// It was handed on, or what it is about is over, or never was.
    Done,
    /// It couldn't be handed on.
    Failed,
}

/// Hands a job to the gate: whether it was kept. One that came back is dropped; the gate's count of faults rose then.
pub fn hand<J: Job, G: Gate<J> + Drop>(gate: &mut Ready<J, G>, job: J) -> bool
    ensures kept { gate.new.0 ≡ kept_more (J.names job) result gate.old.0 }
    ensures cause { RisesWhere gate.old.1 gate.new.1 (result ≡ false) }
{
    gate.start(job).is_ok()
}
