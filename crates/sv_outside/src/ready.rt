//! A gate that is known to be ready.
ghost use Rattle.std.specs.Prelude.{◌≡◌, IfErr, is_ok};
ghost use Rattle.sv_out.specs.Faults.{HasCause};
ghost use Rattle.sv_outside.specs.Gates.{kept_more};

use crate::{Gate, Job};
use std::marker::{Model, PhantomData};

/// A gate that is ready to start jobs, and stays so. Contracts see it as the words of the jobs that it kept, where it
/// tells them, and its count of faults.
#[derive(Drop)]
pub struct Ready<J: Job, G: Gate<J> + Drop> {
    gate: G,
    of: PhantomData<J>,
}

impl<J: Job, G: Gate<J> + Drop> Model for Ready<J, G> {
    ghost use Rattle.std.specs.Prelude.{ℕ, List, Option};
    ghost use Rattle.sv_outside.specs.declared.jobs.JobWord.{JobWord};

    ghost Value = { Option (List JobWord) × ℕ };

    ghost view = { λ r. (G.kept r.gate, G.faults r.gate) };

    ghost invariant = { λ r. G.ready r.gate };
}

impl<J: Job, G: Gate<J> + Drop> Ready<J, G> {
    /// This gate.
    pub fn new(gate: G) -> Ready<J, G>
        requires { G.ready gate }
        ensures { result ≡ (G.kept gate, G.faults gate) }
    {
        Ready {
            gate,
            of: PhantomData,
        }
    }

    /// Keeps the job, which then runs beside the caller. It comes back only where the count of faults rose in this
    /// call.
    pub fn start(&mut self, job: J) -> Result<(), J>
        ensures kept { self.new.0 ≡ kept_more (J.names job) (is_ok result) self.old.0 }
        ensures back { IfErr result (λ same. same ≡ job) }
        ensures cause { HasCause self.old.1 self.new.1 result }
    {
        self.gate.start(job)
    }

    /// Gives the gate back.
    pub fn into_gate(self) -> G
        ensures value { (G.kept result, G.faults result) ≡ self }
        ensures ready { G.ready result }
    {
        let Ready { gate, of: _ } = self;
        gate
    }
}
