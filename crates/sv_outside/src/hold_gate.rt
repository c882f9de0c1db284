//! The gate in memory: it holds its jobs, and never runs them.
ghost use Rattle.std.specs.Prelude.{◌≡◌, ◌≤◌, [], IfOk, Some, length, map, vec_capacity};

use crate::calls::Calls;
use crate::gate::Gate;
use crate::jobs::Job;
use std::alloc::{AllocError, Global};

/// A gate in memory. It holds each job that it takes, so that the job's lanes stay open, and runs none. It fails at the
/// calls that it was made to fail at, the first call being 1, and where it has no room for a further job.
#[derive(Drop)]
pub struct HoldGate<J: Drop> {
    jobs: Vec<J>,
    room: usize,
    calls: Calls,
    ghost within: { length jobs.items ≤ room },
    ghost reserved: { room ≤ vec_capacity jobs },
}

impl<J: Drop> HoldGate<J> {
    ghost use Rattle.sv_out.specs.Plans.{none_made};
    ghost use Rattle.sv_outside.specs.HeldJobs.{gate_plan, gate_room, held_jobs};

    /// A gate with room for so many jobs.
    pub fn new(alloc: Global, room: usize, failing: Vec<u64>) -> Result<HoldGate<J>, AllocError>
        ensures plan { IfOk result (λ gate. gate_plan gate ≡ none_made failing.items) }
        ensures jobs { IfOk result (λ gate. held_jobs gate ≡ []) }
        ensures room { IfOk result (λ gate. gate_room gate ≡ room) }
    {
        Ok(HoldGate {
            jobs: Vec::with_capacity(alloc, room)?,
            room,
            calls: Calls::new(failing),
        })
    }

    /// The jobs that it holds, in the order in which they came.
    pub fn jobs(&self) -> &[J]
        ensures { result.now ≡ held_jobs self.now }
    {
        self.jobs.as_slice()
    }

    /// Gives the jobs up.
    pub fn into_jobs(self) -> Vec<J>
        ensures { result.items ≡ held_jobs self }
    {
        let HoldGate {
            jobs,
            room: _,
            calls: _,
        } = self;
        jobs
    }

    /// How many calls failed.
    pub fn faults(&self) -> u64
        ensures { result ≡ (gate_plan self.now).faults }
    {
        self.calls.faults()
    }
}

impl<J: Job> Gate<J> for HoldGate<J> {
    ghost use Rattle.std.specs.Prelude.{◌++◌, ◌∷◌, ◌<◌, IfErr, IsErr, IsTrue, OnErr, OnOk, false};
    ghost use Rattle.std.specs.Prelude.{is_ok};
    ghost use Rattle.sv_out.specs.Faults.{HasCause};
    ghost use Rattle.sv_out.specs.Plans.{is_to_fail};
    ghost use Rattle.sv_outside.specs.Gates.{kept_more};
    ghost use Rattle.sv_outside.specs.HeldJobs.{gate_faults, gate_plan, gate_room, held_jobs};

    ghost ready = { λ g. Unit {0} };

    ghost kept = { λ g. Some (map J.names g.jobs.items) };

    ghost faults = { λ g. g.calls.faults };

    fn start(&mut self, job: J) -> Result<(), J>
        requires { Unit {0} }
        ensures ready { Unit {0} }
        ensures kept { Some (map J.names (held_jobs self.new))
            ≡ kept_more (J.names job) (is_ok result) (Some (map J.names (held_jobs self.old))) }
        ensures back { IfErr result (λ same. same ≡ job) }
        ensures cause { HasCause (gate_faults self.old) (gate_faults self.new) result }

        // It fails at its calls, and where no room is left; else it holds the job.
        ensures fails { IsTrue (is_to_fail (gate_plan self.old)) → IsErr result }
        ensures only { IsErr result → is_to_fail (gate_plan self.old) ≡ false
            → gate_room self.old ≤ length (held_jobs self.old) }
        ensures holds { OnOk result (held_jobs self.new ≡ held_jobs self.old ++ job ∷ []) }
        ensures same { OnErr result (held_jobs self.new ≡ held_jobs self.old) }
        ensures room { gate_room self.new ≡ gate_room self.old }
    {
        if self.calls.next_fails() {
            return Err(job);
        }
        if self.jobs.len() < self.room {
            self.jobs.push_reserved(job);
            return Ok(());
        }
        self.calls.count_fault();
        Err(job)
    }
}
