//! The gate: after it jobs run beside the caller.
ghost use Rattle.std.specs.Prelude.{◌≡◌, ℕ, List, Option, IfErr, is_ok};
ghost use Rattle.sv_out.specs.Faults.{HasCause};
ghost use Rattle.sv_outside.specs.Gates.{kept_more};

use crate::jobs::Job;

/// Starts jobs of one type: an enum of all jobs that its owner has. A gate that keeps a job calls its `work` once and
/// then drops the job; one in memory may hold it instead. A gate that can, tells the words of the jobs that it kept, in
/// order. What it needs to start any job is `ready`, which each start leaves as it was.
pub trait Gate<J: Job> {
    ghost use Rattle.sv_outside.specs.declared.jobs.JobWord.{JobWord};

    ghost ready: { Self → Type 0 };

    ghost kept: { Self → Option (List JobWord) };

    ghost faults: { Self → ℕ };

    /// Keeps the job, which then runs beside the caller. It comes back only where the count of faults rose in this
    /// call.
    fn start(&mut self, job: J) -> Result<(), J>
        requires { ready self.old }
        ensures ready { ready self.new }
        ensures kept { kept self.new ≡ kept_more (J.names job) (is_ok result) (kept self.old) }
        ensures back { IfErr result (λ same. same ≡ job) }
        ensures cause { HasCause (faults self.old) (faults self.new) result };
}
