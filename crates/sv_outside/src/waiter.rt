//! The waiter: how a process ended.
ghost use Rattle.std.specs.Prelude.{◌≡◌, ℕ, Result};
ghost use Rattle.sv_out.specs.Faults.{HasCause};

use crate::calls::Calls;
use sv_base::How;
use sv_out::failed::Failed;

/// What waits for the end of one process.
pub trait Waiter {
    ghost use Rattle.sv_base.specs.declared.state.How.{How};
    ghost use Rattle.sv_out.specs.declared.failed.Failed.{Failed};

    ghost answers: { Self → Result How Failed → Self → Type 0 };

    ghost faults: { Self → ℕ };

    /// Waits for the end, and answers how it came. Fails only where the count of faults rose in this call.
    fn wait(&mut self) -> Result<How, Failed>
        ensures answers { answers self.old result self.new }
        ensures cause { HasCause (faults self.old) (faults self.new) result };
}

/// A waiter in memory: it answers the same end in each call, and fails at the calls that it was made to fail at, the
/// first call being 1.
#[derive(Drop)]
pub struct ScriptWaiter {
    how: How,
    calls: Calls,
}

impl ScriptWaiter {
    ghost use Rattle.sv_out.specs.Plans.{none_made};
    ghost use Rattle.sv_outside.specs.Plans.{waiter_plan};
    ghost use Rattle.sv_outside.specs.Waiting.{how_ended};

    /// A waiter of a process that ended in this way.
    pub fn new(how: How, failing: Vec<u64>) -> ScriptWaiter
        ensures plan { waiter_plan result ≡ none_made failing.items }
        ensures how { how_ended result ≡ how }
        ensures faults { ⟦<ScriptWaiter as Waiter>⟧.faults result ≡ 0 }
    {
        ScriptWaiter {
            how,
            calls: Calls::new(failing),
        }
    }

    /// How many calls failed.
    pub fn faults(&self) -> u64
        ensures { result ≡ ⟦<ScriptWaiter as Waiter>⟧.faults self.now }
    {
        self.calls.faults()
    }
}

impl Waiter for ScriptWaiter {
    ghost use Rattle.sv_outside.specs.Plans.{waiter_plan};
    ghost use Rattle.sv_outside.specs.Waiting.{Waits, how_ended, waiter_faults};

    ghost answers = { Waits };

    ghost faults = { λ w. w.calls.faults };

    fn wait(&mut self) -> Result<How, Failed>
        ensures answers { Waits self.old result self.new }
        ensures cause { HasCause (waiter_faults self.old) (waiter_faults self.new) result }
    {
        if self.calls.next_fails() {
            return Err(Failed);
        }
        Ok(self.how)
    }
}
