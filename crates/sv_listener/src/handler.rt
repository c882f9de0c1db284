//! Handlers: what a listener program makes of an event.

ghost use Rattle.std.specs.Prelude.{◌≡◌, ℕ, List, [], ◌∷◌, ◌++◌, length};
ghost use Rattle.sv_out.specs.Faults.{RisesWhere};

use crate::events::Heard;
use std::alloc::AllocError;

/// What a handler makes of an event.
#[derive(Clone, Copy, PartialEq, Eq)]
pub enum Verdict {
    /// The event is done with.
    Ok,
    /// It is to be handed out again.
    Fail,
}

impl Verdict {
    ghost use Rattle.sv_listener.specs.Answers.{answer_of};

    /// What the listener says after an event: the result, and that it is ready for the next one.
    pub(crate) fn answer(self) -> &'static [u8]
        ensures { result.now ≡ answer_of self }
    {
        match self {
            Verdict::Ok => b"RESULT 2\nOKREADY\n",
            Verdict::Fail => b"RESULT 4\nFAILREADY\n",
        }
    }
}

/// Why there is no verdict on an event.
#[derive(Clone, Copy, PartialEq, Eq)]
pub enum HandleFault {
    /// The handler failed; its count of faults rose in this call.
    Failed,
    OutOfMemory,
}

impl From<AllocError> for HandleFault {
    ghost use Rattle.sv_listener.specs.declared.handler.HandleFault.TheVariants.{OutOfMemory};

    ghost from_gives = { λ error fault. fault ≡ OutOfMemory };

    fn from(_: AllocError) -> HandleFault {
        HandleFault::OutOfMemory
    }
}

/// What handles the events of a listener. It tells in its own way what came of the events that it was given and of the
/// verdicts that it gave, between two of its states: lists that it keeps, texts that it writes, or nothing at all.
pub trait Handler {
    ghost use Rattle.sv_listener.specs.Verdicts.{IsFailed, verdicts_in};
    ghost use Rattle.sv_listener.specs.declared.events.Heard.{Heard};
    ghost use Rattle.sv_listener.specs.declared.handler.Verdict.{Verdict};

    ghost told: { Self → Self → List Heard → List Verdict → Type 0 };

    ghost faults: { Self → ℕ };

    /// Handles an event. There is one verdict, and none after an error. Fails only where the count of faults rose in this
    /// call; out of memory needs no such cause.
    fn handle(&mut self, event: &Heard) -> Result<Verdict, HandleFault>
        ensures tells { told self.old self.new (event.now ∷ []) (verdicts_in result) }
        ensures cause { RisesWhere (faults self.old) (faults self.new) (IsFailed result) };

    /// Where no event was given, nothing came of it.
    ghost nothing: { (handler : Self) → told handler handler [] [] };

    /// Further events come after those that have their verdicts.
    ghost further: { (first middle last : Self) (events more : List Heard)
        (verdicts others : List Verdict) → length verdicts ≡ length events
        → told first middle events verdicts → told middle last more others
        → told first last (events ++ more) (verdicts ++ others) };
}
