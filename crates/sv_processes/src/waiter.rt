//! What waits for the end of a program.
ghost use Rattle.std.specs.Prelude.{◌≡◌};

use crate::ends::how_of;
use crate::left::Left;
use crate::living::Living;
use crate::pipes::Pipe;
use std::process::{Child, ExitStatus, Processes};
use std::sync::{Arc, Wait};
use sv_base::How;
use sv_out::failed::Failed;
use sv_outside::Waiter;

/// How long an end is held back at most, until what the program wrote was read, in milliseconds.
const LAST_WORDS: u32 = 500;

/// The outputs of a program as far as they are pipes of their own.
pub(crate) struct Outputs {
    pub(crate) out: Arc<Pipe>,
    /// None where both are one.
    pub(crate) err: Option<Arc<Pipe>>,
}

impl Drop for Outputs {
    fn drop(self) {
        let Self { out: _, err: _ } = self;
    }
}

impl Outputs {
    /// The first output of which something may be unread.
    fn undrained(&self) -> Option<&Pipe> {
        if !self.out.is_drained() {
            return Some(&self.out);
        }
        match &self.err {
            Some(err) if !err.is_drained() => Some(err),
            _ => None,
        }
    }

    /// Waits until all that was written so far was read, for the time of last words at most.
    fn drain<R: Wait>(&self, rt: &R) {
        for _ in 0..LAST_WORDS {
            match self.undrained() {
                Some(pipe) => pipe.rest(rt),
                None => return,
            }
        }
    }
}

/// Waits for the end of a process, and then until what it wrote was read, half a second at most. It counts each error as a
/// fault, and tells nothing. Where it is dropped before, its child is left to be reaped.
pub struct OsWaiter<R: Processes + Wait + Drop> {
    rt: R,
    child: Child<R::Started>,
    waited: bool,
    outputs: Outputs,
    living: Living,
    left: Left<R::Started>,
    faults: u64,
}

impl<R: Processes + Wait + Drop> Drop for OsWaiter<R> {
    fn drop(self) {
        let Self {
            rt,
            child,
            waited,
            outputs: _,
            living,
            left,
            faults: _,
        } = self;
        if !waited {
            living.remove(&rt, child.id());
            left.add(&rt, child);
        }
    }
}

impl<R: Processes + Wait + Drop> OsWaiter<R> {
    /// One that waits for this child.
    pub(crate) fn new(
        rt: R,
        child: Child<R::Started>,
        outputs: Outputs,
        living: Living,
        left: Left<R::Started>,
    ) -> OsWaiter<R> {
        OsWaiter {
            rt,
            child,
            waited: false,
            outputs,
            living,
            left,
            faults: 0,
        }
    }

    /// Waits for the end: the status that the system tells.
    fn status(&mut self) -> Option<ExitStatus>
        ensures { self.new.faults ≡ self.old.faults }
    {
        let status = self.child.wait().ok();
        if !self.waited {
            self.waited = true;
            self.living.remove(&self.rt, self.child.id());
            self.outputs.drain(&self.rt);
        }
        status
    }
}

impl<R: Processes + Wait + Drop> Waiter for OsWaiter<R> {
    ghost answers = { λ _ _ _. Unit {0} };

    ghost faults = { λ w. w.faults };

    fn wait(&mut self) -> Result<How, Failed> {
        if let Some(status) = self.status() {
            if let Some(how) = how_of(status) {
                return Ok(how);
            }
        }
        self.faults = self.faults.saturating_add(1);
        Err(Failed)
    }
}
