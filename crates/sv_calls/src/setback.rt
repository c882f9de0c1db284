//! What can go wrong with a request.
ghost use Rattle.std.specs.Prelude.{◌≡◌};
ghost use Rattle.std.specs.List.{slice_get};
ghost use Rattle.sv_calls.specs.CallBook.{fault_by, rows_faulted};

use sv_methods::Asked;

/// What went wrong with a request of a method that acts.
#[derive(Clone, Copy, PartialEq, Eq)]
pub enum Setback {
    /// There is no such program: fault 20.
    NoFile,
    /// The program can't be executed: fault 21.
    NotExecutable,
    /// The process wasn't started: fault 50.
    NotStarted,
    /// A log couldn't be cleared: fault 30.
    NotCleared,
    /// There was no log to be cleared: fault 20 of the main log, and none of a process.
    NoLog,
}

impl Setback {
    /// The fault that a row then has.
    fn fault(self, asked: Asked) -> Option<u32>
        ensures { result ≡ fault_by self asked }
    {
        match self {
            Setback::NoFile => Some(20),
            Setback::NotExecutable => Some(21),
            Setback::NotStarted => Some(50),
            Setback::NotCleared => Some(30),
            Setback::NoLog => match asked.child {
                None => Some(20),
                Some(_) => asked.fault,
            },
        }
    }

    /// The row in this place gets the fault, where there is one.
    pub(crate) fn mark(self, rows: &mut [Asked], place: usize)
        ensures { rows.new ≡ rows_faulted self place rows.old }
    {
        match rows.get(place).copied() {
            None => {}
            Some(asked) => {
                let fault = self.fault(asked);
                rows[place] = Asked { fault, ..asked };
            }
        }
    }
}
