//! Jobs: what runs beside the loop, each in a thread of its own or in none.
ghost use Rattle.std.specs.Prelude.{◌≡◌};

use std::sync::Wait;
use sv_base::{LinkId, Run, Side, Stream};

/// What a job is about.
#[derive(Clone, Copy, PartialEq, Eq)]
pub enum JobWord {
    /// Reads one of the output streams of a run.
    Pump(Run, Stream),
    /// Writes the standard input of a run.
    Stdin(Run),
    /// Waits for the end of a run's process.
    Watch(Run),
    /// Accepts the links of one side.
    Links(Side),
    /// Reads and writes one link.
    Link(LinkId),
    /// Reads the daemon's own standard input.
    Console,
    /// Brings the ticks of the clock.
    Ticker,
    /// Serves the board of states.
    Board,
}

/// How a job's work came to its end.
#[derive(Clone, Copy, PartialEq, Eq)]
pub enum PumpEnd {
    /// All was done: the input is at its end, a Close was taken, or the turns are used up.
    Ended,
    /// A call on the outside failed; the count of faults of its object rose.
    Failed,
    OutOfMemory,
}

/// A job: a value that owns all that it works on. It may be moved to another thread before it works.
pub trait Job: Drop {
    ghost use Rattle.sv_outside.specs.declared.jobs.JobWord.{JobWord};
    ghost use Rattle.sv_outside.specs.declared.jobs.PumpEnd.{PumpEnd};

    ghost names: { Self → JobWord };

    ghost does: { Self → PumpEnd → Self → Type 0 };

    /// What it is about.
    fn word(&self) -> JobWord
        ensures { result ≡ names self.now };

    /// Does the whole work. It may wait for others, and then it may never end.
    fn work<R: Wait>(&mut self, rt: &R) -> PumpEnd
        ensures { does self.old result self.new };
}
