//! Links that say nothing, and the gate of a world that has them.
ghost use Rattle.std.specs.Prelude.{None};

use sv_jobs::{AnyJob, NoBoard};
use sv_out::Link;
use sv_out::failed::Failed;
use sv_out::sink::ListSink;
use sv_out::source::ListSource;
use sv_outside::{FixedClock, HoldGate, Listen, Ready, ScriptWaiter};

/// A link that brings nothing and takes what is sent.
#[derive(Drop)]
pub(crate) struct QuietLink {}

impl Link for QuietLink {
    ghost told = { λ l. None };

    ghost faults = { λ l. 0 };

    fn read(&mut self, _into: &mut [u8]) -> Result<usize, Failed> {
        Ok(0)
    }

    fn write(&mut self, piece: &[u8]) -> Result<usize, Failed> {
        Ok(piece.len())
    }
}

/// Accepts such links.
#[derive(Drop)]
pub(crate) struct QuietListen {}

impl Listen for QuietListen {
    type Link = QuietLink;

    ghost told = { λ l. None };

    ghost faults = { λ l. 0 };

    fn accept(&mut self) -> Result<QuietLink, Failed> {
        Ok(QuietLink {})
    }
}

/// A job of a world with such links.
pub(crate) type TestJob = AnyJob<
    ListSink,
    ListSource,
    ListSource,
    ScriptWaiter,
    QuietListen,
    ListSource,
    FixedClock,
    NoBoard,
>;

/// Its gate, which is held in memory.
pub(crate) type TestGate = Ready<TestJob, HoldGate<TestJob>>;
