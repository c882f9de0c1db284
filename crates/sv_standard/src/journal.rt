//! Where the journal goes.
ghost use Rattle.std.specs.Prelude.{None};

use crate::outlet::Outlet;
use crate::teller::Teller;
use std::alloc::Global;
use std::sync::Wait;
use sv_out::failed::Failed;
use sv_out::sink::Sink;

/// What is told where the journal has no room left.
const NO_ROOM: &str = "journal: its reader takes too little; it ends here, and the daemon goes on";

/// A sink that never fails and never waits, over the buffered side of a stream. Where a piece isn't taken the journal is
/// over: that is told once, and what comes later is passed over. It tells nothing of what was written.
pub struct JournalSink<R> {
    alloc: Global,
    outlet: Option<Outlet<R>>,
    teller: Teller<R>,
    faults: u64,
}

impl<R: Drop> Drop for JournalSink<R> {
    fn drop(self) {
        let Self {
            alloc: _,
            outlet: _,
            teller: _,
            faults: _,
        } = self;
    }
}

impl<R: Wait + Copy> JournalSink<R> {
    /// A journal through this side of a stream; its end is told by `teller`.
    pub fn new(alloc: Global, outlet: Outlet<R>, teller: Teller<R>) -> JournalSink<R> {
        JournalSink {
            alloc,
            outlet: Some(outlet),
            teller,
            faults: 0,
        }
    }
}

impl<R: Wait + Copy> Sink for JournalSink<R> {
    ghost written = { λ _. None };

    ghost faults = { λ s. s.faults };

    fn write(&mut self, piece: &[u8]) -> Result<usize, Failed> {
        let taken = match &self.outlet {
            Some(outlet) => outlet.give(self.alloc, piece),
            None => true,
        };
        if !taken {
            if let Some(outlet) = self.outlet.take() {
                if !outlet.has_failed() {
                    self.teller.tell(self.alloc, NO_ROOM);
                }
            }
        }
        Ok(piece.len())
    }
}
