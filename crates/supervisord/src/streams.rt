//! The daemon's own streams, behind their buffers.

use std::alloc::{AllocError, Global};
use std::io;
use std::rt::Clock;
use std::sync::Wait;
use sv_standard::{AfterFailure, JournalSink, Outlet, OutletEnd, Teller};

/// How much of the journal is held, in bytes.
const MOST_OF_JOURNAL: u64 = 16_777_216;

/// How much of standard output or standard error is held else, in bytes.
const MOST_OF_LOGS: u64 = 1_048_576;

/// How long the last bytes may take, in milliseconds.
const LAST_BYTES: u32 = 2_000;

/// The giving sides of standard output and standard error, and what tells by standard error.
pub struct Streams<R> {
    pub out: Outlet<R>,
    pub err: Outlet<R>,
    pub teller: Teller<R>,
}

impl<R: Drop> Drop for Streams<R> {
    fn drop(self) {
        let Self {
            out: _,
            err: _,
            teller: _,
        } = self;
    }
}

/// The writing sides of standard output and of standard error.
pub struct StreamEnds<R> {
    pub out: OutletEnd,
    pub err: OutletEnd,
    /// Tells of what standard output lost.
    pub teller: Teller<R>,
    /// Whether standard output holds the journal.
    pub journal: bool,
}

impl<R: Drop> Drop for StreamEnds<R> {
    fn drop(self) {
        let Self {
            out: _,
            err: _,
            teller: _,
            journal: _,
        } = self;
    }
}

impl<R: Drop> StreamEnds<R> {
    /// Each of its parts.
    pub fn into_parts(self) -> (OutletEnd, OutletEnd, Teller<R>, bool) {
        let Self {
            out,
            err,
            teller,
            journal,
        } = self;
        (out, err, teller, journal)
    }
}

impl<R: Wait + Copy + Drop> Streams<R> {
    /// Both streams; standard output ends at its first gap where it holds the journal.
    pub fn new(
        rt: R,
        alloc: Global,
        journal: bool,
    ) -> Result<(Streams<R>, StreamEnds<R>), AllocError> {
        let (most, after) = if journal {
            (MOST_OF_JOURNAL, AfterFailure::Ends)
        } else {
            (MOST_OF_LOGS, AfterFailure::GoesOn)
        };
        let (out, out_end) = Outlet::new(rt, alloc, most, after)?;
        let (err, err_end) = Outlet::new(rt, alloc, MOST_OF_LOGS, AfterFailure::GoesOn)?;
        let teller = Teller::new(err.another()?);
        let ends = StreamEnds {
            out: out_end,
            err: err_end,
            teller: teller.another()?,
            journal,
        };
        Ok((Streams { out, err, teller }, ends))
    }

    /// The journal, over standard output.
    pub fn journal(&self, alloc: Global) -> Result<JournalSink<R>, AllocError> {
        Ok(JournalSink::new(alloc, self.out.another()?, self.teller.another()?))
    }

    /// Waits a limited time until all that was given is written.
    pub fn finish<C: Clock>(&self, clock: &C) {
        let _ = self.out.wait_for_all(clock, LAST_BYTES);
        let _ = self.err.wait_for_all(clock, LAST_BYTES);
    }
}

/// What is told where a write to standard output failed.
pub fn loss_line(alloc: Global, journal: bool, error: &io::Error) -> Result<String, AllocError> {
    if journal {
        format!(in alloc; "journal: {error}; it ends here, and the daemon goes on")
    } else {
        format!(in alloc; "standard output: {error}; what is written there is lost until it can be")
    }
}
