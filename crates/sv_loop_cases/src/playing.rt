//! The replay of a journal: in pieces of several sizes, and with reads and writes that fail.

use std::alloc::{AllocError, Global};
use sv_base::text::Text;
use sv_loop::replay;
use sv_out::sink::ListSink;
use sv_out::source::ListSource;

/// What came of a replay.
#[derive(Drop)]
pub(crate) struct Played {
    pub(crate) status: u8,
    pub(crate) written: Vec<u8>,
    /// How many calls of the source and the sink failed.
    faults: u64,
}

/// The most bytes of a piece: single bytes; 7; 16, so that the title lies over two pieces and a program's line over three; all of a
/// title but its line feed; a whole title; and the whole journal.
static PIECES: [usize; 6] = [1, 7, 16, 20, 21, 1_000_000];

/// A list of this one call.
fn only(alloc: Global, call: u64) -> Result<Vec<u64>, AllocError> {
    let mut calls = Vec::new(alloc);
    calls.push(call)?;
    Ok(calls)
}

/// The words of a replay.
fn words(alloc: Global) -> Result<Vec<Text>, AllocError> {
    let mut words = Vec::new(alloc);
    words.push(Text::fixed("run"))?;
    Ok(words)
}

/// A journal that is read in pieces of at most so many bytes, of which this read fails; the first is 1.
fn source(alloc: Global, journal: &str, most: usize, read: u64) -> Result<ListSource, AllocError> {
    let failing = only(alloc, read)?;
    let bytes = Vec::from_slice(alloc, journal.as_bytes())?;
    Ok(ListSource::new(bytes, most.max(1), failing))
}

/// What is written, of which this write fails.
fn sink(alloc: Global, write: u64) -> Result<ListSink, AllocError> {
    Ok(ListSink::new(alloc, 1_000_000, only(alloc, write)?))
}

/// The status of a replay.
fn status_of(
    alloc: Global,
    source: &mut ListSource,
    sink: &mut ListSink,
) -> Result<u8, AllocError> {
    let words = words(alloc)?;
    Ok(replay(alloc, words.as_slice(), source, sink))
}

/// What a replay came to, with a copy of what it wrote.
fn replayed(
    alloc: Global,
    source: &mut ListSource,
    sink: &mut ListSink,
) -> Result<Played, AllocError> {
    let status = status_of(alloc, source, sink)?;
    Ok(Played {
        status,
        written: Vec::from_slice(alloc, sink.written())?,
        faults: source.faults().saturating_add(sink.faults()),
    })
}

/// Replays a journal, read in pieces of at most so many bytes, where this read and this write fail; the first is 1.
pub(crate) fn play(
    alloc: Global,
    journal: &str,
    most: usize,
    read: u64,
    write: u64,
) -> Result<Played, AllocError> {
    let mut source = source(alloc, journal, most, read)?;
    let mut sink = sink(alloc, write)?;
    replayed(alloc, &mut source, &mut sink)
}

impl Played {
    /// Whether it came to this.
    pub(crate) fn is(&self, status: u8, written: &str) -> bool {
        self.status == status && self.written.as_slice() == written.as_bytes()
    }

    /// Whether it broke off where a read failed: with status 1, after a prefix and `fault 1`.
    fn is_broken_at_read(&self, status: u8) -> bool {
        if self.faults == 0 {
            self.status == status
        } else {
            self.status == 1 && self.written.as_slice().ends_with(b"fault 1\n")
        }
    }

    /// Whether it broke off where a write failed: with status 4, after a prefix of what is wanted.
    fn is_broken_at_write(&self, status: u8, wanted: &str) -> bool {
        if self.faults == 0 {
            self.status == status
        } else {
            self.status == 4 && wanted.as_bytes().starts_with(self.written.as_slice())
        }
    }
}

/// Whether the replay of a journal ends with this status and writes this, whatever the pieces.
pub(crate) fn gives(
    alloc: Global,
    journal: &str,
    status: u8,
    wanted: &str,
) -> Result<bool, AllocError> {
    for &most in &PIECES {
        if !play(alloc, journal, most, 0, 0)?.is(status, wanted) {
            return Ok(false);
        }
    }
    Ok(true)
}

fn breaks_at_read(alloc: Global, journal: &str, status: u8, read: u64) -> Result<bool, AllocError> {
    let played = play(alloc, journal, 16, read, 0)?;
    Ok(played.is_broken_at_read(status))
}

fn breaks_at_write(
    alloc: Global,
    journal: &str,
    status: u8,
    wanted: &str,
    write: u64,
) -> Result<bool, AllocError> {
    let played = play(alloc, journal, 4_096, 0, write)?;
    Ok(played.is_broken_at_write(status, wanted))
}

/// Whether it ends as it should where one of its first reads or writes fails.
pub(crate) fn breaks(
    alloc: Global,
    journal: &str,
    status: u8,
    wanted: &str,
) -> Result<bool, AllocError> {
    for call in 1..20 {
        if !breaks_at_read(alloc, journal, status, call)? {
            return Ok(false);
        }
        if !breaks_at_write(alloc, journal, status, wanted, call)? {
            return Ok(false);
        }
    }
    Ok(true)
}
