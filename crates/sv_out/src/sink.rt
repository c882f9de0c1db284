//! Where bytes go.

ghost use Rattle.std.specs.Prelude.{◌≡◌, ◌≤◌, ◌<◌, List, [], ℕ, Option, Some, IfOk, IsErr, IsTrue};
ghost use Rattle.std.specs.Prelude.{OnOk, OnErr, false, is_err, length, min};
ghost use Rattle.std.specs.Io.{WritesAtMost};
ghost use Rattle.std.specs.Io.KnownBytes.{WriteAppends, Appends};
ghost use Rattle.sv_out.specs.Faults.{HasCause};
ghost use Rattle.sv_out.specs.Written.{AppendsFront};

use crate::failed::Failed;
use std::alloc::Global;

/// Where bytes go: a pipe, a socket, a file, a list in memory.
pub trait Sink {
    ghost written: { Self → Option (List ℕ) };

    ghost faults: { Self → ℕ };

    /// Takes bytes from the front of `piece` and answers how many; some of each piece that has any. Fails only where the
    /// count of faults rose in this call, and has then taken nothing.
    fn write(&mut self, piece: &[u8]) -> Result<usize, Failed>
        ensures bound { WritesAtMost result piece.now }
        ensures progress { IfOk result (λ n. 0 < length piece.now → 0 < n) }
        ensures bytes { WriteAppends (written self.old) (written self.new) result piece.now }
        ensures cause { HasCause (faults self.old) (faults self.new) result };
}

/// Writes the whole text. After a failure a prefix of it was written.
pub fn write_all<K: Sink>(sink: &mut K, text: &[u8]) -> Result<(), Failed>
    ensures ok { OnOk result (Appends (K.written sink.old) (K.written sink.new) text.now) }
    ensures err { OnErr result (AppendsFront (K.written sink.old) (K.written sink.new) text.now) }
    ensures cause { HasCause (K.faults sink.old) (K.faults sink.new) result }
{
    let mut rest = text;
    while !rest.is_empty() {
        let count = sink.write(rest)?;
        let (_, after) = rest.split_at(count);
        rest = after;
    }
    Ok(())
}

/// A sink in memory: it keeps what was written, takes so many bytes at a time at most, and fails at the calls that it
/// was told to fail at, the first call being 1, and where no memory is left.
pub struct ListSink {
    written: Vec<u8>,
    most: usize,
    failing: Vec<u64>,
    calls: u64,
    faults: u64,
    ghost some: { 1 ≤ most },
}

impl Drop for ListSink {
    fn drop(self) {
        let Self {
            written: _,
            most: _,
            failing: _,
            calls: _,
            faults: _,
        } = self;
    }
}

impl ListSink {
    ghost use Rattle.sv_out.specs.Plans.{sink_plan};

    /// An empty sink that takes at most `most` bytes in each call.
    pub fn new(alloc: Global, most: usize, failing: Vec<u64>) -> ListSink
        requires { 1 ≤ most }
        ensures plan { sink_plan result
            ≡ record { failing = failing.items; most = most; calls = 0; faults = 0 } }
        ensures written { ⟦<ListSink as Sink>⟧.written result ≡ Some [] }
        ensures faults { ⟦<ListSink as Sink>⟧.faults result ≡ 0 }
    {
        ListSink {
            written: Vec::new(alloc),
            most,
            failing,
            calls: 0,
            faults: 0,
        }
    }

    /// What was written so far.
    pub fn written(&self) -> &[u8]
        ensures { ⟦<ListSink as Sink>⟧.written self.now ≡ Some result.now }
    {
        self.written.as_slice()
    }

    /// How many calls failed.
    pub fn faults(&self) -> u64
        ensures count { result ≡ (sink_plan self.now).faults }
        ensures faults { result ≡ ⟦<ListSink as Sink>⟧.faults self.now }
    {
        self.faults
    }
}

impl Sink for ListSink {
    ghost use Rattle.sv_out.specs.Plans.{sink_plan, sink_faults, after_call, fails_next};
    ghost use Rattle.sv_out.specs.Plans.{known_written, spare_room};

    ghost written = { λ s. Some s.written.items };

    ghost faults = { λ s. s.faults };

    fn write(&mut self, piece: &[u8]) -> Result<usize, Failed>
        ensures bound { WritesAtMost result piece.now }
        ensures progress { IfOk result (λ n. 0 < length piece.now → 0 < n) }
        ensures bytes { WriteAppends (known_written self.old) (known_written self.new)
            result piece.now }
        ensures cause { HasCause (sink_faults self.old) (sink_faults self.new) result }

        // It fails at its calls, and else only where it needs memory; each call is counted.
        ensures fails { IsTrue (fails_next (sink_plan self.old)) → IsErr result }
        ensures only { IsErr result → fails_next (sink_plan self.old) ≡ false
            → spare_room self.old < min (length piece.now) (sink_plan self.old).most }
        ensures plan { sink_plan self.new ≡ after_call (sink_plan self.old) (is_err result) }
        ensures count { IfOk result (λ n. n ≡ min (length piece.now) (sink_plan self.old).most) }
    {
        self.calls = self.calls.saturating_add(1);
        let count = piece.len().min(self.most);
        if self.failing.as_slice().contains(&self.calls) {
            return Err(Failed::counted(&mut self.faults));
        }
        match self.written.extend_from_slice(&piece[..count]) {
            Ok(()) => Ok(count),
            Err(_) => Err(Failed::counted(&mut self.faults)),
        }
    }
}
