//! Where bytes come from.

ghost use Rattle.std.specs.Prelude.{◌≡◌, ◌≤◌, List, ℕ, Option, Some, IfOk, drop, is_err, length};
ghost use Rattle.std.specs.Prelude.{min, take};
ghost use Rattle.std.specs.Io.{ReadsAtMost};
ghost use Rattle.std.specs.Io.KnownBytes.{ReadConsumes};
ghost use Rattle.sv_out.specs.Faults.{HasCause};

use crate::failed::Failed;

/// Where bytes come from: a pipe, a socket, a file, a list in memory.
pub trait Source {
    ghost left: { Self → Option (List ℕ) };

    ghost faults: { Self → ℕ };

    /// Puts the next bytes into `into` and answers how many they are; none is the end. Fails only where the count of
    /// faults rose in this call, and has then taken nothing.
    fn read(&mut self, into: &mut [u8]) -> Result<usize, Failed>
        ensures bound { ReadsAtMost result into.new }
        ensures bytes { ReadConsumes (left self.old) (left self.new) result into.new }
        ensures cause { HasCause (faults self.old) (faults self.new) result };
}

/// A source in memory: it gives the bytes of a list, so many at a time at most, and fails at the calls that it was told
/// to fail at, the first call being 1.
pub struct ListSource {
    bytes: Vec<u8>,
    at: usize,
    most: usize,
    failing: Vec<u64>,
    calls: u64,
    faults: u64,
    ghost within: { at ≤ length bytes.items },
    ghost some: { 1 ≤ most },
}

impl Drop for ListSource {
    fn drop(self) {
        let Self {
            bytes: _,
            at: _,
            most: _,
            failing: _,
            calls: _,
            faults: _,
        } = self;
    }
}

impl ListSource {
    ghost use Rattle.sv_out.specs.Plans.{source_plan};

    /// A source of these bytes, at most `most` in each call.
    pub fn new(bytes: Vec<u8>, most: usize, failing: Vec<u64>) -> ListSource
        requires { 1 ≤ most }
        ensures plan { source_plan result
            ≡ record { failing = failing.items; most = most; calls = 0; faults = 0 } }
        ensures left { ⟦<ListSource as Source>⟧.left result ≡ Some bytes.items }
        ensures faults { ⟦<ListSource as Source>⟧.faults result ≡ 0 }
    {
        ListSource {
            bytes,
            at: 0,
            most,
            failing,
            calls: 0,
            faults: 0,
        }
    }

    /// How many calls failed.
    pub fn faults(&self) -> u64
        ensures count { result ≡ (source_plan self.now).faults }
        ensures faults { result ≡ ⟦<ListSource as Source>⟧.faults self.now }
    {
        self.faults
    }
}

impl Source for ListSource {
    ghost use Rattle.sv_out.specs.Plans.{source_plan, source_faults, after_call, fails_next};
    ghost use Rattle.sv_out.specs.Plans.{bytes_left, known_left};

    ghost left = { λ s. Some (drop s.at s.bytes.items) };

    ghost faults = { λ s. s.faults };

    #[tactic(auto, using(crate::proofs::ListReads::given_is_lost, crate::proofs::ListReads::none_left))]
    fn read(&mut self, into: &mut [u8]) -> Result<usize, Failed>
        ensures bound { ReadsAtMost result into.new }
        ensures bytes { ReadConsumes (known_left self.old) (known_left self.new) result into.new }
        ensures cause { HasCause (source_faults self.old) (source_faults self.new) result }

        // It fails exactly at its calls, and each call is counted.
        ensures fails { is_err result ≡ fails_next (source_plan self.old) }
        ensures plan { source_plan self.new
            ≡ after_call (source_plan self.old) (fails_next (source_plan self.old)) }
        ensures count { IfOk result (λ n. n ≡ min (min (length (bytes_left self.old))
            (source_plan self.old).most) (length into.old)) }
    {
        self.calls = self.calls.saturating_add(1);
        if self.failing.as_slice().contains(&self.calls) {
            return Err(Failed::counted(&mut self.faults));
        }
        let (_, rest) = self.bytes.as_slice().split_at(self.at);
        let count = copy_front(rest, self.most, into);
        self.at += count;
        Ok(count)
    }
}

/// Copies the front of `bytes`, as far as both slices go and `most` allows, and answers its length.
#[tactic(auto, using(crate::proofs::ListReads::copied_front))]
pub(crate) fn copy_front(bytes: &[u8], most: usize, into: &mut [u8]) -> usize
    ensures count { result ≡ min (min (length bytes.now) most) (length into.old) }
    ensures copied { take result into.new ≡ take result bytes.now }
{
    let count = bytes.len().min(most).min(into.len());
    let (front, _) = bytes.split_at(count);
    into[..count].copy_from_slice(front);
    count
}
