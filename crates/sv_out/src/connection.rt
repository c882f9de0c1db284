//! The link: one connection, which is read and written.
ghost use Rattle.std.specs.Prelude.{◌≡◌, ◌<◌, ◌≤◌, List, ℕ, Option, IfOk, OnOk, OnErr, length};
ghost use Rattle.std.specs.Prelude.{option_map};
ghost use Rattle.std.specs.Io.{ReadsAtMost, WritesAtMost};
ghost use Rattle.sv_out.specs.Faults.{HasCause};
ghost use Rattle.sv_out.specs.Exchanges.{after_read, after_write, sent_more, SentFront};

use crate::failed::Failed;
use sv_base::{Bytes, Place};

/// What went over one connection: where it led, the bytes that were written, the bytes that were read, and whether a
/// read gave the end.
pub struct Exchange {
    pub place: Place,
    pub sent: Bytes,
    pub heard: Bytes,
    pub ended: bool,
}

impl Drop for Exchange {
    fn drop(self) {
        let Self {
            place: _,
            sent: _,
            heard: _,
            ended: _,
        } = self;
    }
}

/// A connection: a source and a sink with one count of faults. A link that can, tells its exchange so far.
pub trait Link {
    ghost use Rattle.sv_out.specs.declared.connection.Exchange.{Exchange};

    ghost told: { Self → Option Exchange };

    ghost faults: { Self → ℕ };

    /// Puts the next bytes into `into` and answers how many they are; none is the end, unless `into` is empty. Fails
    /// only where the count of faults rose in this call, and has then taken nothing.
    fn read(&mut self, into: &mut [u8]) -> Result<usize, Failed>
        ensures bound { ReadsAtMost result into.new }
        ensures told { told self.new ≡ option_map (after_read result into.new) (told self.old) }
        ensures cause { HasCause (faults self.old) (faults self.new) result };

    /// Takes bytes from the front of `piece` and answers how many; some of each piece that has any. Fails only where the
    /// count of faults rose in this call, and has then taken nothing.
    fn write(&mut self, piece: &[u8]) -> Result<usize, Failed>
        ensures bound { WritesAtMost result piece.now }
        ensures progress { IfOk result (λ n. 0 < length piece.now → 0 < n) }
        ensures told { told self.new ≡ option_map (after_write result piece.now) (told self.old) }
        ensures cause { HasCause (faults self.old) (faults self.new) result };
}

/// Writes the whole text over a link. After a failure a prefix of it was written.
pub fn send_all<K: Link>(link: &mut K, text: &[u8]) -> Result<(), Failed>
    ensures ok { OnOk result (K.told link.new ≡ option_map (sent_more text.now) (K.told link.old)) }
    ensures err { OnErr result (SentFront (K.told link.old) (K.told link.new) text.now) }
    ensures cause { HasCause (K.faults link.old) (K.faults link.new) result }
{
    let mut rest = text;
    while !rest.is_empty() {
        let count = link.write(rest)?;
        let (_, after) = rest.split_at(count);
        rest = after;
    }
    Ok(())
}
