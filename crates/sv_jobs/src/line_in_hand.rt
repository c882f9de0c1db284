//! The line of the console that isn't ended yet.
ghost use Rattle.std.specs.Prelude.{◌≡◌, ◌≤◌, [], length, vec_capacity};
ghost use Rattle.sv_jobs.specs.ConsoleLines.{kept_limit};

use std::alloc::{AllocError, Global};

/// How many bytes of a line are kept: one more than a line may have, so that a longer one is known.
const KEPT: usize = 4_097;

/// The bytes of a line that isn't ended yet, as far as they count.
#[derive(Drop)]
pub(crate) struct LineInHand {
    bytes: Vec<u8>,
    ghost within: { length bytes.items ≤ kept_limit },
    ghost room: { kept_limit ≤ vec_capacity bytes },
}

impl LineInHand {
    ghost use Rattle.std.specs.Prelude.{◌++◌, ◌∷◌, IfOk};
    ghost use Rattle.sv_jobs.specs.ConsoleLines.{kept};
    ghost use Rattle.sv_jobs.specs.HeldLines.{kept_bytes};

    /// The empty line. It takes all memory that any line takes.
    pub(crate) fn new(alloc: Global) -> Result<LineInHand, AllocError>
        ensures { IfOk result (λ line. kept_bytes line ≡ []) }
    {
        Ok(LineInHand {
            bytes: Vec::with_capacity(alloc, KEPT)?,
        })
    }

    /// Adds a byte.
    pub(crate) fn push(&mut self, byte: u8)
        ensures { kept_bytes self.new ≡ kept (kept_bytes self.old ++ byte ∷ []) }
    {
        if self.bytes.len() < KEPT {
            self.bytes.push_reserved(byte);
        }
    }

    /// The bytes that count.
    pub(crate) fn as_slice(&self) -> &[u8]
        ensures { result.now ≡ kept_bytes self.now }
    {
        self.bytes.as_slice()
    }

    /// Begins the next line.
    pub(crate) fn clear(&mut self)
        ensures { kept_bytes self.new ≡ [] }
    {
        self.bytes.clear();
    }
}
