//! The shelf: the files that are read and kept.
ghost use Rattle.std.specs.Prelude.{◌≡◌, ◌≤◌, ℕ, List, Option, IfOk, length};
ghost use Rattle.std.specs.Option.{ForSome};
ghost use Rattle.sv_out.specs.Faults.{RisesWhere};

use std::alloc::{AllocError, Global};
use sv_base::{Bytes, Text};
use thiserror::Error;

/// Why a call on a shelf gave nothing.
#[derive(Clone, Copy, Debug, Error)]
pub enum ShelfFault {
    /// There is no file of this name.
    #[error("no such file")]
    Missing,
    /// The call failed; the shelf's count of faults rose in it.
    #[error("the call failed")]
    Failed,
    #[error("out of memory")]
    OutOfMemory,
}

impl From<AllocError> for ShelfFault {
    ghost use Rattle.sv_out.specs.declared.files.ShelfFault.TheVariants.{OutOfMemory};

    ghost from_gives = { λ error fault. fault ≡ OutOfMemory };

    fn from(_: AllocError) -> ShelfFault {
        ShelfFault::OutOfMemory
    }
}

/// Where files stand: a disk, a map in memory. A shelf that can, tells its map from names to bytes. Each call but for
/// out of memory fails only where the count of faults rose in it.
pub trait Shelf {
    ghost use Rattle.sv_out.specs.Files.{Files, Reads, Changes, IsFailure, AreRising, AreNames};
    ghost use Rattle.sv_out.specs.Files.{size_of, part_of, appended, shifted, emptied};

    ghost files: { Self → Option Files };

    ghost faults: { Self → ℕ };

    /// The bytes of a file.
    fn read(&mut self, alloc: Global, name: &str) -> Result<Bytes, ShelfFault>
        ensures answer { Reads (files self.old) name.now (λ bytes. bytes) result }
        ensures kept { files self.new ≡ files self.old }
        ensures cause { RisesWhere (faults self.old) (faults self.new) (IsFailure result) };

    /// How many bytes a file has.
    fn size(&mut self, alloc: Global, name: &str) -> Result<u64, ShelfFault>
        ensures answer { Reads (files self.old) name.now size_of result }
        ensures kept { files self.new ≡ files self.old }
        ensures cause { RisesWhere (faults self.old) (faults self.new) (IsFailure result) };

    /// The names that a pattern matches, in which `*` is any run without `/` and `?` one character but `/`. They rise
    /// by bytes, each once.
    fn names(&mut self, alloc: Global, pattern: &str) -> Result<Vec<Text>, ShelfFault>
        ensures rising { IfOk result (λ names. AreRising names.items) }
        ensures exact { IfOk result (λ names.
            ForSome (files self.old) (AreNames pattern.now names.items)) }
        ensures kept { files self.new ≡ files self.old }
        ensures cause { RisesWhere (faults self.old) (faults self.new) (IsFailure result) };

    /// The bytes of a file from `start` on, at most `length` of them.
    fn part(
        &mut self,
        alloc: Global,
        name: &str,
        start: u64,
        length: u64,
    ) -> Result<Bytes, ShelfFault>
        ensures answer { Reads (files self.old) name.now (part_of start length) result }
        ensures kept { files self.new ≡ files self.old }
        ensures cause { RisesWhere (faults self.old) (faults self.new) (IsFailure result) };

    /// Adds a piece at the end of a file; a missing one is made.
    fn append(&mut self, alloc: Global, name: &str, piece: &[u8]) -> Result<(), ShelfFault>
        ensures change { Changes (files self.old) (files self.new)
            (appended name.now piece.now) result }
        ensures cause { RisesWhere (faults self.old) (faults self.new) (IsFailure result) };

    /// Renames a file over another; does nothing where the first is missing.
    fn shift(&mut self, alloc: Global, from: &str, to: &str) -> Result<(), ShelfFault>
        ensures change { Changes (files self.old) (files self.new)
            (shifted from.now to.now) result }
        ensures cause { RisesWhere (faults self.old) (faults self.new) (IsFailure result) };

    /// Makes a file empty; a missing one is made.
    fn fresh(&mut self, alloc: Global, name: &str) -> Result<(), ShelfFault>
        ensures change { Changes (files self.old) (files self.new) (emptied name.now) result }
        ensures cause { RisesWhere (faults self.old) (faults self.new) (IsFailure result) };
}
