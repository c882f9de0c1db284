//! The orders that ask for something of a file.
ghost use Rattle.std.specs.Prelude.{◌≡◌};
ghost use Rattle.sv_parts.specs.Files.Asking.{Clears, IsUnanswered, Lists, Parts, Sizes};
ghost use Rattle.sv_out.specs.Faults.{RisesWhere};

use std::alloc::{AllocError, Global};
use sv_base::{Bytes, Text};
use sv_out::files::{Shelf, ShelfFault};
use sv_out::rising::RisingNames;

/// What an order that asks for something of a file came to.
#[derive(Drop)]
pub enum FileAnswer {
    /// These bytes of it.
    Read(Bytes),
    /// It is empty now.
    Done,
    /// There is no such file.
    Missing,
    /// These names.
    Names(RisingNames),
    /// It has so many bytes.
    Size(u64),
    /// A call of the shelf failed: there is no answer.
    Failed,
}

/// Asks for bytes of a file from `start` on, at most `length` of them: one call of the shelf for a part. It fails only
/// where the shelf's count of faults rose.
pub fn read_file<S: Shelf>(
    alloc: Global,
    shelf: &mut S,
    file: &Text,
    start: u64,
    length: u64,
) -> Result<FileAnswer, AllocError>
    ensures parts { Parts (S.files shelf.old) file.now start length result }
    ensures kept { S.files shelf.new ≡ S.files shelf.old }
    ensures cause { RisesWhere (S.faults shelf.old) (S.faults shelf.new) (IsUnanswered result) }
{
    match shelf.part(alloc, file.as_str(), start, length) {
        Ok(bytes) => Ok(FileAnswer::Read(bytes)),
        Err(ShelfFault::Missing) => Ok(FileAnswer::Missing),
        Err(ShelfFault::Failed) => Ok(FileAnswer::Failed),
        Err(ShelfFault::OutOfMemory) => Err(AllocError),
    }
}

/// Asks that a file becomes empty: one call of the shelf for its size, and where it has one, one to make it anew. It
/// fails only where the shelf's count of faults rose.
pub fn clear_file<S: Shelf>(
    alloc: Global,
    shelf: &mut S,
    file: &Text,
) -> Result<FileAnswer, AllocError>
    ensures clears { Clears (S.files shelf.old) (S.files shelf.new) file.now result }
    ensures cause { RisesWhere (S.faults shelf.old) (S.faults shelf.new) (IsUnanswered result) }
{
    match shelf.size(alloc, file.as_str()) {
        Ok(_) => {}
        Err(ShelfFault::Missing) => return Ok(FileAnswer::Missing),
        Err(ShelfFault::Failed) => return Ok(FileAnswer::Failed),
        Err(ShelfFault::OutOfMemory) => return Err(AllocError),
    }
    match shelf.fresh(alloc, file.as_str()) {
        Ok(()) => Ok(FileAnswer::Done),
        Err(ShelfFault::Failed) => Ok(FileAnswer::Failed),
        Err(ShelfFault::OutOfMemory) => Err(AllocError),
        Err(ShelfFault::Missing) => unreachable!(),
    }
}

/// Asks which files' names a pattern matches: one call of the shelf for names. It fails only where the shelf's count of
/// faults rose.
pub fn file_names<S: Shelf>(
    alloc: Global,
    shelf: &mut S,
    pattern: &Text,
) -> Result<FileAnswer, AllocError>
    ensures lists { Lists (S.files shelf.old) pattern.now result }
    ensures kept { S.files shelf.new ≡ S.files shelf.old }
    ensures cause { RisesWhere (S.faults shelf.old) (S.faults shelf.new) (IsUnanswered result) }
{
    match shelf.names(alloc, pattern.as_str()) {
        Ok(names) => Ok(FileAnswer::Names(RisingNames::new(names).unwrap())),
        Err(ShelfFault::Failed) => Ok(FileAnswer::Failed),
        // No shelf misses a file where it is asked for names.
        Err(ShelfFault::Missing | ShelfFault::OutOfMemory) => Err(AllocError),
    }
}

/// Asks how many bytes a file has: one call of the shelf for its size. It fails only where the shelf's count of faults
/// rose.
pub fn file_size<S: Shelf>(
    alloc: Global,
    shelf: &mut S,
    file: &Text,
) -> Result<FileAnswer, AllocError>
    ensures sizes { Sizes (S.files shelf.old) file.now result }
    ensures kept { S.files shelf.new ≡ S.files shelf.old }
    ensures cause { RisesWhere (S.faults shelf.old) (S.faults shelf.new) (IsUnanswered result) }
{
    match shelf.size(alloc, file.as_str()) {
        Ok(size) => Ok(FileAnswer::Size(size)),
        Err(ShelfFault::Missing) => Ok(FileAnswer::Missing),
        Err(ShelfFault::Failed) => Ok(FileAnswer::Failed),
        Err(ShelfFault::OutOfMemory) => Err(AllocError),
    }
}
