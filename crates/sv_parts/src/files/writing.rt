//! The orders that write files.
ghost use Rattle.sv_parts.specs.Files.Writing.{IsUnwritten, Writes};
ghost use Rattle.sv_out.specs.Faults.{RisesWhere};
ghost use Rattle.sv_out.specs.Files.{appended, emptied, shifted};

use std::alloc::{AllocError, Global};
use sv_base::{Bytes, Text};
use sv_out::files::{Shelf, ShelfFault};
use sv_outside::Handed;

/// Adds bytes at the end of a file: one call of the shelf. It fails only where the shelf's count of faults rose.
pub fn append<S: Shelf>(
    alloc: Global,
    shelf: &mut S,
    file: &Text,
    bytes: &Bytes,
) -> Result<Handed, AllocError>
    ensures writes { Writes (S.files shelf.old) (S.files shelf.new)
        (appended file.now bytes.now) result }
    ensures cause { RisesWhere (S.faults shelf.old) (S.faults shelf.new) (IsUnwritten result) }
{
    match shelf.append(alloc, file.as_str(), bytes.as_slice()) {
        Ok(()) => Ok(Handed::Done),
        Err(ShelfFault::Failed) => Ok(Handed::Failed),
        Err(ShelfFault::OutOfMemory) => Err(AllocError),
        Err(ShelfFault::Missing) => unreachable!(),
    }
}

/// Gives a file another name: one call of the shelf. It fails only where the shelf's count of faults rose.
pub fn shift<S: Shelf>(
    alloc: Global,
    shelf: &mut S,
    from: &Text,
    to: &Text,
) -> Result<Handed, AllocError>
    ensures writes { Writes (S.files shelf.old) (S.files shelf.new)
        (shifted from.now to.now) result }
    ensures cause { RisesWhere (S.faults shelf.old) (S.faults shelf.new) (IsUnwritten result) }
{
    match shelf.shift(alloc, from.as_str(), to.as_str()) {
        Ok(()) => Ok(Handed::Done),
        Err(ShelfFault::Failed) => Ok(Handed::Failed),
        Err(ShelfFault::OutOfMemory) => Err(AllocError),
        Err(ShelfFault::Missing) => unreachable!(),
    }
}

/// Makes a file anew and empty: one call of the shelf. It fails only where the shelf's count of faults rose.
pub fn fresh<S: Shelf>(alloc: Global, shelf: &mut S, file: &Text) -> Result<Handed, AllocError>
    ensures writes { Writes (S.files shelf.old) (S.files shelf.new) (emptied file.now) result }
    ensures cause { RisesWhere (S.faults shelf.old) (S.faults shelf.new) (IsUnwritten result) }
{
    match shelf.fresh(alloc, file.as_str()) {
        Ok(()) => Ok(Handed::Done),
        Err(ShelfFault::Failed) => Ok(Handed::Failed),
        Err(ShelfFault::OutOfMemory) => Err(AllocError),
        Err(ShelfFault::Missing) => unreachable!(),
    }
}
