//! The pieces in which a job reads.
ghost use Rattle.std.specs.Prelude.{◌≡◌, option_map};
ghost use Rattle.std.specs.Io.KnownBytes.{Consumes, IsAtEnd};
ghost use Rattle.sv_jobs.specs.Pieces.{bytes_of, heard_as};
ghost use Rattle.sv_out.specs.Faults.{RisesWhere};

use crate::room::Room;
use std::alloc::Global;
use sv_base::Piece;
use sv_out::Link;
use sv_out::source::Source;

/// What came of a read.
#[derive(Drop)]
pub(crate) enum ReadResult {
    Piece(Piece),
    /// The end; nothing was read.
    End,
    /// The call failed; nothing was read.
    Failed,
    /// Memory was refused, and so nothing was read.
    OutOfMemory,
}

/// Reads a piece of a source. The memory is taken first, so that no byte is lost for want of it.
pub(crate) fn read_piece<S: Source>(alloc: Global, source: &mut S, room: &mut Room) -> ReadResult
    ensures bytes { Consumes (S.left source.old) (S.left source.new) (bytes_of result) }
    ensures end { result ≡ ReadResult.End → IsAtEnd (S.left source.new) }
    ensures cause { RisesWhere (S.faults source.old) (S.faults source.new)
        (result ≡ ReadResult.Failed) }
{
    let Ok(mut bytes) = Vec::from_elem(alloc, 0u8, room.bytes()) else {
        return ReadResult::OutOfMemory;
    };
    let Ok(count) = source.read(bytes.as_mut_slice()) else {
        return ReadResult::Failed;
    };
    room.read(count);
    bytes.truncate(count);
    match Piece::new(bytes) {
        Some(piece) => ReadResult::Piece(piece),
        None => ReadResult::End,
    }
}

/// Reads a piece of a link, likewise.
pub(crate) fn hear_piece<K: Link>(alloc: Global, link: &mut K, room: &mut Room) -> ReadResult
    ensures told { K.told link.new ≡ option_map (heard_as result) (K.told link.old) }
    ensures cause { RisesWhere (K.faults link.old) (K.faults link.new) (result ≡ ReadResult.Failed) }
{
    let Ok(mut bytes) = Vec::from_elem(alloc, 0u8, room.bytes()) else {
        return ReadResult::OutOfMemory;
    };
    let Ok(count) = link.read(bytes.as_mut_slice()) else {
        return ReadResult::Failed;
    };
    room.read(count);
    bytes.truncate(count);
    match Piece::new(bytes) {
        Some(piece) => ReadResult::Piece(piece),
        None => ReadResult::End,
    }
}
