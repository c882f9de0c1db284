//! How much a job reads at once.
ghost use Rattle.std.specs.Prelude.{◌≡◌, ◌≤◌};
ghost use Rattle.sv_base.specs.Limits.{piece_limit};

use sv_base::PIECE_LIMIT;

/// The room of a first piece, in bytes.
const FIRST_ROOM: usize = 4_096;

/// The room for the next piece of a job: 4,096 bytes at first. It doubles up to the most bytes of a piece while reads
/// fill it, and a read that doesn't fill it brings it back: so a busy pipe takes few notes, and an idle one little memory.
#[derive(Drop)]
pub(crate) struct Room {
    bytes: usize,
    ghost least: { 1 ≤ bytes },
    ghost most: { bytes ≤ piece_limit },
}

impl Room {
    ghost use Rattle.sv_jobs.specs.Pieces.{next_room, room_of};

    /// The room of a first piece.
    pub(crate) fn first() -> Room
        ensures { room_of result ≡ 4096 }
    {
        Room { bytes: FIRST_ROOM }
    }

    /// How many bytes it has.
    pub(crate) fn bytes(&self) -> usize
        ensures bytes { result ≡ room_of self.now }
        ensures least { 1 ≤ result }
        ensures most { result ≤ piece_limit }
    {
        self.bytes
    }

    /// Goes on after a read of so many bytes.
    pub(crate) fn read(&mut self, count: usize)
        ensures { room_of self.new ≡ next_room (room_of self.old) count }
    {
        self.bytes = if count == self.bytes {
            (2 * self.bytes).min(PIECE_LIMIT)
        } else {
            FIRST_ROOM
        };
    }
}
