//! The last notes of a job.
ghost use Rattle.std.specs.Prelude.{◌≡◌, ◌++◌};
ghost use Rattle.sv_jobs.specs.LastNotes.{last_notes};
ghost use Rattle.sv_lane.specs.Ends.{IsSameSeat, posted};

use crate::notes::Note;
use std::sync::Wait;
use sv_lane::Poster;
use sv_outside::PumpEnd;

/// Posts the last note of a job; where memory was refused, that is told before.
pub(crate) fn post_end<R: Wait>(rt: &R, poster: &mut Poster<Note>, end: PumpEnd, last: Note)
    ensures posted { posted poster.new ≡ posted poster.old ++ last_notes end last }
    ensures seat { IsSameSeat poster.old poster.new }
{
    if end == PumpEnd::OutOfMemory {
        poster.post(rt, Note::NoMemory);
    }
    poster.post(rt, last);
}
