//! The ticker: it brings the seconds of the clock.
ghost use Rattle.std.specs.Prelude.{◌≡◌, ◌++◌, replicate};
ghost use Rattle.sv_jobs.specs.declared.notes.Note.TheVariants.{Tick};
ghost use Rattle.sv_lane.specs.Ends.{IsSameSeat, posted};
ghost use Rattle.sv_outside.specs.Told.{GrowsWhileTold};

use crate::notes::Note;
use std::sync::Wait;
use sv_lane::Poster;
use sv_outside::Clock;

/// Between two ticks, in milliseconds.
const SECOND: u32 = 1_000;

/// Pauses for a second and then posts a tick, so many times. It takes no memory.
#[inline(never)]
pub fn ticker<C: Clock, R: Wait>(rt: &R, clock: &mut C, turns: u64, poster: &mut Poster<Note>)
    ensures paused { GrowsWhileTold (C.paused clock.old) (C.paused clock.new)
        (replicate turns 1000) }
    ensures posted { posted poster.new ≡ posted poster.old ++ replicate turns Tick }
    ensures seat { IsSameSeat poster.old poster.new }
{
    for _ in 0..turns {
        clock.pause(SECOND);
        poster.post(rt, Note::Tick);
    }
}
