//! What accepts the links of one side.
ghost use Rattle.std.specs.Prelude.{◌≡◌, ◌≤◌};
ghost use Rattle.sv_jobs.specs.Accepting.{Accepted};
ghost use Rattle.sv_lane.specs.Ends.{IsSameSeat, posted};

use crate::notes::Note;
use std::sync::Wait;
use sv_base::Side;
use sv_lane::Poster;
use sv_outside::Listen;

/// Accepts so many times. Each link that comes is posted to the links of its side, and then an open to the loop; after
/// a failure nothing is posted, and the next one is tried. It takes no memory.
#[inline(never)]
pub fn accept_links<L: Listen, R: Wait>(
    rt: &R,
    listen: &mut L,
    side: Side,
    turns: u64,
    poster: &mut Poster<Note>,
    links: &mut Poster<L::Link>,
)
    ensures accepted { Accepted side turns (L.told listen.old) (L.told listen.new)
        (posted links.old) (posted links.new) (posted poster.old) (posted poster.new) }
    ensures later { L.faults listen.old ≤ L.faults listen.new }
    ensures seat { IsSameSeat poster.old poster.new }
    ensures links_seat { IsSameSeat links.old links.new }
{
    for _ in 0..turns {
        if let Ok(link) = listen.accept() {
            links.post(rt, link);
            poster.post(rt, Note::Open(side));
        }
    }
}
