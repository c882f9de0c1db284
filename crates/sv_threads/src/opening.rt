//! How an accepted link is taken in.
ghost use Rattle.std.specs.Prelude.{◌≡◌};
ghost use Rattle.sv_threads.specs.Opening.{AcceptsAt, IsSilent, OpensAt, TakesLink};

use crate::world::Accepted;
use std::alloc::AllocError;
use std::sync::Wait;
use sv_base::Side;
use sv_out::input::Input;
use sv_outside::Clock;
use sv_parts::links::LiveLinks;

impl<K: Drop> Accepted<K> {
    /// Takes the next link of a side. It was posted before the note that tells of it.
    fn take<R: Wait>(&mut self, rt: &R, side: Side) -> K
        ensures { TakesLink side result self.old self.new }
    {
        match side {
            Side::Inet => self.inet.take(rt),
            Side::Unix => self.unix.take(rt),
        }
    }
}

/// Takes in the next link of a side: it gets the next number, and waits for its first order. Where no number is left it
/// is let go, and nothing is told.
#[tactic(auto, using(crate::proofs::Openings::accepts, crate::proofs::Openings::lets_go))]
pub(crate) fn open<K: Drop, C: Clock, R: Wait>(
    rt: &R,
    clock: &mut C,
    accepted: &mut Accepted<K>,
    links: &mut LiveLinks<K>,
    side: Side,
) -> Result<Option<Input>, AllocError>
    ensures opens { OpensAt side (C.next clock.old) links.old links.new result }
    ensures accepted { AcceptsAt side accepted.old accepted.new links.old links.new result }
    ensures quiet { IsSilent result → clock.new ≡ clock.old }
{
    let object = accepted.take(rt, side);
    let Some(link) = links.opened(object)? else {
        return Ok(None);
    };
    Ok(Some(Input::Open {
        at: clock.now(),
        link,
        side,
    }))
}
