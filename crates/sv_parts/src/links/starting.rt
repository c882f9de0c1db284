//! How a link's job is started.
ghost use Rattle.std.specs.Prelude.{◌≡◌, Ok, false};
ghost use Rattle.sv_lane.specs.Ends.{AreSameSeats};
ghost use Rattle.sv_parts.specs.Links.Starting.{Starts};
ghost use Rattle.sv_out.specs.Faults.{RisesWhere};

use crate::links::{LinkLife, LiveLinks, link_lane};
use std::alloc::{AllocError, Global};
use sv_base::LinkId;
use sv_jobs::{AnyJob, LinkJob, Note};
use sv_lane::Seats;
use sv_out::sink::Sink;
use sv_out::source::Source;
use sv_outside::{Clock, Gate, Job, Listen, Ready, Waiter, hand};

/// Hands the gate the job of a link that waits for its first order; of another link nothing changes. The seat and the
/// lane of the job are made before. Where the job comes back the link is lost: each order of it fails.
pub fn start_link<
    K: Sink + Drop,
    O: Source + Drop,
    E: Source + Drop,
    W: Waiter + Drop,
    L: Listen + Drop,
    Q: Source + Drop,
    C: Clock + Drop,
    B: Job,
    G: Gate<AnyJob<K, O, E, W, L, Q, C, B>> + Drop,
>(
    alloc: Global,
    links: &mut LiveLinks<L::Link>,
    seats: &mut Seats<Note>,
    gate: &mut Ready<AnyJob<K, O, E, W, L, Q, C, B>, G>,
    link: LinkId,
) -> Result<bool, AllocError>
    ensures starts { Starts link links.old links.new gate.old.0 gate.new.0 result }
    ensures cause { RisesWhere gate.old.1 gate.new.1 (result ≡ Ok false) }
    ensures seats { AreSameSeats seats.old seats.new }
{
    let Some(place) = links.waiting_at(link) else {
        return Ok(true);
    };
    links.lives.reserve(1)?;
    links.lost.reserve(1)?;
    let poster = seats.seat()?;
    let (taker, words) = link_lane(alloc)?;
    let waiting = links.waiting.remove(place);
    let job = LinkJob {
        number: link,
        link: waiting.object,
        poster,
        words: taker,
        alloc,
    };
    let is_kept = hand(gate, AnyJob::Link(job));
    if is_kept {
        links.lives.push_reserved(LinkLife::new(link, words));
    } else {
        links.lost.push_reserved(link);
    }
    Ok(is_kept)
}
