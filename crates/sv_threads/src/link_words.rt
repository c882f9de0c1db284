//! Orders to send over a link and to read on, of which the first starts the link's job.
ghost use Rattle.sv_threads.specs.LinkWords.{StartsAndAsks, StartsAndSends};

use std::alloc::{AllocError, Global};
use std::sync::Wait;
use sv_base::{Bytes, LinkId};
use sv_jobs::{AnyJob, Note};
use sv_lane::Seats;
use sv_out::sink::Sink;
use sv_out::source::Source;
use sv_outside::{Clock, Gate, Handed, Job, Listen, Ready, Waiter};
use sv_parts::links::{LiveLinks, start_link};

/// Sends bytes over a link, whose job is started where this is its first order.
#[tactic(auto, using(crate::proofs::FirstOrders::sends_on, crate::proofs::FirstOrders::sends_none))]
pub(crate) fn send<
    K: Sink + Drop,
    O: Source + Drop,
    E: Source + Drop,
    W: Waiter + Drop,
    L: Listen + Drop,
    Q: Source + Drop,
    C: Clock + Drop,
    B: Job,
    G: Gate<AnyJob<K, O, E, W, L, Q, C, B>> + Drop,
    R: Wait,
>(
    rt: &R,
    alloc: Global,
    links: &mut LiveLinks<L::Link>,
    seats: &mut Seats<Note>,
    gate: &mut Ready<AnyJob<K, O, E, W, L, Q, C, B>, G>,
    link: LinkId,
    bytes: &Bytes,
) -> Result<Handed, AllocError>
    ensures { StartsAndSends link bytes.now links.old links.new gate.old gate.new result }
{
    start_link(alloc, links, seats, gate, link)?;
    links.send(rt, link, bytes)
}

/// Asks for one piece more of a link, whose job is started where this is its first order.
#[tactic(auto, using(crate::proofs::FirstOrders::asks_on, crate::proofs::FirstOrders::asks_none))]
pub(crate) fn more<
    K: Sink + Drop,
    O: Source + Drop,
    E: Source + Drop,
    W: Waiter + Drop,
    L: Listen + Drop,
    Q: Source + Drop,
    C: Clock + Drop,
    B: Job,
    G: Gate<AnyJob<K, O, E, W, L, Q, C, B>> + Drop,
    R: Wait,
>(
    rt: &R,
    alloc: Global,
    links: &mut LiveLinks<L::Link>,
    seats: &mut Seats<Note>,
    gate: &mut Ready<AnyJob<K, O, E, W, L, Q, C, B>, G>,
    link: LinkId,
) -> Result<Handed, AllocError>
    ensures { StartsAndAsks link links.old links.new gate.old gate.new result }
{
    start_link(alloc, links, seats, gate, link)?;
    Ok(links.more(rt, link))
}
