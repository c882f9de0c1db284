//! How a world of threads begins.
ghost use Rattle.std.specs.Prelude.{IfOk, is_some};
ghost use Rattle.sv_threads.specs.Starting.{HasNoLink, Starts};

use crate::first_jobs::{hand_console, hand_links, hand_ticker};
use crate::world::{Accepted, ThreadWorld};
use std::alloc::{AllocError, Global};
use std::collections::VecDeque;
use std::sync::Wait;
use sv_base::Side;
use sv_jobs::{AnyJob, ConsoleJob, Note, TickerJob};
use sv_lane::{Poster, Seats, Taker, lane};
use sv_out::files::Shelf;
use sv_out::source::Source;
use sv_outside::{Clock, Gate, Job, Listen, Ready, Spawner};
use sv_parts::links::LiveLinks;
use sv_parts::runs::LiveRuns;

/// The most items in the lane of the notes.
const NOTES: u32 = 256;

/// The most links of a side that were accepted and aren't taken in.
const LINKS: u32 = 64;

impl<
    P: Spawner + Drop,
    L: Listen + Drop,
    Q: Source + Drop,
    C: Clock + Drop,
    B: Job,
    S: Shelf + Drop,
    G: Gate<AnyJob<P::Stdin, P::Stdout, P::Stderr, P::Waiter, L, Q, C, B>> + Drop,
    R: Wait + Copy,
> ThreadWorld<P, L, Q, C, B, S, G, R> {
    ghost use Rattle.std.specs.Prelude.{◌≡◌, [], None};
    ghost use Rattle.sv_lane.specs.Ends.{taken};

    /// A world over these parts. The gate is handed the job of the console, that of the ticker, and one for each server
    /// that is given, that of the internet before that of the Unix socket. A job that comes back is let go: such a
    /// server accepts no links.
    pub fn new(
        rt: R,
        alloc: Global,
        spawner: P,
        inet: Option<L>,
        unix: Option<L>,
        console: Q,
        ticker: C,
        clock: C,
        shelf: S,
        gate: G,
    ) -> Result<ThreadWorld<P, L, Q, C, B, S, G, R>, AllocError>
        requires { G.ready gate }
        ensures starts { IfOk result (λ w. Starts (is_some inet) (is_some unix)
            (G.kept gate) (G.faults gate) w.gate.0 w.gate.1) }
        ensures spawner { IfOk result (λ w. w.runs.spawner ≡ spawner) }
        ensures lives { IfOk result (λ w. w.runs.lives.items ≡ []) }
        ensures links { IfOk result (λ w. HasNoLink w.links) }
        ensures shelf { IfOk result (λ w. w.shelf ≡ shelf) }
        ensures clock { IfOk result (λ w. w.clock ≡ clock) }
        ensures none { IfOk result (λ w. taken w.notes ≡ []) }
        ensures number { IfOk result (λ w. w.number ≡ 0) }
        ensures failures { IfOk result (λ w. w.failures.items ≡ []) }
        ensures answer { IfOk result (λ w. w.answer ≡ None) }
        ensures faults { IfOk result (λ w. w.faults ≡ 0) }
    {
        let Lanes {
            notes,
            seats,
            posters,
            accepted,
            links,
        } = Lanes::new(alloc)?;
        let console_job = ConsoleJob {
            source: console,
            poster: posters.console,
            alloc,
        };
        let ticker_job = TickerJob {
            clock: ticker,
            turns: u64::MAX,
            poster: posters.ticker,
        };
        let mut gate = Ready::new(gate);
        hand_console(&mut gate, console_job);
        hand_ticker(&mut gate, ticker_job);
        hand_links(&mut gate, Side::Inet, inet, posters.inet, links.inet);
        hand_links(&mut gate, Side::Unix, unix, posters.unix, links.unix);
        Ok(ThreadWorld {
            rt,
            runs: LiveRuns::new(alloc, spawner),
            links: LiveLinks::new(alloc),
            accepted,
            shelf,
            clock,
            gate,
            seats,
            notes,
            number: 0,
            failures: VecDeque::new(alloc),
            answer: None,
            faults: 0,
        })
    }
}

/// The posters of the jobs with which a world begins.
#[derive(Drop)]
struct FirstPosters {
    console: Poster<Note>,
    ticker: Poster<Note>,
    inet: Poster<Note>,
    unix: Poster<Note>,
}

impl FirstPosters {
    /// One seat for each of them.
    fn new(seats: &mut Seats<Note>) -> Result<FirstPosters, AllocError> {
        Ok(FirstPosters {
            console: seats.seat()?,
            ticker: seats.seat()?,
            inet: seats.seat()?,
            unix: seats.seat()?,
        })
    }
}

/// The posters of the links that are accepted.
#[derive(Drop)]
struct LinkPosters<K: Drop> {
    inet: Poster<K>,
    unix: Poster<K>,
}

/// The lanes of a world, and the posters of its first jobs.
#[derive(Drop)]
struct Lanes<K: Drop> {
    notes: Taker<Note>,
    seats: Seats<Note>,
    posters: FirstPosters,
    accepted: Accepted<K>,
    links: LinkPosters<K>,
}

impl<K: Drop> Lanes<K> {
    ghost use Rattle.std.specs.Prelude.{◌≡◌, []};
    ghost use Rattle.sv_lane.specs.Ends.{taken};

    /// The lanes, from which nothing was taken.
    fn new(alloc: Global) -> Result<Lanes<K>, AllocError>
        ensures { IfOk result (λ l. taken l.notes ≡ []) }
    {
        let (notes, mut seats) = lane(alloc, NOTES)?;
        let posters = FirstPosters::new(&mut seats)?;
        let (accepted, links) = links_lanes(alloc)?;
        Ok(Lanes {
            notes,
            seats,
            posters,
            accepted,
            links,
        })
    }
}

/// The lanes of the links that are accepted on the two sides, with one seat each.
fn links_lanes<K: Drop>(alloc: Global) -> Result<(Accepted<K>, LinkPosters<K>), AllocError> {
    let (inet, inet_poster) = links_lane(alloc)?;
    let (unix, unix_poster) = links_lane(alloc)?;
    Ok((
        Accepted { inet, unix },
        LinkPosters {
            inet: inet_poster,
            unix: unix_poster,
        },
    ))
}

/// The lane of the accepted links of a side, with one seat.
fn links_lane<K: Drop>(alloc: Global) -> Result<(Taker<K>, Poster<K>), AllocError> {
    let (taker, mut seats) = lane(alloc, LINKS)?;
    let poster = seats.seat()?;
    Ok((taker, poster))
}
