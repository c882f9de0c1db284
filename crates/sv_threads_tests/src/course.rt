//! What a test does over a world, which is made here.

use std::alloc::Global;
use std::process::Abort;
use std::sync::Wait;
use sv_jobs::{AnyJob, NoBoard};
use sv_out::Shelf;
use sv_out::source::Source;
use sv_outside::{Clock, Gate, Listen, Spawner, World};
use sv_threads::ThreadWorld;

/// What is done over a world, once it is made.
pub(crate) trait Course {
    fn over<W: World>(&self, rt: &impl Abort, alloc: Global, world: &mut W);
}

/// The parts of a world, but its gate.
pub(crate) struct Parts<P, L, Q, C, S> {
    pub(crate) spawner: P,
    pub(crate) inet: Option<L>,
    pub(crate) console: Q,
    pub(crate) ticker: C,
    pub(crate) clock: C,
    pub(crate) shelf: S,
}

/// Goes through a course over a world of these parts and this gate.
pub(crate) fn go_over<
    P: Spawner + Drop,
    L: Listen + Drop,
    Q: Source + Drop,
    C: Clock + Drop,
    S: Shelf + Drop,
    G: Gate<AnyJob<P::Stdin, P::Stdout, P::Stderr, P::Waiter, L, Q, C, NoBoard>> + Drop,
    R: Abort + Wait + Copy,
    D: Course,
>(rt: R, alloc: Global, parts: Parts<P, L, Q, C, S>, gate: G, course: &D)
    requires { G.ready gate }
{
    let Parts {
        spawner,
        inet,
        console,
        ticker,
        clock,
        shelf,
    } = parts;
    let mut world = ThreadWorld::new(
        rt, alloc, spawner, inet, None, console, ticker, clock, shelf, gate,
    )
    .expect(&rt, "ample memory");
    course.over(&rt, alloc, &mut world);
}
