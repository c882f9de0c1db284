//! The world made of threads, and its parts.

use crate::answers::Answer;
use std::collections::VecDeque;
use std::sync::Wait;
use sv_jobs::{AnyJob, Note};
use sv_lane::{Seats, Taker};
use sv_out::files::Shelf;
use sv_out::source::Source;
use sv_outside::{Clock, Gate, Job, Listen, Ready, Spawner};
use sv_parts::links::LiveLinks;
use sv_parts::runs::LiveRuns;

/// The world made of threads. Its parts are the runs with the spawner, the links, and the files with the shelf; they
/// share the gate and the lane of the notes. It never waits on a child or a link; it waits for the next note.
#[derive(Drop)]
pub struct ThreadWorld<
    P: Spawner + Drop,
    L: Listen + Drop,
    Q: Source + Drop,
    C: Clock + Drop,
    B: Job,
    S: Shelf + Drop,
    G: Gate<AnyJob<P::Stdin, P::Stdout, P::Stderr, P::Waiter, L, Q, C, B>> + Drop,
    R: Wait + Copy,
> {
    pub(crate) rt: R,
    pub(crate) runs: LiveRuns<P>,
    pub(crate) links: LiveLinks<L::Link>,
    pub(crate) accepted: Accepted<L::Link>,
    pub(crate) shelf: S,
    pub(crate) clock: C,
    pub(crate) gate: Ready<AnyJob<P::Stdin, P::Stdout, P::Stderr, P::Waiter, L, Q, C, B>, G>,
    pub(crate) seats: Seats<Note>,
    pub(crate) notes: Taker<Note>,
    /// The number of the next order, modulo 2^64.
    pub(crate) number: u64,
    /// The orders that failed and of which this wasn't told, in the order in which they came.
    pub(crate) failures: VecDeque<u64>,
    /// The answer to the question that stands.
    pub(crate) answer: Option<Answer>,
    /// How many orders failed.
    pub(crate) faults: u64,
}

/// The links that were accepted at each side, in the order in which they came.
pub(crate) struct Accepted<K: Drop> {
    pub(crate) inet: Taker<K>,
    pub(crate) unix: Taker<K>,
}

impl<K: Drop> Drop for Accepted<K> {
    fn drop(self) {
        let Self { inet: _, unix: _ } = self;
    }
}
