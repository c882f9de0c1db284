//! An event in a pool with its number, and what is said of one that was dropped.
use sv_events::event::Event;

/// An event that a pool took, with its number in the pool, from 0 on and modulo 2^64.
#[derive(Drop)]
pub struct Taken {
    pub event: Event,
    pub poolserial: u64,
}

/// The report of an event that a full buffer dropped: its number among all events, and that in the pool.
#[derive(Clone, Copy, PartialEq, Eq)]
pub struct Dropped {
    pub serial: u64,
    pub poolserial: u64,
}
