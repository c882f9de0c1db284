//! An event pool: the events that wait, and those that listeners hold.
ghost use Rattle.std.specs.Prelude.{◌≡◌, ◌+◌, ◌<◌, ◌≤◌, [], ◌∷◌, ◌++◌, None, IfOk, OnOk, IsOk};
ghost use Rattle.std.specs.Prelude.{IsSome, IsTrue, ◌↔◌, MatchOption, Some, length, replicate};
ghost use Rattle.std.specs.Prelude.{slice_get, map, nat_lt, drop, if◌then◌else◌};
ghost use Rattle.std.specs.Option.{option_map};
ghost use Rattle.sv_events.specs.declared.event.Event.{Event};
ghost use Rattle.sv_pool.specs.PoolLists.{Lists, StandsFor, opened, report, dropped_for_room};
ghost use Rattle.sv_pool.specs.PoolLists.{accepted, holding, took, acknowledged, rejected};
ghost use Rattle.sv_pool.specs.PoolLists.{held_events, forgotten};

use crate::taken::{Dropped, Taken};
use circular_buffer::HeapCircularBuffer;
use std::alloc::{AllocError, Global};
use std::marker::Model;
use sv_events::event::Event;

/// An event pool. It takes all its memory when it is made. Contracts see it as standing for the lists of all events
/// that it ever took.
#[derive(Drop)]
pub struct Pool {
    waiting: HeapCircularBuffer<Taken>,
    held: Vec<Option<Taken>>,
    next: u64,
}

impl Model for Pool {
    ghost use Rattle.std.specs.Prelude.{◌+◌, ◌≤◌, length};
    ghost use Rattle.sv_pool.specs.PoolLists.{Kept};

    ghost Value = { Kept };

    ghost view = { λ p. record { buffer = p.waiting.capacity; next = p.next; waiting = p.waiting.items; held = p.held.items } };

    ghost invariant = { λ p. (1 ≤ p.waiting.capacity) × (length p.waiting.items ≤
        p.waiting.capacity) × (p.waiting.capacity + length p.held.items ≤ 4294967295) };
}

impl Pool {
    /// A pool of so many listeners, in which so many events can wait.
    pub fn new(alloc: Global, buffer: u32, listeners: u32) -> Result<Pool, AllocError>
        requires some { 1 ≤ buffer }
        requires few { buffer + listeners ≤ 4294967295 }
        ensures { IfOk result (λ pool. StandsFor pool (opened buffer listeners)) }
    {
        let waiting = HeapCircularBuffer::with_capacity(alloc, buffer as usize)?;
        let held = free_places(alloc, listeners)?;
        Ok(Pool {
            waiting,
            held,
            next: 0,
        })
    }

    /// Takes an event, which gets the pool's next number and waits after the others. Where the buffer is full the
    /// oldest event is dropped first, and its report answered. The event takes no further memory.
    pub fn accept(&mut self, event: Event) -> Result<Option<Dropped>, AllocError>
        ensures taken { IsOk result }
        ensures lists { (lists : Lists) → StandsFor self.old lists
            → StandsFor self.new (accepted event lists) }
        ensures report { (lists : Lists) → StandsFor self.old lists
            → IfOk result (λ dropped. dropped ≡ dropped_for_room lists) }
    {
        let dropped = self.make_room();
        let poolserial = self.next;
        self.waiting.push_back(Taken { event, poolserial });
        self.next = poolserial.wrapping_add(1);
        Ok(dropped)
    }

    /// The event that is handed out next, with its number in the pool.
    #[tactic(auto, using(crate::proofs::Held::none_first))]
    pub fn next_for(&self) -> Option<(&Event, u64)>
        ensures { MatchOption result (self.now.waiting ≡ [])
            (λ next. slice_get self.now.waiting 0
            ≡ Some (record { event = next.0.now; poolserial = next.1 })) }
    {
        match self.waiting.front() {
            Some(taken) => Some((&taken.event, taken.poolserial)),
            None => None,
        }
    }

    /// Whether the listener is one of the pool's and holds no event.
    pub fn is_free(&self, listener: u32) -> bool
        ensures { IsTrue result
            ↔ ((listener < length self.now.held) × (holding listener self.now.held ≡ None)) }
    {
        match self.held.as_slice().get(listener as usize) {
            Some(place) => place.is_none(),
            None => false,
        }
    }

    /// Whether the listener is one of the pool's and holds an event.
    pub fn is_holding(&self, listener: u32) -> bool
        ensures { IsTrue result
            ↔ ((listener < length self.now.held) × IsSome (holding listener self.now.held)) }
    {
        match self.held.as_slice().get(listener as usize) {
            Some(place) => place.is_some(),
            None => false,
        }
    }

    /// The next event goes to this listener, which holds it.
    pub fn took(&mut self, listener: u32)
        requires some { 0 < length self.old.waiting }
        requires known { listener < length self.old.held }
        requires free { holding listener self.old.held ≡ None }
        ensures { (lists : Lists) → StandsFor self.old lists
            → StandsFor self.new (took listener lists) }
    {
        self.held[listener as usize] = self.waiting.pop_front();
    }

    /// The event that this listener holds is done with.
    pub fn acknowledged(&mut self, listener: u32)
        requires known { listener < length self.old.held }
        requires holds { IsSome (holding listener self.old.held) }
        ensures { (lists : Lists) → StandsFor self.old lists
            → StandsFor self.new (acknowledged listener lists) }
    {
        self.held[listener as usize] = None;
    }

    /// The event that this listener holds goes back to the front. Where the buffer is full the oldest waiting event is
    /// dropped first, and its report answered.
    pub fn rejected(&mut self, listener: u32) -> Option<Dropped>
        requires known { listener < length self.old.held }
        requires holds { IsSome (holding listener self.old.held) }
        ensures lists { (lists : Lists) → StandsFor self.old lists
            → StandsFor self.new (rejected listener lists) }
        ensures report { (lists : Lists) → StandsFor self.old lists
            → result ≡ dropped_for_room lists }
    {
        let dropped = self.make_room();
        if let Some(taken) = self.held[listener as usize].take() {
            self.waiting.push_front(taken);
        }
        dropped
    }

    /// Gives up all events that wait or are held, and answers how many there were.
    pub fn forget(&mut self) -> u32
        ensures lists { (lists : Lists) → StandsFor self.old lists
            → StandsFor self.new (forgotten lists) }
        ensures count { result ≡ length self.old.waiting + length (held_events self.old.held) }
    {
        let waiting = self.waiting.len() as u32;
        self.waiting.clear();
        waiting + forget_held(&mut self.held)
    }

    /// Drops the oldest event where the buffer is full.
    fn make_room(&mut self) -> Option<Dropped>
        ensures waiting { self.new.waiting
            ≡ (if nat_lt (length self.old.waiting) self.old.buffer then self.old.waiting
            else drop 1 self.old.waiting) }
        ensures room { length self.new.waiting < self.new.buffer }
        ensures others { (self.new.buffer ≡ self.old.buffer) × (self.new.next ≡ self.old.next) ×
            (self.new.held ≡ self.old.held) }
        ensures report { result
            ≡ (if nat_lt (length self.old.waiting) self.old.buffer then None
            else option_map report (slice_get self.old.waiting 0)) }
    {
        if self.waiting.is_full() {
            let oldest = self.waiting.pop_front()?;
            Some(Dropped {
                serial: oldest.event.serial,
                poolserial: oldest.poolserial,
            })
        } else {
            None
        }
    }
}

fn free_places(alloc: Global, listeners: u32) -> Result<Vec<Option<Taken>>, AllocError>
    ensures { IfOk result (λ places. places.items ≡ replicate listeners None) }
{
    let mut places = Vec::with_capacity(alloc, listeners as usize)?;
    'places: for _ in 0..listeners {
        places.push(None)?;
    }
    Ok(places)
}

/// Empties each listener's place, and answers how many events there were.
fn forget_held(held: &mut Vec<Option<Taken>>) -> u32
    requires { length held.old.items ≤ 4294967295 }
    ensures places { held.new.items ≡ map (λ _. None) held.old.items }
    ensures count { result ≡ length (held_events held.old.items) }
    ensures within { result ≤ length held.old.items }
{
    let count = count_held(held.as_slice()) as u32;
    for place in held.iter_mut() {
        *place = None;
    }
    count
}

#[tactic(auto, using(crate::proofs::Held::count_held))]
fn count_held(held: &[Option<Taken>]) -> usize
    ensures count { result ≡ length (held_events held.now) }
    ensures within { result ≤ length held.now }
{
    held.iter().filter(|place| place.is_some()).count()
}
