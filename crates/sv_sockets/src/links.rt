//! The links that are open, and their places.

use crate::idle::{Standing, longest_idle};
use libc::net::{SHUT_RDWR, shutdown};
use std::alloc::{AllocError, Global};
use std::collections::BTreeMap;
use std::io;
use std::rt::Clock;
use std::sync::atomic::{AtomicU64, Ordering};
use std::sync::{Arc, Mutex, Wait};
use std::time::Instant;
use sv_base::Side;

/// How many links are open at most.
pub const MOST_LINKS: usize = 64;

/// How many of them are of one side at most, so that neither side takes each place.
pub const MOST_OF_A_SIDE: usize = 60;

/// How many places are kept free where links are idle, so that several that come at once find one each.
const ROOM: usize = 4;

/// For so many milliseconds a link that was told to go is waited for before another one is, since its thread has to see its
/// end first.
const GOING: u64 = 500;

/// What a link and the table share of it.
#[derive(Drop)]
pub(crate) struct Mark {
    /// 1 while it is the peer that has to say something, else 0.
    waits: AtomicU64,
    /// One more than the moment of the last reply of status 200; 0 where there is none.
    served: AtomicU64,
}

/// A place that is taken.
#[derive(Drop)]
struct Place {
    side: Side,
    descriptor: i32,
    accepted: u64,
    mark: Arc<Mark>,
    /// When it was told to go.
    told: Option<u64>,
}

impl Place {
    /// Whether it was told to go, so lately that it may not have seen it.
    fn is_going(&self, now: u64) -> bool {
        match self.told {
            Some(told) => now.saturating_sub(told) < GOING,
            None => false,
        }
    }

    fn standing(&self) -> Standing {
        let served = self.mark.served.load(Ordering::SeqCst);
        Standing {
            waits: self.mark.waits.load(Ordering::SeqCst) == 1,
            served: 0 < served,
            since: if served == 0 {
                self.accepted
            } else {
                served - 1
            },
        }
    }
}

/// The places that are taken, by numbers that no two links have.
#[derive(Drop)]
struct Places {
    next: u64,
    taken: BTreeMap<u64, Place>,
}

impl Places {
    /// How many places links of this side have.
    fn number_of(&self, side: Side) -> usize {
        self.taken
            .values()
            .filter(|place| place.side == side)
            .count()
    }

    /// How many links aren't about to go.
    fn staying(&self, now: u64) -> usize {
        self.taken
            .values()
            .filter(|place| !place.is_going(now))
            .count()
    }

    /// How many links of this side aren't about to go.
    fn staying_of(&self, side: Side, now: u64) -> usize {
        self.taken
            .values()
            .filter(|place| place.side == side && !place.is_going(now))
            .count()
    }

    /// Whether too few places would be free for links of this side.
    fn is_crowded(&self, side: Side, now: u64) -> bool {
        MOST_LINKS - ROOM < self.staying(now) || MOST_OF_A_SIDE - ROOM < self.staying_of(side, now)
    }

    /// Whether a link of this side has a place left.
    fn has_room(&self, side: Side) -> bool {
        self.taken.len() < MOST_LINKS && self.number_of(side) < MOST_OF_A_SIDE
    }

    /// The links one of which may have to go for one of this side: those of its own side where this has nearly all that it
    /// may have, else all. One that was told to go is none of them.
    fn candidates(
        &self,
        alloc: Global,
        side: Side,
    ) -> Result<(Vec<u64>, Vec<Standing>), AllocError> {
        let own = MOST_OF_A_SIDE - ROOM < self.number_of(side);
        let mut numbers = Vec::new(alloc);
        let mut standings = Vec::new(alloc);
        for (number, place) in self.taken.iter() {
            if place.told.is_none() && (!own || place.side == side) {
                numbers.push(*number)?;
                standings.push(place.standing())?;
            }
        }
        Ok((numbers, standings))
    }

    /// The number of the link that is to go for one of this side.
    fn longest_idle(&self, alloc: Global, side: Side, now: u64) -> Option<u64> {
        let (numbers, standings) = self.candidates(alloc, side).ok()?;
        let found = longest_idle(now, standings.as_slice())?;
        numbers.as_slice().get(found).copied()
    }

    /// Ends the link that is to go for one of this side: whether there was one.
    fn close_longest_idle(&mut self, alloc: Global, side: Side, now: u64) -> bool {
        match self.longest_idle(alloc, side, now) {
            Some(number) => {
                self.close(number, now);
                true
            }
            None => false,
        }
    }

    /// Ends the link with this number both ways: its thread sees the end, and lets it go.
    fn close(&mut self, number: u64, now: u64) {
        if let Some(place) = self.taken.get_mut(&number) {
            place.told = Some(now);
            let _ = shutdown(place.descriptor, SHUT_RDWR);
        }
    }
}

/// The links of a daemon that are open, at most 64 of them, and 60 of one side. Who accepts them takes a place for each; a
/// link gives its place back when it is dropped.
pub struct LinkTable {
    alloc: Global,
    begun: Instant,
    places: Arc<Mutex<Places>>,
    /// How many links wait for a thread that was made at the start, or have one.
    short: Arc<AtomicU64>,
}

impl Drop for LinkTable {
    fn drop(self) {
        let Self {
            alloc: _,
            begun: _,
            places: _,
            short: _,
        } = self;
    }
}

impl LinkTable {
    /// No link is open. An error where the clock has one, or memory is refused.
    pub fn new<R: Clock>(rt: &R, alloc: Global) -> io::Result<LinkTable> {
        let places = Places {
            next: 0,
            taken: BTreeMap::new(alloc),
        };
        Ok(LinkTable {
            alloc,
            begun: Instant::now(rt)?,
            places: Arc::new(alloc, Mutex::new(places))?,
            short: Arc::new(alloc, AtomicU64::new(0))?,
        })
    }

    /// The same links, for another holder.
    pub fn another(&self) -> Result<LinkTable, AllocError> {
        Ok(LinkTable {
            alloc: self.alloc,
            begun: self.begun,
            places: Arc::try_clone(&self.places)?,
            short: Arc::try_clone(&self.short)?,
        })
    }

    /// How many links are open.
    pub fn number<R: Wait>(&self, rt: &R) -> usize {
        self.places.lock(rt).taken.len()
    }

    /// The milliseconds since the table was made.
    fn moment<R: Clock>(&self, rt: &R) -> u64 {
        match self.begun.elapsed(rt) {
            Ok(passed) => u64::try_from(passed.as_millis()).unwrap_or(u64::MAX),
            Err(_) => 0,
        }
    }

    /// A place for the link of this side with this descriptor; none where there is none left, or memory is refused.
    pub(crate) fn take<R: Wait + Clock>(
        &self,
        rt: &R,
        side: Side,
        descriptor: i32,
    ) -> Option<Seat> {
        let mark = Arc::new(
            self.alloc,
            Mark {
                waits: AtomicU64::new(1),
                served: AtomicU64::new(0),
            },
        )
        .ok()?;
        let seat = Seat {
            number: 0,
            mark: Arc::try_clone(&mark).ok()?,
            table: self.another().ok()?,
        };
        let place = Place {
            side,
            descriptor,
            accepted: self.moment(rt),
            mark,
            told: None,
        };
        self.put(rt, seat, place)
    }

    /// Puts a place into the table, if one is left: the seat with its number.
    fn put<R: Wait>(&self, rt: &R, seat: Seat, place: Place) -> Option<Seat> {
        let mut places = self.places.lock(rt);
        if !places.has_room(place.side) {
            return None;
        }
        let mut seat = seat;
        seat.number = places.next;
        places.next = places.next.saturating_add(1);
        places.taken.insert(seat.number, place).ok()?;
        Some(seat)
    }

    /// Ends the link that has been idle for longest among those that may go for one of this side, unless one is about to go.
    pub(crate) fn free_one<R: Wait + Clock>(&self, rt: &R, side: Side) {
        let now = self.moment(rt);
        let mut places = self.places.lock(rt);
        if places.staying(now) == places.taken.len() {
            places.close_longest_idle(self.alloc, side, now);
        }
    }

    /// Ends the link that has been idle for longest among those that may go for one of this side, where fewer than four
    /// places would be free. It gives its place back a little later.
    pub(crate) fn make_room<R: Wait + Clock>(&self, rt: &R, side: Side) {
        let now = self.moment(rt);
        let mut places = self.places.lock(rt);
        if places.is_crowded(side, now) {
            places.close_longest_idle(self.alloc, side, now);
        }
    }

    /// Ends each link that may go for another one, since no thread can be made for that.
    pub(crate) fn close_idle<R: Wait + Clock>(&self, rt: &R) {
        let now = self.moment(rt);
        let mut places = self.places.lock(rt);
        for _ in 0..MOST_LINKS {
            if !places.close_longest_idle(self.alloc, Side::Inet, now) {
                return;
            }
        }
    }

    /// Counts a link that waits for a thread that was made at the start: whether it is the only one.
    pub(crate) fn begin_short(&self) -> bool {
        self.short.fetch_add(1, Ordering::SeqCst) == 0
    }

    /// Counts such a link no more.
    pub(crate) fn end_short(&self) {
        self.short.fetch_sub(1, Ordering::SeqCst);
    }
}

/// The place of one link.
pub(crate) struct Seat {
    number: u64,
    mark: Arc<Mark>,
    table: LinkTable,
}

impl Drop for Seat {
    fn drop(self) {
        let Self {
            number: _,
            mark: _,
            table: _,
        } = self;
    }
}

impl Seat {
    /// Whether threads are short, so that links have to be quick.
    pub(crate) fn is_short(&self) -> bool {
        0 < self.table.short.load(Ordering::SeqCst)
    }

    /// Says whether it is the peer that has to say something.
    pub(crate) fn set_waits(&self, waits: bool) {
        self.mark
            .waits
            .store(if waits { 1 } else { 0 }, Ordering::SeqCst);
    }

    /// Says that the link gets a reply of status 200 now.
    pub(crate) fn set_served<R: Clock>(&self, rt: &R) {
        let now = self.table.moment(rt);
        self.mark
            .served
            .store(now.saturating_add(1), Ordering::SeqCst);
    }

    /// Gives the place back, and closes the link before anybody else can have its place or its descriptor.
    pub(crate) fn leave<R: Wait, S: Drop>(self, rt: &R, socket: S) {
        let mut places = self.table.places.lock(rt);
        let place = places.taken.remove(&self.number);
        drop(socket);
        drop(place);
    }
}
