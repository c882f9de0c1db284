//! The clock: what time it is, and pauses.
ghost use Rattle.std.specs.Prelude.{◌≡◌, ◌≤◌, ◌∷◌, [], ℕ, List, Option, IfOk, MatchOption, None};
ghost use Rattle.std.specs.Prelude.{Some, length, vec_capacity, if◌then◌else◌};
ghost use Rattle.std.specs.Option.{ForSome};
ghost use Rattle.sv_outside.specs.Told.{GrowsWhileTold};

use std::alloc::{AllocError, Global};
use std::collections::VecDeque;
use sv_base::Moment;

/// A clock. One that can, tells the moment that it gives next; and the pauses that it was asked for, in order, as long
/// as it has room for them. It has no faults and takes no memory.
pub trait Clock {
    ghost next: { Self → Option ℕ };

    ghost paused: { Self → Option (List ℕ) };

    /// The present moment.
    fn now(&mut self) -> Moment
        ensures told { ForSome (next self.old) (λ moment. result ≡ moment) }
        ensures paused { paused self.new ≡ paused self.old };

    /// Lets so many milliseconds pass.
    fn pause(&mut self, milliseconds: u32)
        ensures paused { GrowsWhileTold (paused self.old) (paused self.new) (milliseconds ∷ []) }
        ensures next { next self.new ≡ next self.old };
}

/// A clock in memory: it gives the moments of a list in turn, and then its last one again. It doesn't wait in a pause.
#[derive(Drop)]
pub struct FixedClock {
    next: Moment,
    later: VecDeque<Moment>,
    pauses: Vec<u32>,
    room: usize,
    told: bool,
    ghost within: { length pauses.items ≤ room },
    ghost reserved: { room ≤ vec_capacity pauses },
}

impl FixedClock {
    ghost use Rattle.sv_outside.specs.Clocks.{moments_left, pauses_room, told_pauses};

    /// A clock that gives `first` and then those of `later`, with room to tell so many pauses.
    pub fn new(
        alloc: Global,
        first: Moment,
        later: VecDeque<Moment>,
        room: usize,
    ) -> Result<FixedClock, AllocError>
        ensures moments { IfOk result (λ clock. moments_left clock ≡ first ∷ later.items) }
        ensures paused { IfOk result (λ clock. told_pauses clock ≡ Some []) }
        ensures room { IfOk result (λ clock. pauses_room clock ≡ room) }
    {
        Ok(FixedClock {
            next: first,
            later,
            pauses: Vec::with_capacity(alloc, room)?,
            room,
            told: true,
        })
    }

    /// The pauses that it was asked for, or `None` where there were more than it has room for.
    pub fn pauses(&self) -> Option<&[u32]>
        ensures { MatchOption result (told_pauses self.now ≡ None)
            (λ pauses. told_pauses self.now ≡ Some pauses.now) }
    {
        if self.told {
            Some(self.pauses.as_slice())
        } else {
            None
        }
    }
}

impl Clock for FixedClock {
    ghost use Rattle.sv_outside.specs.Clocks.{after_moment, moments_left, next_moment, pauses_room};
    ghost use Rattle.sv_outside.specs.Clocks.{told_pauses, with_pause};

    ghost next = { λ c. Some c.next };

    ghost paused = { λ c. if c.told then Some c.pauses.items else None };

    fn now(&mut self) -> Moment
        ensures told { ForSome (next_moment self.old) (λ moment. result ≡ moment) }
        ensures paused { told_pauses self.new ≡ told_pauses self.old }
        ensures moments { moments_left self.new ≡ after_moment (moments_left self.old) }
        ensures room { pauses_room self.new ≡ pauses_room self.old }
    {
        let now = self.next;
        if let Some(next) = self.later.pop_front() {
            self.next = next;
        }
        now
    }

    fn pause(&mut self, milliseconds: u32)
        ensures paused { GrowsWhileTold (told_pauses self.old) (told_pauses self.new) (milliseconds ∷ []) }
        ensures next { next_moment self.new ≡ next_moment self.old }

        // A pause is told exactly while there is room.
        ensures exact { told_pauses self.new
            ≡ with_pause (pauses_room self.old) milliseconds (told_pauses self.old) }
        ensures moments { moments_left self.new ≡ moments_left self.old }
        ensures room { pauses_room self.new ≡ pauses_room self.old }
    {
        if !self.told {
            return;
        }
        if self.pauses.len() < self.room {
            self.pauses.push_reserved(milliseconds);
        } else {
            self.told = false;
        }
    }
}
