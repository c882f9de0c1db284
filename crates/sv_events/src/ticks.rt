//! The ticks that clock moments give.
ghost use Rattle.std.specs.Prelude.{◌≡◌, ◌≤◌, ◌<◌, ◌*◌, ◌/◌, IsTrue, None, false};
ghost use Rattle.sv_events.specs.TickSlice.{slice_of, tick, ticks};

use std::marker::Model;
use sv_base::moment::Moment;

/// The clock's slices of 5, 60 and 3,600 seconds. Contracts see it as the last moment that it was told.
#[derive(Drop)]
pub struct Ticks {
    last: Moment,
}

impl Model for Ticks {
    ghost use Rattle.std.specs.Prelude.{ℕ};

    ghost Value = { ℕ };

    ghost view = { λ t. t.last };
}

impl Ticks {
    /// A clock that stands at this moment.
    pub fn new(now: Moment) -> Ticks
        ensures { result ≡ now }
    {
        Ticks { last: now }
    }

    /// Moves the clock to this moment, if no period ticks then: whether it was moved. Longer periods tick only where the
    /// shortest does.
    pub fn moves_within(&mut self, now: Moment) -> bool
        ensures none { IsTrue result → (tick 5 self.old now ≡ None)
            × (tick 60 self.old now ≡ None) × (tick 3600 self.old now ≡ None) }
        ensures moved { IsTrue result → self.new ≡ now }
        ensures kept { result ≡ false → self.new ≡ self.old }
    {
        if tick(5, self.last, now).is_some() {
            return false;
        }
        self.last = now;
        true
    }

    /// The ticks of 5, 60 and 3,600 seconds, in this order: one comes where this moment lies in another slice of its
    /// period than the last moment did, later or earlier, and is the start of that slice in seconds since 1970.
    pub fn at(&mut self, now: Moment) -> [Option<u64>; 3]
        ensures ticks { result ≡ ticks self.old now }
        ensures clock { self.new ≡ now }
    {
        let last = self.last;
        self.last = now;
        [
            tick(5, last, now),
            tick(60, last, now),
            tick(3_600, last, now),
        ]
    }
}

fn tick(seconds: u64, last: Moment, now: Moment) -> Option<u64>
    requires some { 0 < seconds }
    requires hour { seconds ≤ 3600 }
    ensures { result ≡ tick seconds last now }
{
    let old = last.milliseconds() / (1_000 * seconds);
    let new = now.milliseconds() / (1_000 * seconds);
    if old == new {
        None
    } else {
        Some(seconds * new)
    }
}
