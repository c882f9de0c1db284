//! Moments and deadlines, in milliseconds since 1970.
ghost use Rattle.std.specs.Prelude.{◌≡◌, ◌+◌, ◌*◌, ◌≤◌, ◌↔◌, IsSome, IsTrue, IfSome, min};
ghost use Rattle.sv_base.specs.Limits.{moment_limit, deadline_limit};

use std::marker::Model;

/// The last moment, in milliseconds.
pub const MOMENT_LIMIT: u64 = 253_000_000_000_000;

/// The last deadline, in milliseconds: the last moment and 1,000,001 seconds.
pub const DEADLINE_LIMIT: u64 = 253_001_000_001_000;

/// A moment: milliseconds since 1970-01-01 00:00:00 UTC, at most 253,000,000,000,000.
#[derive(Clone, Copy, PartialEq, Eq, PartialOrd, Ord)]
pub struct Moment {
    milliseconds: u64,
}

impl Model for Moment {
    ghost use Rattle.std.specs.Prelude.{ℕ, ◌≤◌};
    ghost use Rattle.sv_base.specs.Limits.{moment_limit};

    ghost Value = { ℕ };

    ghost view = { λ a. a.milliseconds };

    ghost invariant = { λ a. a.milliseconds ≤ moment_limit };

    ghost inverse = { λ n. record { milliseconds = n } };
}

impl Moment {
    /// The moment 0, the start of 1970.
    pub fn zero() -> Moment
        ensures { result ≡ 0 }
    {
        Moment { milliseconds: 0 }
    }

    /// The moment after so many milliseconds, or `None` exactly past the last moment.
    pub fn new(milliseconds: u64) -> Option<Moment>
        ensures valid { IsSome result ↔ (milliseconds ≤ moment_limit) }
        ensures value { IfSome result (λ a. a ≡ milliseconds) }
    {
        if milliseconds <= MOMENT_LIMIT {
            Some(Moment { milliseconds })
        } else {
            None
        }
    }

    /// Milliseconds since 1970.
    pub fn milliseconds(self) -> u64
        ensures value { result ≡ self }
        ensures most { result ≤ moment_limit }
    {
        self.milliseconds
    }

    /// The deadline so many seconds later.
    pub fn later(self, seconds: u32) -> Deadline
        requires { seconds ≤ 1000001 }
        ensures { result ≡ self + 1000 * seconds }
    {
        Deadline {
            milliseconds: self.milliseconds + 1_000 * u64::from(seconds),
        }
    }
}

/// A deadline: milliseconds as in a moment, at most 1,000,001 seconds past the last one.
#[derive(Clone, Copy, PartialEq, Eq, PartialOrd, Ord)]
pub struct Deadline {
    milliseconds: u64,
}

impl Model for Deadline {
    ghost use Rattle.std.specs.Prelude.{ℕ, ◌≤◌};
    ghost use Rattle.sv_base.specs.Limits.{deadline_limit};

    ghost Value = { ℕ };

    ghost view = { λ a. a.milliseconds };

    ghost invariant = { λ a. a.milliseconds ≤ deadline_limit };

    ghost inverse = { λ n. record { milliseconds = n } };
}

impl Deadline {
    /// Whether the deadline is reached, which it is at equality.
    pub fn is_reached(self, now: Moment) -> bool
        ensures { IsTrue result ↔ (self ≤ now) }
    {
        self.milliseconds <= now.milliseconds
    }

    /// The earlier of the two.
    pub fn at_most(self, other: Deadline) -> Deadline
        ensures { result ≡ min self other }
    {
        Deadline {
            milliseconds: self.milliseconds.min(other.milliseconds),
        }
    }

    /// Milliseconds since 1970.
    pub fn milliseconds(self) -> u64
        ensures value { result ≡ self }
        ensures most { result ≤ deadline_limit }
    {
        self.milliseconds
    }
}
