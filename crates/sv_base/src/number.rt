//! Whole numbers that keep their limits.
ghost use Rattle.std.specs.Prelude.{◌≡◌, ◌+◌, ◌≤◌, ◌↔◌, IsSome, IfSome, min};

use std::marker::Model;

/// A whole number of at least `LEAST` and at most `MOST`, which contracts see as the number.
#[derive(Clone, Copy, PartialEq, Eq, PartialOrd, Ord)]
pub struct Within<const LEAST: u32, const MOST: u32> {
    number: u32,
}

impl<const LEAST: u32, const MOST: u32> Model for Within<LEAST, MOST> {
    ghost use Rattle.std.specs.Prelude.{ℕ, ◌≤◌};

    ghost Value = { ℕ };

    ghost view = { λ a. a.number };

    ghost invariant = { λ a. (LEAST ≤ a.number) × (a.number ≤ MOST) };

    ghost inverse = { λ n. record { number = n } };
}

impl<const LEAST: u32, const MOST: u32> Within<LEAST, MOST> {
    /// The number, or `None` exactly where it is outside the limits.
    pub fn new(number: u32) -> Option<Self>
        ensures valid { IsSome result ↔ ((LEAST ≤ number) × (number ≤ MOST)) }
        ensures value { IfSome result (λ a. a ≡ number) }
    {
        if LEAST <= number && number <= MOST {
            Some(Within { number })
        } else {
            None
        }
    }

    /// The least of these numbers.
    pub fn least() -> Self
        requires { LEAST ≤ MOST }
        ensures { result ≡ LEAST }
    {
        Within { number: LEAST }
    }

    /// The plain number.
    pub fn get(self) -> u32
        ensures value { result ≡ self.entry }
        ensures least { LEAST ≤ result }
        ensures most { result ≤ MOST }
    {
        self.number
    }

    /// One more, but never more than `MOST`.
    pub fn one_more(self) -> Self
        ensures { result ≡ min (self.entry + 1) MOST }
    {
        Within {
            number: self.number.saturating_add(1).min(MOST),
        }
    }
}

/// Seconds of `startsecs` and `stopwaitsecs`.
pub type Seconds = Within<0, 1_000_000>;

/// A number of retries, `startretries`.
pub type Retries = Within<0, 1_000_000>;

/// Failed starts in a row: one more than the most retries, and there it stops.
pub type Tries = Within<0, 1_000_001>;

/// How many rotated files of a log are kept.
pub type Backups = Within<0, 1_000>;

/// The most bytes that one captured message holds; 0 is no capture.
pub type CaptureBytes = Within<0, 16_777_216>;

/// How many events a pool can hold waiting.
pub type BufferSize = Within<1, 65_536>;

/// The number of a process that runs.
pub type Pid = Within<1, 4_294_967_295>;

/// The number of a signal that ended a process.
pub type ExitSignal = Within<1, 64>;
