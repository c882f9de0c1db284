//! The machine's clock.
ghost use Rattle.std.specs.Prelude.{◌≡◌, ◌/◌, None, min};
ghost use Rattle.std.specs.Duration.{as_nanos};
ghost use Rattle.sv_base.specs.Limits.{moment_limit};

use std::time::Duration;
use std::{rt, thread};
use sv_base::{MOMENT_LIMIT, Moment};
use sv_outside::Clock;

/// The machine's clock; it tells nothing. It gives the moment 0 where the machine tells no time since the beginning of
/// 1970, and the greatest moment where the machine's time is past it.
#[derive(Drop)]
pub struct OsClock<R> {
    rt: R,
}

impl<R: rt::Clock> OsClock<R> {
    /// The clock of this machine.
    pub fn new(rt: R) -> OsClock<R> {
        OsClock { rt }
    }
}

impl<R: rt::Clock> Clock for OsClock<R> {
    ghost next = { λ _. None };

    ghost paused = { λ _. None };

    fn now(&mut self) -> Moment {
        match self.rt.since_1970() {
            Ok(since) => moment_of(since),
            Err(_) => Moment::zero(),
        }
    }

    fn pause(&mut self, milliseconds: u32) {
        thread::sleep(&self.rt, Duration::from_millis(u64::from(milliseconds)));
    }
}

/// The moment at this time after the beginning of 1970, and at most the greatest one.
pub fn moment_of(since: Duration) -> Moment
    ensures { result ≡ min (as_nanos since / 1_000_000) moment_limit }
{
    let milliseconds = since.as_millis().min(u128::from(MOMENT_LIMIT)) as u64;
    match Moment::new(milliseconds) {
        Some(moment) => moment,
        None => Moment::zero(),
    }
}
