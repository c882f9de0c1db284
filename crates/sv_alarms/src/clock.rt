//! The clock of the ticker.
ghost use Rattle.std.specs.Prelude.{◌≡◌, None};

use crate::alarms::Alarms;
use std::rt;
use std::sync::Wait;
use sv_base::Moment;
use sv_os::OsClock;
use sv_outside::Clock;

/// The machine's clock, whose pauses end early where there is a reason to look, if it has alarms. It tells nothing.
pub struct AlarmClock<R> {
    clock: OsClock<R>,
    alarms: Option<Alarms<R>>,
}

impl<R: Drop> Drop for AlarmClock<R> {
    fn drop(self) {
        let Self {
            clock: _,
            alarms: _,
        } = self;
    }
}

impl<R> AlarmClock<R> {
    /// The moments of this clock, with pauses that end by these alarms, where there are any.
    pub fn new(clock: OsClock<R>, alarms: Option<Alarms<R>>) -> AlarmClock<R>
        ensures { result.clock ≡ clock }
    {
        AlarmClock { clock, alarms }
    }
}

impl<R: Wait + rt::Clock + Copy> Clock for AlarmClock<R> {
    ghost next = { λ _. None };

    ghost paused = { λ _. None };

    fn now(&mut self) -> Moment {
        self.clock.now()
    }

    fn pause(&mut self, milliseconds: u32) {
        match &mut self.alarms {
            Some(alarms) => alarms.wait(milliseconds),
            None => self.clock.pause(milliseconds),
        }
    }
}
