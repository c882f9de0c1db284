//! When the ticker looks before its second is over: a pause of the clock ends early where a program was started or told to
//! stop, or a time ends that it has for that.
#![tactic(auto)]

mod alarms;
mod clock;
mod spawner;

pub use alarms::{Alarms, Bell, Times};
pub use clock::AlarmClock;
pub use spawner::AlarmedSpawner;
