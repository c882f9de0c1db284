//! The outside as threads meet it: the clock, the programs that are started, the links that come in, and the gate after
//! which jobs run. Each object that can fail counts its faults, and a call fails only where that count rose in it; an
//! object that can, tells what it was asked for. Each trait has a form in memory.
#![tactic(auto)]

pub use clock::{Clock, FixedClock};
pub use copies::{copy_input, copy_order};
pub use gate::Gate;
pub use handing::{Handed, hand};
pub use hold_gate::HoldGate;
pub use jobs::{Job, JobWord, PumpEnd};
pub use listening::{Listen, ScriptListen};
pub use ready::Ready;
pub use script_spawner::{Program, ScriptSpawner};
pub use script_world::ScriptWorld;
pub use spawner::{Asked, KillFault, Refusal, SpawnFault, Spawner, Started};
pub use waiter::{ScriptWaiter, Waiter};
pub use world::{NextFault, World};

mod calls;
pub mod clock;
mod copies;
pub mod gate;
mod handing;
pub mod hold_gate;
pub mod jobs;
pub mod listening;
mod ready;
pub mod script_spawner;
mod script_world;
pub mod spawner;
pub mod waiter;
mod world;
