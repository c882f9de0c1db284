//! One child: a process that the daemon starts, watches, stops and starts again (the manual's chapter on
//! subprocesses). Each call answers what the child table says, with edges of the diagram of states; none refuses
//! anything, and none takes memory.
#![tactic(auto)]

pub mod child;
pub mod laws;
mod moves;
mod rewind;
pub mod step;

pub use crate::child::Child;
pub use crate::laws::{each_life_is_a_walk, worked_lives};
pub use crate::step::{ChildDeed, Edge, Step};
