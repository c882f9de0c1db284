//! The daemon's call: its words and its configuration are read, its machine begins, inputs are taken from a world and orders handed to
//! it, and a journal of both is written when the words ask for one.
#![tactic(auto)]

pub mod arguments;
pub mod begin;
mod engine;
pub mod journal;
mod laws;
pub mod main_loop;
mod outcome;
mod supervising;

pub use arguments::{Arguments, arguments_of};
pub use laws::{deeds_are_the_machine_s, what_is_read_is_accepted};
pub use outcome::Outcome;
pub use supervising::supervise;
