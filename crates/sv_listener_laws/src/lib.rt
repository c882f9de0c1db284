//! Laws over both ends of the talk between a daemon and an event listener.
#![tactic(auto)]

pub mod laws;

pub use laws::both_ends_keep_in_step;
