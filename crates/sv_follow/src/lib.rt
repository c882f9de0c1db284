//! Following a log (the manual's action `tail -f`): what a process writes to one of its logs is printed as it comes, by the
//! daemon's tail methods, one call a second.
//!
//! Each byte that is appended is printed once or told as lost; that the log was rotated is told too.
#![tactic(auto)]

pub mod commanding;
pub mod follower;
pub mod following;
mod heard;
pub mod laws;
mod log_words;
mod notices;
mod tails;

pub use commanding::command;
pub use follower::{Follower, Shown};
pub use following::follow;
