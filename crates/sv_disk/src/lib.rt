//! The files of the machine: a shelf over them for who reads, and the daemon's, which keeps its logs open and tells what it
//! loses. Each counts its errors, and tells nothing of what a file holds.
#![tactic(auto)]

mod daemon_shelf;
mod disk;
mod faults;
mod keeping;
mod kinds;
mod limits;
mod lines;
mod listing;
mod logs;
mod losses;
mod opening;
mod parts;
mod plain;
mod refusal;
mod rules;
mod standard;
mod writing;

pub use daemon_shelf::DaemonShelf;
pub use disk::OsShelf;
pub use keeping::most_kept;
pub use lines::{again_line, lost_line, redirected_line, unrotated_line};
pub use opening::mode_under;
pub use parts::span_of;
pub use rules::LogRules;
pub use standard::{Standard, descriptor_named, standard_named};
