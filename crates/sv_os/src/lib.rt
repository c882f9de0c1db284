//! The thin edge to the system that every program has: streams over std's readers and writers, the clock, the machine, its
//! users and groups, and the words of a call. A stream counts its errors, and tells of its content what its reader or writer does; the clock tells
//! nothing.
#![tactic(auto)]

mod accounts;
mod clock;
mod host;
mod streams;
mod words;

pub use accounts::{Owner, main_group_of, number_of, owner_of};
pub use clock::{OsClock, moment_of};
pub use host::{directory_of, environment_of, host_of};
pub use streams::{ReadSource, WriteSink, read_some, write_some};
pub use words::{words_of, words_untold};
