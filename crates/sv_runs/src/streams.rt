//! The output of runs, as it comes on their pipes: what is for the log, and what makes a message. A run is kept until both its
//! pipes ended, whatever its process does, and is found by its number in logarithmic time.
mod channel;
pub mod laws;
mod open_run;
mod owner;
mod streams;

pub use owner::Owner;
pub use streams::Streams;
