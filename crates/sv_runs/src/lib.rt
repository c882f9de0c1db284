//! The runs of processes: which child each is of, and what a listener says in its run. A run is kept until its process and
//! both its pipes ended, and is found by its number in logarithmic time.
#![tactic(auto)]

mod open_run;
mod runs;
pub mod streams;

pub use runs::Runs;
