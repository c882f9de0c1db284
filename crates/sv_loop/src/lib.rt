//! The top calls: a recorded journal, or a generated run, through the daemon's machine.
#![tactic(auto)]

mod cutting;
mod generating;
mod laws;
mod orders;
mod replaying;
mod run;
mod run_line;

pub use laws::each_row_tells_deeds;
pub use replaying::{JOURNAL_LIMIT, replay};
