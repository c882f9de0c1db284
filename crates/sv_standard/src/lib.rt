//! The daemon's own streams: its console, which never stops it, and its standard output and standard error behind buffers, so
//! that who reads them can't hold it up; over these the journal's sink and what tells of losses.
#![tactic(auto)]

mod console;
mod journal;
mod outlet;
mod signals;
mod teller;

pub use console::Console;
pub use journal::JournalSink;
pub use outlet::{AfterFailure, Outlet, OutletEnd, pour};
pub use signals::signal_set;
pub use teller::Teller;
