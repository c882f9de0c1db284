//! The listener's side of the events (the manual's chapter on events): a reader of what an event listener gets on its
//! standard input, the loop of a listener over any handler, and a crash reporter.
#![tactic(auto)]

pub mod events;
mod exits;
mod first;
pub mod handler;
mod header;
pub mod laws;
pub mod listening;
pub mod reporting;
pub mod side;

pub use events::{Heard, HeardFault};
pub use handler::{HandleFault, Handler, Verdict};
pub use listening::{ListenEnd, listen};
pub use reporting::report;
pub use side::ListenerSide;
