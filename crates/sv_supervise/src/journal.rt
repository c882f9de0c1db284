//! The journal that a daemon writes: its header, and after that the line of each input with those of its orders, each after a mark.
mod header;
mod lines;

pub use header::header_text;
pub use lines::{HeaderFault, JournalLines};
