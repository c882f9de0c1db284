//! The lines of the main log: which of them an edge of a child gives, those of its spawn and its KILL, and that of a full
//! buffer.
mod child_lines;
mod edge_lines;
pub mod line;

pub use crate::lines::child_lines::{killing_at, spawned_at};
pub use crate::lines::edge_lines::{how_of, line_at};
pub use crate::lines::line::{Line, is_written, overflowed, written};
