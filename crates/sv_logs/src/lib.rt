//! Logs: what one append does to the files of a log, which bytes a reader of a log asks for, and the one text
//! of each line of the main log.
//!
//! Carried out one after the other on the files, the orders of an append leave what the manual's chapter on
//! logging says: the log grows, and from its greatest size on it is rotated through its backups. Spans are
//! exact for every offset and length, and take no memory.
#![tactic(auto)]

mod carrying;
pub mod dates;
pub mod known;
pub mod laws;
pub mod line;
mod opening;
pub mod plan;
pub mod spans;

pub use crate::dates::{Day, date_of};
pub use crate::known::KnownSizes;
pub use crate::laws::each_file_has_what_was_logged;
pub use crate::line::main_line;
pub use crate::plan::LogPlan;
pub use crate::spans::{BadArguments, SPAN_LIMIT, Span, read_span, tail_span};
