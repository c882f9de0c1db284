//! HTTP: what a link's stream asks, and the text of a reply; for the client the text of a request, and what reply a
//! stream holds.
//!
//! The reader takes a stream in pieces, cut anywhere, and keeps only bytes that are not decided yet. It stands for the
//! whole stream so far: what it answers is what is new in the one list of asks of that stream.
#![tactic(auto)]

pub mod ask;
mod fields;
pub mod guard;
mod head;
pub mod laws;
mod line;
pub mod reader;
pub mod reply;
pub mod reply_reader;
pub mod sendable;
pub mod sending;
pub mod status;
mod verdict;

pub use crate::ask::Ask;
pub use crate::guard::Guard;
pub use crate::reader::HttpReader;
pub use crate::reply_reader::{Replied, ReplyFault, ReplyReader};
pub use crate::sending::request;
pub use crate::status::{Refusal, Status};
