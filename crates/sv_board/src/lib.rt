//! The board of states: one thread reports the states of processes, others read them without a lock. Each read is the
//! board of a prefix of what was reported, no shorter than each earlier read of its reader or a ticket that it learnt.
#![tactic(auto)]

mod home;
mod making;
mod reader;
mod role;
mod row;
mod rule;
mod shown;
mod ticket;
mod writer;

pub use making::board;
pub use reader::BoardReader;
pub use row::{Report, Row};
pub use ticket::Ticket;
pub use writer::BoardWriter;
