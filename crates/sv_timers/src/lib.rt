//! What is due: at most one deadline for each child, and the children whose deadline has come, in start order. Setting and
//! clearing a deadline takes no memory, and as many steps as the tree of deadlines is high.
#![tactic(auto)]

pub mod agenda;
pub mod due;
mod list;
mod looked;
mod row;
mod tree;

pub use crate::agenda::{Agenda, Next};
pub use crate::due::Due;
pub use crate::looked::Looked;
pub use crate::row::Rows;
