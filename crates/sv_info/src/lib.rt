//! What the daemon's methods say of a process: the faults with their texts, the struct of a process, a row of a status array.
//! Each has one definition, in `specs/`, and one function that meets it.
#![tactic(auto)]

mod describe;
pub mod fault;
pub mod info;
pub mod laws;
mod members;
mod times;

pub use crate::fault::Fault;
pub use crate::info::{process_info, status_row};
pub use crate::laws::{fourteen_members, worked_texts};
