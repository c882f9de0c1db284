//! The machine: it takes one input at a time and answers with the orders that the manual's daemon gives. It knows no
//! file, socket, thread or clock. A turn goes through named steps, in the same order in the model (`specs/Turn.antt`)
//! and in the code; it stops at a question, and its answer goes on with it.
#![tactic(auto)]

mod calling;
mod course;
mod events;
mod failure;
mod hand;
mod handing_out;
mod listening;
mod logging;
pub mod machine;
mod numbers;
mod openings;
mod output;
mod part;
mod place;
mod plan;
mod requesting;
mod serving;
mod stimulus;
mod sweeping;
mod turn;

pub use crate::machine::Machine;
