//! The daemon's loop: each input that a world gives goes to the machine, what comes of it is told in a journal, and the orders are
//! handed to the world. The machine and the journal's lines are those of whoever calls it.
mod engine;
mod lines;
mod serving;

pub use engine::Engine;
pub use lines::Lines;
pub use serving::{End, serve};
