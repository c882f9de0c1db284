//! A generated run of the machine: its inputs are drawn one after the other, each spawn is answered, and the orders are
//! counted; and the numbers that it draws.
#![tactic(auto)]

mod begin;
mod counts;
mod draw;
mod generated;
mod inputs;
pub mod laws;
mod taking;

pub use begin::generate;
pub use counts::Counts;
pub use draw::Draw;
pub use generated::{DRAW_LIMIT, Generated, PROGRAMS};
pub use inputs::program_name;
pub use taking::run;
