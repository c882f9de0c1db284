//! The methods of the manual's chapter on its XML-RPC interface: what each call is answered, asks for or waits for.
//! `specs/MethodTable.antt` is the table, one row for each method.
#![tactic(auto)]

mod act;
pub mod laws;
mod logs;
pub mod method;
mod params;
pub mod planned;
mod planning;
mod rows;
mod signals;
pub mod stand;

pub use crate::planned::{Aim, Asked, Planned, ReadShape, Request, Waiting};
pub use crate::planning::plan;
pub use crate::stand::Stand;
