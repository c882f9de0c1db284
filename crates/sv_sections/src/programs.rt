//! The processes of the sections of programs and listeners, in the groups that they belong to.
pub mod homes;
pub mod processes;
pub mod programs;

pub use crate::programs::programs::all_parts;
