//! The sections of a configuration: those of a text and of the texts that it includes, what the sections of the daemon, its
//! servers and its client tell, and the faults of a configuration.
#![tactic(auto)]

pub mod fault;
pub mod includes;
mod joined;
mod keyed;
pub mod programs;
pub mod section_faults;
pub mod sections;
pub mod server;

pub use crate::fault::ConfFault;
