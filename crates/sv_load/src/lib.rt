//! How a configuration is read from a shelf: the main file, the names of all its patterns, then the files of these
//! names, each once; and the configuration of these texts, or why there is none.
#![tactic(auto)]

mod fault;
mod listing;
mod loading;
pub mod sizes;
mod texts;

pub use fault::LoadFault;
pub use loading::{Loaded, load};
