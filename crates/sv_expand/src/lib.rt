//! The three small languages inside the values of a configuration: a command's words, pairs of a name
//! and a value, and expansions such as `%(program_name)s`.
#![tactic(auto)]

pub mod expand;
mod expanding;
pub mod fault;
pub mod laws;
pub mod names;
mod pairing;
pub mod pairs;
mod split;
pub mod words;

pub use fault::{ExpandFault, PairFault, WordFault};
pub use names::{NamedTexts, Names, number_of, text_of};
