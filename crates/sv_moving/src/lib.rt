//! What a configuration of Supervisor means here: a second reading of its text, as Supervisor 4.2.5 reads it, and where
//! the two readings differ.
#![tactic(auto)]

mod comments;
pub mod compared;
mod cures;
mod curing;
mod cuts;
mod draft;
pub mod keys;
mod kind;
pub mod meaning;
pub mod reader;
pub mod refusal;
pub mod rows;
pub mod sections;
mod spaces;
pub mod table;
mod there;
mod value;

pub use compared::{Difference, differences};
pub use curing::cured;
pub use keys::{Entry, Keys, Spot};
pub use meaning::{Meaning, all_here, all_there};
pub use refusal::Refusal;
pub use rows::{Row, Test};
pub use sections::{Section, Sections};
pub use table::ROWS;
pub use there::read_there;
