//! The children of the daemon in start order, and the step of one of them: what comes to the child of a place, which
//! edges it takes, and the orders that these give. It keeps no turn and asks nothing; which children are gone over, and
//! in which order, is the machine's.
#![tactic(auto)]

mod children;
mod edge_facts;
pub mod laws;
pub mod lines;
mod news;
mod orders;
mod rewind;
mod wake;
mod watch;

pub use crate::children::{Children, Member};
pub use crate::news::{News, Told};
pub use edge_facts::{fact_at, is_expected, kind_of, pid_at};
