//! Who is in which group, what a name of a command finds, and in which order things start and stop. A roster keeps
//! its groups in start order by its type, and each call answers what the definitions say of that list; a process is
//! known by its place in the start order of all.
#![tactic(auto)]

mod changes;
mod fault;
mod lookup;
mod names;
mod order;
mod seat;

pub use fault::GroupFault;
pub use lookup::Found;
pub use order::{Roster, Span, next_to_stop};
