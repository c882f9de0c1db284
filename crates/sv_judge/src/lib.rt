//! What a line of a journal is at its place: a line of the header, an input for the machine, or an order that is passed
//! over.
#![tactic(auto)]

mod judging;
mod long;
mod short;
mod sizes;

pub use judging::{JournalProgress, Refused};
pub use long::LongPlace;
pub use short::{config_of, group_of, host_at};
pub use sizes::Sizes;
