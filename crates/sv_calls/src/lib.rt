//! The calls in hand of the links: the parts of several calls in one, the requests of a method that acts, what it waits for,
//! and what the call is answered in the end. Nothing here carries a request out. A call is found by its link's number in
//! logarithmic time.
#![tactic(auto)]

mod answer;
pub mod answers;
mod call_in_hand;
mod calls;
mod setback;
mod several;
mod task;
mod waits;

pub use crate::waits::check;
pub use answer::Answer;
pub use calls::Calls;
pub use setback::Setback;
