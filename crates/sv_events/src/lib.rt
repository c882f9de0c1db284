//! Events as the manual's chapter on events tells of them: which types of event cover which, the one text of each
//! event that a listener program reads, and the ticks of the clock.
#![tactic(auto)]

pub mod covers;
pub mod event;
pub mod fact;
pub mod ticks;
mod write;

pub use crate::covers::parent_of;
pub use crate::event::{Event, each_name_is_read_back, envelope, first_line_feed_ends_the_head};
pub use crate::fact::{Fact, body};
pub use crate::ticks::Ticks;
