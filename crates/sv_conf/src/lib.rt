//! The configuration that the daemon runs on, as the manual's chapter on the configuration file tells it.
//!
//! A text and the texts that it includes are accepted as the configuration that they spell, with each default, or
//! refused with their first fault.
#![tactic(auto)]

pub mod config;
pub mod counted;
pub mod crowd;
pub mod duplicates;
mod groups;
pub mod laws;
mod once;
mod promised;
mod sections;
pub mod sorting;

pub use crate::crowd::count_all;
pub use crate::laws::{accepted_groups_are_a_roster, too_many_exactly_past_the_limits};
pub use crate::promised::is_crowded;
