//! The sections of a configuration text, as the manual's chapter on the configuration file tells it.
//!
//! A text is accepted as what it says, or refused with its first fault: its sections in order of first
//! appearance, the keys of each with their last values.
#![tactic(auto)]

mod cuts;
mod draft;
pub mod fault;
mod kind;
pub mod laws;
mod reading;
pub mod section;
pub mod sections;
mod value;

pub use fault::IniFault;
pub use section::Section;
pub use sections::TEXT_LIMIT;
