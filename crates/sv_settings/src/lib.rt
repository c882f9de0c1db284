//! What a configuration says to the edge of the daemon alone: keys of its own section and of its Unix server's by which the
//! machine makes no order.
#![tactic(auto)]

mod settings;
mod values;

pub use settings::{Settings, settings_of};
pub use values::{mode_of, whole_of};
