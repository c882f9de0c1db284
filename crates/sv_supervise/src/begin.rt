//! What a daemon begins with: its configuration and the sizes of the log files that it names, read from a shelf; or the outcome where
//! that can't be read.
mod beginning;
mod laws;

pub use beginning::{Beginning, beginning_of};
pub use laws::files_are_read_in_one_way;
