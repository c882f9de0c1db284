//! The keys of a configuration's sections: the table of the keys, the ways to read their values, and the names that
//! stand in them (the manual's chapter on the configuration file).
#![tactic(auto)]

pub mod cuts;
pub mod environment;
pub mod judged;
pub mod key;
pub mod names;
pub mod rows;
pub mod server_keys;
pub mod table;
pub mod titles;
pub mod values;

pub use crate::judged::{Cause, Judged, KeyFault, Unread};
pub use crate::key::Key;
pub use crate::rows::{Reading, needed, row, value_at};
