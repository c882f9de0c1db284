//! Where a process goes among those of its group, and a group among the groups, so that they stand in start order.
#![tactic(auto)]

pub mod ranks;

pub use crate::ranks::{place, place_for, sorted};
