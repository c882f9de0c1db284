//! What the writer gives for a report, and a reader learns.

use crate::home::Home;
use std::snapshot::Snapshot;

/// A ticket for a report. A reader that learnt it reads that report and all before it.
#[derive(Drop)]
pub struct Ticket {
    /// How many reports there were, with this one.
    pub(crate) count: u64,
    pub(crate) home: Snapshot<Home>,
}
