//! What a pass of the board stands for.

use crate::row::Report;
use std::collections::LinkedList;

/// What a pass of the board stands for, and what it knows of the reports. No value of it is made.
pub enum Role {
    /// A reader's pass, a ticket's, or that of a writer that has reported nothing: a prefix of what was reported.
    Reading { seen: LinkedList<Report> },
    /// The writer's pass: all that was reported.
    Writing { reported: LinkedList<Report> },
}
