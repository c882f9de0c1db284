//! The numbers of children, links and runs.
/// A child's place in the start order, counted from 0.
#[derive(Clone, Copy, Debug, PartialEq, Eq, PartialOrd, Ord)]
pub struct ChildId(pub u32);

/// The number of an accepted connection: 1, 2, 3 over the daemon's life.
#[derive(Clone, Copy, PartialEq, Eq, PartialOrd, Ord)]
pub struct LinkId(pub u32);

/// The number of a spawn: 1, 2, 3 over the daemon's life.
#[derive(Clone, Copy, PartialEq, Eq, PartialOrd, Ord)]
pub struct Run(pub u32);
