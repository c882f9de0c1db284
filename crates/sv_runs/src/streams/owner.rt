//! Whose output it is.

/// The process of a run whose output is kept.
#[derive(Clone, Copy, PartialEq, Eq)]
pub struct Owner {
    /// The place of the process in the start order.
    pub child: usize,
    /// Its process number.
    pub pid: u32,
}
