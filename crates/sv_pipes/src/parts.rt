//! What is decided of a captured stream.

use sv_base::bytes::Bytes;

/// What a piece of a captured stream decides.
#[derive(Drop)]
pub enum Part {
    /// Bytes for the log, at least one.
    Logged(Bytes),
    /// The last bytes between the marks.
    Message(Bytes),
}

/// Where a captured stream is: outside the marks, or between BEGIN and END.
#[derive(Clone, Copy, PartialEq, Eq)]
pub enum Side {
    Outside,
    Inside,
}
