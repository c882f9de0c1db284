//! Why a line is refused.
use thiserror::Error;

/// Why a line is refused.
#[derive(Clone, Copy, Debug, PartialEq, Eq, Error)]
pub enum LineFault {
    /// The line is outside the grammar of its place: the length of its longest prefix with which a good line begins,
    /// but at most 4,194,304.
    #[error("bad line at column {0}")]
    BadLine(usize),
    /// Out of memory.
    #[error("out of memory")]
    OutOfMemory,
}
