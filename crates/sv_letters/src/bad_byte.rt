//! Where reading without memory stops.

/// Why reading without memory stops within a text: at the first byte with which no text goes on, with so many bytes from
/// it to the end.
#[derive(Clone, Copy, PartialEq, Eq)]
pub struct BadByte(pub usize);
