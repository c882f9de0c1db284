//! What a call gave: the value alone, without what its contract says of it.

use crate::checks::check;
use std::alloc::AllocError;
use std::process::Abort;

/// What was made, for which there is memory.
pub fn made<T>(rt: &impl Abort, outcome: Result<T, AllocError>) -> T {
    outcome.expect(rt, "memory")
}

/// What was found, which is there.
pub fn found<T>(rt: &impl Abort, option: Option<T>, what: &str) -> T {
    option.expect(rt, what)
}

/// The text is the one that is wanted.
pub fn is_text(rt: &impl Abort, text: &str, wanted: &str) {
    check(rt, text == wanted);
}
