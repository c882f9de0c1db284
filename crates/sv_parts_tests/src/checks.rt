//! What the tests demand. A test that holds values compares by a call, which is proved once, in place of a branch of its own.

use std::process::Abort;

/// Ends the test unless this is so.
pub(crate) fn check(rt: &impl Abort, is: bool) {
    assert!(rt; is);
}
