//! What the tests demand. A test that holds values compares by a call, which is proved once, in place of a branch of its own.

use std::process::Abort;

/// Ends the test, and names the row, unless these numbers are the same.
pub(crate) fn same_number(rt: &impl Abort, row: &str, found: usize, wanted: usize) {
    assert!(rt; found == wanted, "{row}: {found} is not {wanted}");
}

/// Ends the test, and names the row, unless the text that was found is the one that is wanted.
pub(crate) fn same_text(rt: &impl Abort, row: &str, found: &str, wanted: &str) {
    assert!(rt; found == wanted, "{row}: {found} is not {wanted}");
}

/// Ends the test, and names the row, unless the bytes that were found are those that are wanted.
pub(crate) fn same_bytes(rt: &impl Abort, row: &str, found: &[u8], wanted: &[u8]) {
    assert!(rt; found == wanted, "{row}: other bytes");
}

/// Ends the test, and names the row, unless each pause is of a second.
pub(crate) fn all_seconds(rt: &impl Abort, row: &str, pauses: &[u32]) {
    assert!(rt;
        pauses.iter().all(|pause| *pause == 1_000),
        "{row}: another pause"
    );
}
