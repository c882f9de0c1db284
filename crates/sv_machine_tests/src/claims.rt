//! What a test claims.
use std::process::Abort;

/// This holds at this number.
pub fn holds_at(rt: &impl Abort, claim: bool, number: u64) {
    assert!(rt; claim, "{number}");
}

/// Whether these digits write the number.
pub fn is_number(digits: &str, number: u64) -> bool {
    digits.parse::<u64>() == Ok(number)
}

/// The number that these digits write; 0 where they write none.
pub fn number_of(digits: &str) -> u32 {
    digits.parse::<u32>().unwrap_or(0)
}

/// The text that these bytes write.
pub fn text_of(bytes: &[u8]) -> &str {
    std::str::from_utf8(bytes).unwrap_or("no text")
}
