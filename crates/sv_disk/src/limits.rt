//! How many descriptors the process may have.

use std::fs;
use std::rt::Files;

/// Where Linux tells the limits of the process.
const LIMITS: &str = "/proc/self/limits";

/// What is assumed where the system doesn't tell.
const UNTOLD: u64 = 1_024;

/// How many descriptors the process may have.
pub(crate) fn descriptors<R: Files + AllocGlobal>(rt: &R) -> u64 {
    match fs::read_to_string(rt, LIMITS) {
        Ok(text) => descriptors_of(text.as_str()).unwrap_or(UNTOLD),
        Err(_) => UNTOLD,
    }
}

/// The limit that counts, in the line `Max open files SOFT HARD files`.
fn descriptors_of(limits: &str) -> Option<u64> {
    let line = limits
        .lines()
        .find_map(|line| line.strip_prefix("Max open files"))?;
    line.split_whitespace().next()?.parse::<u64>().ok()
}
