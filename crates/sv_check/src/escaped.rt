//! Values in a line: what would break the line is escaped.

use std::alloc::AllocError;

/// Adds a value, with `\n` for a line feed, `\r` for CR, `\t` for a tab and `\\` for a backslash.
pub fn put_escaped(out: &mut String, value: &str) -> Result<(), AllocError> {
    for c in value.chars() {
        match c {
            '\n' => out.push_str("\\n")?,
            '\r' => out.push_str("\\r")?,
            '\t' => out.push_str("\\t")?,
            '\\' => out.push_str("\\\\")?,
            c => out.push(c)?,
        }
    }
    Ok(())
}
