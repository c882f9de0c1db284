//! What the values of settings stand for.
ghost use Rattle.std.specs.Prelude.{◌≡◌};

/// The rights of a file that octal digits stand for, from 0 to 0o7777.
pub fn mode_of(text: &str) -> Option<u32> {
    if !text.bytes().all(|digit| digit.is_ascii_digit()) {
        return None;
    }
    u32::from_str_radix(text, 8)
        .ok()
        .filter(|mode| *mode <= 0o7777)
}

/// The whole number that decimal digits stand for.
pub fn whole_of(text: &str) -> Option<u64> {
    if !text.bytes().all(|digit| digit.is_ascii_digit()) {
        return None;
    }
    text.parse::<u64>().ok()
}
