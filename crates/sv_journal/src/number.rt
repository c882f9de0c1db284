//! Decimal numbers without leading zeros.
ghost use Rattle.std.specs.Prelude.{◌<◌, ◌≤◌, ◌^◌, IfOk, length};
ghost use Rattle.sv_journal.specs.Reading.{GivesAlways, number_at};

use sv_letters::BadByte;

/// Reads a number of at least `least`, which is 0 or 1, and at most `limit`, in decimal without leading zeros.
pub fn number(least: u64, limit: u64, bytes: &[u8]) -> Result<(u64, &[u8]), BadByte>
    requires low { 9 ≤ limit }
    requires high { limit < 2 ^ 64 }
    ensures value { GivesAlways (λ x. (x.0, x.1.now)) result (number_at least limit bytes.now) }
    ensures bound { IfOk result (λ x. x.0 ≤ limit) }
    ensures shorter { IfOk result (λ x. length x.1.now < length bytes.now) }
    ensures begin { IfOk result (λ x. least ≤ 1 → least ≤ x.0) }
{
    let [first, after @ ..] = bytes else {
        return Err(BadByte(0));
    };
    if !first.is_ascii_digit() || u64::from(*first - b'0') < least {
        return Err(BadByte(bytes.len()));
    }
    let mut value = u64::from(*first - b'0');
    let mut rest = after;
    while let [digit, after @ ..] = rest {
        if !digit.is_ascii_digit() || value == 0 {
            break;
        }
        let digit = u64::from(*digit - b'0');
        if value > (limit - digit) / 10 {
            break;
        }
        value = value * 10 + digit;
        rest = after;
    }
    Ok((value, rest))
}
