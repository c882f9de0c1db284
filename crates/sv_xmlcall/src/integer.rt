//! Integers and booleans.
ghost use Rattle.std.specs.Prelude.{◌≡◌, ◌<◌, ◌≤◌, length, false, IfOk};
ghost use Rattle.sv_xmlcall.specs.Machine.{most_of};
ghost use Rattle.sv_xmlcall.specs.Spelled.{signed};
ghost use Rattle.sv_xmlcall.specs.Outcome.{GivesAlways};
ghost use Rattle.sv_xmlcall.specs.Reading.{size_from, size_at, integer_at, digit_at, truth_at};

use crate::atoms::shut;
use crate::tag::Tag;
use sv_letters::BadByte;

/// The greatest size of an integer of 64 bits with this sign.
fn most_of(negative: bool) -> u64
    ensures { result ≡ most_of negative }
{
    if negative {
        9_223_372_036_854_775_808
    } else {
        9_223_372_036_854_775_807
    }
}

/// The integer of this sign and size.
fn signed(negative: bool, size: u64) -> i64
    requires { size ≤ most_of negative }
    ensures { result ≡ signed negative size }
{
    if !negative {
        size as i64
    } else if size == 0 {
        0
    } else {
        -1 - (size - 1) as i64
    }
}

/// Reads digits, of which there is at least one.
fn size(negative: bool, bytes: &[u8]) -> Result<(u64, &[u8]), BadByte>
    ensures value { GivesAlways (λ number. (number.0, number.1.now)) result
        (size_from negative false 0 bytes.now) }
    ensures bound { IfOk result (λ x. x.0 ≤ most_of negative) }
    ensures shorter { IfOk result (λ x. length x.1.now ≤ length bytes.now) }
{
    let mut number: u64 = 0;
    let mut seen = false;
    let mut rest = bytes;
    while let [byte, after @ ..] = rest {
        if !byte.is_ascii_digit() {
            return if seen {
                Ok((number, rest))
            } else {
                Err(BadByte(rest.len()))
            };
        }
        let more = u128::from(number) * 10 + u128::from(*byte - b'0');
        if more > u128::from(most_of(negative)) {
            return Err(BadByte(rest.len()));
        }
        number = more as u64;
        seen = true;
        rest = after;
    }
    Err(BadByte(0))
}

/// Reads an optional sign and digits.
fn sized(bytes: &[u8]) -> Result<(bool, u64, &[u8]), BadByte>
    ensures value { GivesAlways (λ x. (x.0, (x.1, x.2.now))) result (size_at bytes.now) }
    ensures bound { IfOk result (λ x. x.1 ≤ most_of x.0) }
    ensures shorter { IfOk result (λ x. length x.2.now ≤ length bytes.now) }
{
    match bytes {
        [b'-', digits @ ..] => {
            let (size, rest) = size(true, digits)?;
            Ok((true, size, rest))
        }
        [b'+', digits @ ..] => {
            let (size, rest) = size(false, digits)?;
            Ok((false, size, rest))
        }
        _ => {
            let (size, rest) = size(false, bytes)?;
            Ok((false, size, rest))
        }
    }
}

/// Reads an optional sign and digits, and the closing tag.
#[tactic(auto, unfolding(crate::specs::Reading::integer_at))]
pub fn integer(end: Tag, bytes: &[u8]) -> Result<(i64, &[u8]), BadByte>
    ensures value { GivesAlways (λ x. (x.0, x.1.now)) result (integer_at end bytes.now) }
    ensures shorter { IfOk result (λ x. length x.1.now < length bytes.now) }
{
    let (negative, size, rest) = sized(bytes)?;
    let rest = shut(end, rest)?;
    Ok((signed(negative, size), rest))
}

fn digit(bytes: &[u8]) -> Result<(bool, &[u8]), BadByte>
    ensures value { GivesAlways (λ x. (x.0, x.1.now)) result (digit_at bytes.now) }
    ensures shorter { IfOk result (λ x. length x.1.now < length bytes.now) }
{
    match bytes {
        [b'0', rest @ ..] => Ok((false, rest)),
        [b'1', rest @ ..] => Ok((true, rest)),
        _ => Err(BadByte(bytes.len())),
    }
}

/// Reads `0` or `1`, and the closing tag.
#[tactic(auto, unfolding(crate::specs::Reading::truth_at))]
pub fn truth(bytes: &[u8]) -> Result<(bool, &[u8]), BadByte>
    ensures value { GivesAlways (λ x. (x.0, x.1.now)) result (truth_at bytes.now) }
    ensures shorter { IfOk result (λ x. length x.1.now < length bytes.now) }
{
    let (truth, rest) = digit(bytes)?;
    let rest = shut(Tag::EndBoolean, rest)?;
    Ok((truth, rest))
}
