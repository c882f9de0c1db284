//! Texts and bytes with their escapes.
ghost use Rattle.std.specs.Prelude.{◌≡◌, ◌≢◌, ◌+◌, ◌*◌, ◌<◌, ◌≤◌, IfOk, IsTrue, IsUtf8};
ghost use Rattle.std.specs.Prelude.{IfSome, length};
ghost use Rattle.std.specs.Option.{SomeIff, option_map};
ghost use Rattle.sv_letters.specs.declared.letters.Letters.{Letters};
ghost use Rattle.sv_letters.specs.declared.letters.Awaits.{Awaits};
ghost use Rattle.sv_journal.specs.Spelling.{stands_for_itself};
ghost use Rattle.sv_journal.specs.Tokens.{escapes, is_hex, hex_value, may_begin, is_first_digit};
ghost use Rattle.sv_journal.specs.Tokens.{is_second_digit};
ghost use Rattle.sv_journal.specs.Reading.{Gives, GivesAlways, Stage, first_digit_at};
ghost use Rattle.sv_journal.specs.Reading.{second_digit_at, escape_at, spelled_byte_at, token_from};
ghost use Rattle.sv_journal.specs.Reading.{with_front, is_lone, token_at, last_token_at};

use crate::stop::Stop;
use crate::word::end;
use std::alloc::Global;
use sv_base::bytes::Bytes;
use sv_base::text::Text;
use sv_letters::{Awaits, BadByte, Letters};

/// Whether a token has this byte as it is: `!` to `~`, but for the percent sign.
pub fn stands_for_itself(byte: u8) -> bool
    ensures { result ≡ stands_for_itself byte }
{
    b'!' <= byte && byte <= b'~' && byte != b'%'
}

/// Whether this byte may come and is written as an escape.
fn escapes(letters: Letters, awaits: Awaits, byte: u8) -> bool
    ensures { result ≡ escapes letters awaits byte }
{
    awaits.allows(letters, byte) && !stands_for_itself(byte)
}

/// The value of a hexadecimal digit in upper case.
pub fn hex_value(digit: u8) -> Option<u8>
    ensures value { SomeIff result (IsTrue (is_hex digit)) (hex_value digit) }
    ensures bound { IfSome result (λ value. value < 16) }
{
    match digit {
        b'0'..=b'9' => Some(digit - b'0'),
        b'A'..=b'F' => Some(digit - b'A' + 10),
        _ => None,
    }
}

/// Whether some byte that may come is an escape with this first digit.
fn may_begin(letters: Letters, awaits: Awaits, high: u8) -> bool
    requires { high < 16 }
    ensures { result ≡ may_begin letters awaits high }
{
    const LOW: [u8; 16] = [0, 1, 2, 3, 4, 5, 6, 7, 8, 9, 10, 11, 12, 13, 14, 15];
    LOW.iter()
        .any(|low| escapes(letters, awaits, 16 * high + *low))
}

/// Whether a byte that may come has an escape that begins with this digit.
fn is_first_digit(letters: Letters, awaits: Awaits, digit: u8) -> bool
    ensures { result ≡ is_first_digit letters awaits digit }
{
    match hex_value(digit) {
        Some(high) => may_begin(letters, awaits, high),
        None => false,
    }
}

/// Reads the first digit of an escape.
fn first_digit(letters: Letters, awaits: Awaits, bytes: &[u8]) -> Result<(u8, &[u8]), BadByte>
    ensures value { GivesAlways (λ digit. (digit.0, digit.1.now)) result
        (first_digit_at letters awaits bytes.now) }
    ensures shorter { IfOk result (λ x. length x.1.now < length bytes.now) }
    ensures bound { IfOk result (λ x. x.0 < 16) }
{
    let [digit, rest @ ..] = bytes else {
        return Err(BadByte(0));
    };
    match hex_value(*digit) {
        Some(high) if may_begin(letters, awaits, high) => Ok((high, rest)),
        _ => Err(BadByte(bytes.len())),
    }
}

/// Reads the second digit of an escape, and gives the byte.
fn second_digit(
    letters: Letters,
    awaits: Awaits,
    high: u8,
    bytes: &[u8],
) -> Result<(u8, &[u8]), BadByte>
    requires { high < 16 }
    ensures value { GivesAlways (λ x. (x.0, x.1.now)) result
        (second_digit_at letters awaits high bytes.now) }
    ensures shorter { IfOk result (λ x. length x.1.now < length bytes.now) }
{
    let [digit, rest @ ..] = bytes else {
        return Err(BadByte(0));
    };
    match hex_value(*digit) {
        Some(low) if escapes(letters, awaits, 16 * high + low) => Ok((16 * high + low, rest)),
        _ => Err(BadByte(bytes.len())),
    }
}

/// Reads what follows the percent sign of an escape, and gives the byte.
pub fn escape(letters: Letters, awaits: Awaits, bytes: &[u8]) -> Result<(u8, &[u8]), BadByte>
    ensures value { GivesAlways (λ x. (x.0, x.1.now)) result (escape_at letters awaits bytes.now) }
    ensures shorter { IfOk result (λ x. length x.1.now < length bytes.now) }
{
    let (high, rest) = first_digit(letters, awaits, bytes)?;
    second_digit(letters, awaits, high, rest)
}

/// Reads one byte of a token, or gives none where the token ends.
fn spelled_byte(
    letters: Letters,
    awaits: Awaits,
    bytes: &[u8],
) -> Result<Option<(u8, &[u8])>, BadByte>
    ensures value { GivesAlways (option_map (λ x. (x.0, x.1.now))) result
        (spelled_byte_at letters awaits bytes.now) }
    ensures shorter { IfOk result (λ o. IfSome o (λ x. length x.1.now < length bytes.now)) }
{
    match bytes {
        [b'%', rest @ ..] => Ok(Some(escape(letters, awaits, rest)?)),
        [byte, rest @ ..] if stands_for_itself(*byte) && awaits.allows(letters, *byte) => Ok(Some((
            *byte, rest,
        ))),
        _ => match awaits {
            Awaits::Character => Ok(None),
            Awaits::Private | Awaits::Continuation { .. } => Err(BadByte(bytes.len())),
        },
    }
}

/// Reads the bytes of a token after those that were read, at this place of it.
#[tactic(auto, using(crate::proofs::Stages::step_more, crate::proofs::Stages::step_end, crate::proofs::Stages::step_err))]
pub fn spelled_behind(
    mut value: Vec<u8>,
    letters: Letters,
    mut awaits: Awaits,
    bytes: &[u8],
) -> Result<(Vec<u8>, &[u8]), Stop>
    ensures { Gives (λ x. (x.0.items, x.1.now)) result
        (with_front value.items (token_from letters (Stage.Between awaits) bytes.now)) }
{
    let mut rest = bytes;
    loop {
        match spelled_byte(letters, awaits, rest) {
            Ok(Some((byte, after))) => {
                value.push(byte)?;
                awaits = awaits.after(letters, byte);
                rest = after;
            }
            Ok(None) => return Ok((value, rest)),
            Err(bad) => return Err(Stop::At(bad.0)),
        }
    }
}

/// Reads the bytes of a token.
#[tactic(auto, using(crate::proofs::Stages::front_none))]
fn spelled(alloc: Global, letters: Letters, bytes: &[u8]) -> Result<(Vec<u8>, &[u8]), Stop>
    ensures { Gives (λ x. (x.0.items, x.1.now)) result
        (token_from letters (Stage.Between Awaits.Character) bytes.now) }
{
    spelled_behind(Vec::new(alloc), letters, Awaits::Character, bytes)
}

/// Whether this follows the percent sign that is the empty text.
fn is_lone(letters: Letters, bytes: &[u8]) -> bool
    ensures { result ≡ is_lone letters bytes.now }
{
    match (letters, bytes) {
        (Letters::OfName, _) => false,
        (_, [digit, ..]) => !is_first_digit(letters, Awaits::Character, *digit),
        (_, []) => true,
    }
}

/// Reads a token, as the bytes that it spells.
fn spelling(alloc: Global, letters: Letters, bytes: &[u8]) -> Result<(Vec<u8>, &[u8]), Stop>
    ensures { Gives (λ x. (x.0.items, x.1.now)) result (token_at letters bytes.now) }
{
    match bytes {
        [] => Err(Stop::At(0)),
        [b'%', rest @ ..] if is_lone(letters, rest) => Ok((Vec::new(alloc), rest)),
        _ => match spelled(alloc, letters, bytes) {
            Ok((value, _)) if value.as_slice().is_empty() => Err(Stop::At(bytes.len())),
            read => read,
        },
    }
}

/// Reads the token of a text or a name.
pub fn token(alloc: Global, letters: Letters, bytes: &[u8]) -> Result<(Text, &[u8]), Stop>
    requires { letters ≢ Letters.OfBytes }
    ensures { Gives (λ x. (x.0, x.1.now)) result (token_at letters bytes.now) }
{
    match spelling(alloc, letters, bytes) {
        Ok((value, rest)) => Ok((text_of(value), rest)),
        Err(stop) => Err(stop),
    }
}

/// The text of these bytes, which are UTF-8.
pub fn text_of(bytes: Vec<u8>) -> Text
    requires { IsUtf8 bytes.items }
    ensures { result ≡ bytes.items }
{
    match String::from_utf8(bytes) {
        Ok(text) => Text::from_string(text),
        Err(_) => unreachable!(),
    }
}

/// Reads the token of any bytes, which ends the line.
pub fn bytes_of_line(alloc: Global, bytes: &[u8]) -> Result<Bytes, Stop>
    ensures { Gives (λ x. x) result (last_token_at Letters.OfBytes bytes.now) }
{
    match spelling(alloc, Letters::OfBytes, bytes) {
        Ok((value, rest)) => Ok(end(Bytes::from_vec(value), rest)?),
        Err(stop) => Err(stop),
    }
}

/// Reads the token of a text, which ends the line.
pub fn rest_of_line(alloc: Global, bytes: &[u8]) -> Result<Text, Stop>
    ensures { Gives (λ x. x) result (last_token_at Letters.OfText bytes.now) }
{
    match token(alloc, Letters::OfText, bytes) {
        Ok((text, rest)) => Ok(end(text, rest)?),
        Err(stop) => Err(stop),
    }
}
