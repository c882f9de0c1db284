//! What the fields of a head say.
ghost use Rattle.std.specs.Prelude.{◌≡◌, ◌≤◌, ◌+◌, ◌∷◌, ◌&&◌, [], true, codes, map, min, ◌-◌, ◌*◌};
ghost use Rattle.std.specs.Prelude.{IfOk, MatchOption, false};
ghost use Rattle.std.specs.Char.{is_ascii_digit};
ghost use Rattle.std.specs.List.{list_all};
ghost use Rattle.std.specs.Str.{str_eq_ignore_ascii_case};
ghost use Rattle.httparse.specs.Borrowed.{header_parts};
ghost use Rattle.sv_http.specs.Authorization.{is_named, is_let_in};
ghost use Rattle.sv_http.specs.AskTable.{values_of, has_field, says, closes, sized};
ghost use Rattle.sv_base.specs.SizeText.{number_of};
ghost use Rattle.sv_http.specs.AskTable.{is_length, reply_limit};

use crate::guard::Guard;
use crate::head::Ruling;
use crate::status::Refusal;
use httparse::Header;
use std::alloc::{AllocError, Global};

/// The most bytes of a body.
pub(crate) const BODY_LIMIT: u64 = 1_048_576;

/// The most bytes of the body of a reply.
pub(crate) const REPLY_LIMIT: u64 = 67_108_864;

fn is_named(field: &Header<'_>, name: &str) -> bool
    ensures { result ≡ is_named name.now (header_parts field.now) }
{
    field.name.eq_ignore_ascii_case(name)
}

/// Whether some Authorization field lets in, or none is asked for.
pub(crate) fn is_let_in(
    alloc: Global,
    guard: &Guard,
    fields: &[Header<'_>],
) -> Result<bool, AllocError>
    ensures { IfOk result (λ let_in. let_in ≡ is_let_in guard.now (map header_parts fields.now)) }
{
    if guard.is_open() {
        return Ok(true);
    }
    let mut rest = fields;
    while let [field, more @ ..] = rest {
        if is_named(field, "Authorization") && guard.lets_in(alloc, field.value)? {
            return Ok(true);
        }
        rest = more;
    }
    Ok(false)
}

/// Whether there is a field of this name.
pub(crate) fn has_field(fields: &[Header<'_>], name: &str) -> bool
    ensures { result ≡ has_field name.now (map header_parts fields.now) }
{
    let mut rest = fields;
    while let [field, more @ ..] = rest {
        if is_named(field, name) {
            return true;
        }
        rest = more;
    }
    false
}

fn is_saying(field: &Header<'_>, name: &str, value: &[u8]) -> bool
    ensures { result ≡ (is_named name.now (header_parts field.now)
        && str_eq_ignore_ascii_case field.now.value.now value.now) }
{
    is_named(field, name) && field.value.eq_ignore_ascii_case(value)
}

/// Whether some field of this name has this whole value, in any case of letters.
fn says(fields: &[Header<'_>], name: &str, value: &[u8]) -> bool
    ensures { result ≡ says name.now value.now (map header_parts fields.now) }
{
    let mut rest = fields;
    while let [field, more @ ..] = rest {
        if is_saying(field, name, value) {
            return true;
        }
        rest = more;
    }
    false
}

/// Whether the link closes after the reply.
pub(crate) fn closes(minor: u8, fields: &[Header<'_>]) -> bool
    ensures { result ≡ closes minor (map header_parts fields.now) }
{
    says(fields, "Connection", b"close".as_slice())
        || (minor == 0 && !says(fields, "Connection", b"keep-alive".as_slice()))
}

/// The value of the first field of this name, and the fields after it.
pub(crate) fn first_value<'a, 'b>(
    fields: &'a [Header<'b>],
    name: &str,
) -> Option<(&'b [u8], &'a [Header<'b>])>
    ensures { MatchOption result (values_of name.now (map header_parts fields.now) ≡ [])
        (λ first. values_of name.now (map header_parts fields.now)
        ≡ first.0.now ∷ values_of name.now (map header_parts first.1.now)) }
{
    let mut rest = fields;
    while let [field, more @ ..] = rest {
        if is_named(field, name) {
            return Some((field.value, more));
        }
        rest = more;
    }
    None
}

/// The ruling by the fields that give the length of the body.
pub(crate) fn sized(fields: &[Header<'_>], close: bool) -> Ruling
    ensures { result
        ≡ sized (values_of (codes "Content-Length") (map header_parts fields.now)) close }
{
    let Some((value, others)) = first_value(fields, "Content-Length") else {
        return Ruling::Refused(Refusal::LengthRequired);
    };
    if first_value(others, "Content-Length").is_some() {
        return Ruling::Refused(Refusal::BadRequest);
    }
    match length_of(value) {
        None => Ruling::Refused(Refusal::BadRequest),
        Some(length) if length > BODY_LIMIT => Ruling::Refused(Refusal::ContentTooLarge),
        Some(length) => Ruling::Takes {
            size: length as usize,
            close,
        },
    }
}

/// The length that 1 to 19 digits write, or the limit of replies and one more where it is above that.
pub(crate) fn length_of(value: &[u8]) -> Option<u64>
    ensures length { MatchOption result (is_length value.now ≡ false)
        (λ length. (is_length value.now ≡ true)
        × (length ≡ min (number_of 0 value.now) (reply_limit + 1))) }
{
    if is_length(value) {
        Some(number_of(value))
    } else {
        None
    }
}

fn is_length(value: &[u8]) -> bool
    ensures { result ≡ is_length value.now }
{
    0 < value.len() && value.len() < 20 && are_digits(value)
}

fn are_digits(value: &[u8]) -> bool
    ensures { result ≡ list_all is_ascii_digit value.now }
{
    value.iter().all(|byte| byte.is_ascii_digit())
}

#[tactic(auto, using(crate::proofs::Lengths::capped_more))]
fn number_of(digits: &[u8]) -> u64
    ensures { result ≡ min (number_of 0 digits.now) (reply_limit + 1) }
{
    let mut number = 0u64;
    let mut rest = digits;
    while let [digit, more @ ..] = rest {
        number = with_digit(number, *digit);
        rest = more;
    }
    number
}

/// The number with a digit after it.
fn with_digit(number: u64, digit: u8) -> u64
    requires { number ≤ reply_limit + 1 }
    ensures { result ≡ min (10 * number + (digit - 48)) (reply_limit + 1) }
{
    (number * 10 + u64::from(digit.saturating_sub(b'0'))).min(REPLY_LIMIT + 1)
}
