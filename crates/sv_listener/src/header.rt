//! Reading the header line of an event.

ghost use Rattle.std.specs.Prelude.{◌≡◌, ◌<◌, ◌+◌, ◌^◌, None, Some, IfSome, SomeIff, MatchOption};
ghost use Rattle.std.specs.Prelude.{length, true};
ghost use Rattle.std.specs.Char.{is_ascii_digit};
ghost use Rattle.std.specs.List.{list_all};
ghost use Rattle.std.specs.Str.Parse.{digits_value};
ghost use Rattle.sv_listener.specs.Reading.{cut_at, is_number, text_at, number_at, kind_at};
ghost use Rattle.sv_listener.specs.Reading.{kind_in, size_at, small_number};
ghost use Rattle.sv_listener.specs.HeaderLine.{header_of, named, pooled};
ghost use Rattle.sv_listener.specs.HeaderCalls.{Reads};
ghost use Rattle.sv_pipes.specs.StreamCut.{rest_after};

use memchr::memchr;
use std::str;
use sv_base::kind::Kind;
use sv_base::words::kind_of;

/// How many bytes a body has, as a header line says it.
#[derive(Clone, Copy)]
pub(crate) enum Size {
    Bytes(u64),
    /// 2^64 or more.
    Endless,
}

/// What a header line says of an event; the server's name isn't kept.
#[derive(Clone, Copy)]
pub(crate) struct Header<'a> {
    pub(crate) pool: &'a str,
    pub(crate) serial: u64,
    pub(crate) poolserial: u64,
    pub(crate) kind: Kind,
    pub(crate) size: Size,
}

/// What a line says, where it is the header line of an event.
#[tactic(auto, unfolding(crate::specs::HeaderLine::header_of))]
pub(crate) fn read_header(line: &[u8]) -> Option<Header>
    ensures { Reads result (header_of line.now) }
{
    let rest = after(b"ver:3.0 server:", line)?;
    let (_, rest) = text(rest)?;
    let rest = after(b"serial:", rest)?;
    let (serial, rest) = number(rest)?;
    pooled(serial, rest)
}

fn pooled(serial: u64, bytes: &[u8]) -> Option<Header>
    ensures { Reads result (pooled serial bytes.now) }
{
    let rest = after(b"pool:", bytes)?;
    let (pool, rest) = text(rest)?;
    let rest = after(b"poolserial:", rest)?;
    let (poolserial, rest) = number(rest)?;
    named(pool, serial, poolserial, rest)
}

fn named<'a>(pool: &'a str, serial: u64, poolserial: u64, bytes: &[u8]) -> Option<Header<'a>>
    ensures { Reads result (named pool.now serial poolserial bytes.now) }
{
    let rest = after(b"eventname:", bytes)?;
    let (kind, rest) = event_type(rest)?;
    let rest = after(b"len:", rest)?;
    let size = body_size(rest)?;
    Some(Header {
        pool,
        serial,
        poolserial,
        kind,
        size,
    })
}

/// What follows this word.
pub(crate) fn after<'a>(word: &[u8], bytes: &'a [u8]) -> Option<&'a [u8]>
    ensures { MatchOption result (rest_after word.now bytes.now ≡ None)
        (λ rest. rest_after word.now bytes.now ≡ Some rest.now) }
{
    let mut wanted = word;
    let mut rest = bytes;
    while let [first, words @ ..] = wanted {
        match rest {
            [byte, more @ ..] if *byte == *first => rest = more,
            _ => return None,
        }
        wanted = words;
    }
    Some(rest)
}

/// The bytes before the first one like this, and those after it.
pub(crate) fn cut(stop: u8, bytes: &[u8]) -> Option<(&[u8], &[u8])>
    ensures size { IfSome result (λ parts.
        length parts.0.now + 1 + length parts.1.now ≡ length bytes.now) }
    ensures cut { MatchOption result (cut_at stop bytes.now ≡ None)
        (λ parts. cut_at stop bytes.now ≡ Some (parts.0.now, parts.1.now)) }
{
    match memchr(stop, bytes) {
        Some(count) => {
            let (front, _) = bytes.split_at(count);
            let (_, rest) = bytes.split_at(count + 1);
            Some((front, rest))
        }
        None => None,
    }
}

/// A text up to a space, and what follows that.
pub(crate) fn text(bytes: &[u8]) -> Option<(&str, &[u8])>
    ensures { MatchOption result (text_at bytes.now ≡ None)
        (λ parts. text_at bytes.now ≡ Some (parts.0.now, parts.1.now)) }
{
    let (word, rest) = cut(b' ', bytes)?;
    match str::from_utf8(word) {
        Ok(text) => Some((text, rest)),
        Err(_) => None,
    }
}

/// A number below 2^64 up to a space, and what follows that.
fn number(bytes: &[u8]) -> Option<(u64, &[u8])>
    ensures { MatchOption result (number_at bytes.now ≡ None)
        (λ parts. number_at bytes.now ≡ Some (parts.0, parts.1.now)) }
{
    let (word, rest) = cut(b' ', bytes)?;
    match small_number(word) {
        Some(value) => Some((value, rest)),
        None => None,
    }
}

/// A number below 2^64, in digits.
pub(crate) fn small_number(digits: &[u8]) -> Option<u64>
    ensures { MatchOption result (small_number digits.now ≡ None)
        (λ value. small_number digits.now ≡ Some value) }
{
    if is_number(digits) {
        value_of(digits)
    } else {
        None
    }
}

/// The type of an event by its name up to a space, and what follows that.
fn event_type(bytes: &[u8]) -> Option<(Kind, &[u8])>
    ensures { MatchOption result (kind_at bytes.now ≡ None)
        (λ parts. kind_at bytes.now ≡ Some (parts.0, parts.1.now)) }
{
    let (name, rest) = text(bytes)?;
    let kind = kind_named(name)?;
    Some((kind, rest))
}

/// The type of this name. The most usual one among the names of its length is tried before all others.
fn kind_named(name: &str) -> Option<Kind>
    ensures { result ≡ kind_in name.now }
{
    let usual = usual_kind(name.len());
    if usual.name() == name {
        return Some(usual);
    }
    kind_of(name)
}

/// The most usual type among those whose names have so many bytes, or any type where there is none.
fn usual_kind(size: usize) -> Kind {
    match size {
        4 => Kind::Tick,
        6 => Kind::Tick5,
        7 => Kind::Tick60,
        9 => Kind::Tick3600,
        18 => Kind::ProcessLogStdout,
        19 => Kind::ProcessStateFatal,
        20 => Kind::ProcessStateExited,
        21 => Kind::ProcessStateRunning,
        22 => Kind::ProcessStateStarting,
        28 => Kind::ProcessCommunicationStdout,
        31 => Kind::SupervisorStateChangeRunning,
        32 => Kind::SupervisorStateChangeStopping,
        _ => Kind::Event,
    }
}

/// The number of a body's bytes, in digits.
fn body_size(bytes: &[u8]) -> Option<Size>
    ensures { MatchOption result (size_at bytes.now ≡ None)
        (λ size. size_at bytes.now ≡ Some size) }
{
    if !is_number(bytes) {
        return None;
    }
    match value_of(bytes) {
        Some(value) => Some(Size::Bytes(value)),
        None => Some(Size::Endless),
    }
}

/// Whether these are digits, at least one, without a leading zero.
fn is_number(bytes: &[u8]) -> bool
    ensures { result ≡ is_number bytes.now }
{
    match bytes {
        [] => false,
        [first] => first.is_ascii_digit(),
        [first, ..] => *first != b'0' && all_digits(bytes),
    }
}

fn all_digits(bytes: &[u8]) -> bool
    ensures { result ≡ list_all is_ascii_digit bytes.now }
{
    bytes.iter().all(|byte| byte.is_ascii_digit())
}

/// The number that these digits write, where it is below 2^64.
fn value_of(digits: &[u8]) -> Option<u64>
    requires { is_number digits.now ≡ true }
    ensures { SomeIff result (digits_value 10 digits.now < 2 ^ 64) (digits_value 10 digits.now) }
{
    let mut value = 0u64;
    let mut rest = digits;
    while let [digit, more @ ..] = rest {
        let tens = value.checked_mul(10)?;
        value = tens.checked_add(u64::from(digit.saturating_sub(b'0')))?;
        rest = more;
    }
    Some(value)
}
