//! Which bytes of a log a reader asks for.
ghost use Rattle.std.specs.Prelude.{◌≡◌, ◌↔◌, ◌≤◌, ◌+◌, ◌⊎◌, ℤ, pos, ◌<ℤ◌, ◌≢◌, IsErr, IfOk, Some};
ghost use Rattle.sv_logs.specs.Spans.{span_limit, first_of, last_of, read_part, from_zero};
ghost use Rattle.sv_logs.specs.Spans.{has_missed, tail_part};

/// The most bytes of one read of a log.
pub const SPAN_LIMIT: u64 = 1_048_576;

/// A part of a file: where it begins, and how many bytes it has, at most 1,048,576. It lies within the file.
#[derive(Clone, Copy, PartialEq, Eq)]
pub struct Span {
    pub start: u64,
    pub length: u64,
}

/// A read with a negative length, or with a negative offset and a length other than 0: the fault
/// `BAD_ARGUMENTS` of the manual's chapter on its XML-RPC interface.
#[derive(Clone, Copy, PartialEq, Eq)]
pub struct BadArguments;

/// The part of a file of this size that a read asks for. From an offset of 0 or more on it is so many bytes, or
/// with length 0 all up to the end, and nothing past the end; a longer part than 1,048,576 bytes keeps its start.
/// A negative offset with length 0 asks for the last bytes, as many as the file has, and keeps the part's end.
pub fn read_span(size: u64, offset: i64, length: i64) -> Result<Span, BadArguments>
    ensures refused { IsErr result ↔ ((length <ℤ pos 0) ⊎ ((offset <ℤ pos 0) × (length ≢ pos 0))) }
    ensures span { IfOk result (λ s. read_part size offset length ≡ Some s) }
    ensures within { IfOk result (λ s. s.start + s.length ≤ size) }
    ensures bound { IfOk result (λ s. s.length ≤ span_limit) }
{
    if length < 0 || (offset < 0 && length != 0) {
        return Err(BadArguments);
    }
    if offset < 0 {
        return Ok(last_of(size.saturating_sub(offset.unsigned_abs()), size));
    }
    let (offset, length) = (offset as u64, length as u64);
    let end = if length == 0 {
        size
    } else {
        size.min(offset + length)
    };
    Ok(first_of(offset.min(size), end))
}

/// What a reader gets that was at this offset and comes back for this length: the part of the file, the next
/// offset, which is the size, and whether it has missed bytes. Negative numbers count as 0. Where it has missed
/// bytes, the part is the file's last ones, so many as the length says; else it is all from the offset on. It
/// keeps its last 1,048,576 bytes.
pub fn tail_span(size: u64, offset: i64, length: i64) -> (Span, u64, bool)
    ensures span { result.0 ≡ tail_part size offset length }
    ensures offset { result.1 ≡ size }
    ensures missed { result.2 ≡ has_missed size offset length }
    ensures within { result.0.start + result.0.length ≤ size }
    ensures bound { result.0.length ≤ span_limit }
{
    let offset = from_zero(offset);
    let length = from_zero(length);
    let missed = size > offset + length;
    let start = if missed {
        size - length
    } else {
        offset.min(size)
    };
    (last_of(start, size), size, missed)
}

/// A negative number counts as 0.
fn from_zero(number: i64) -> u64
    ensures value { result ≡ from_zero number }
    ensures bound { result + 1 ≤ 9223372036854775808 }
{
    if number < 0 { 0 } else { number as u64 }
}

fn first_of(start: u64, end: u64) -> Span
    ensures { result ≡ first_of start end }
{
    Span {
        start,
        length: end.saturating_sub(start).min(SPAN_LIMIT),
    }
}

fn last_of(start: u64, end: u64) -> Span
    ensures { result ≡ last_of start end }
{
    Span {
        start: start.max(end.saturating_sub(SPAN_LIMIT)),
        length: end.saturating_sub(start).min(SPAN_LIMIT),
    }
}
