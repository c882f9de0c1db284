//! What stands first in the bytes that a listener got.

ghost use Rattle.std.specs.Prelude.{◌≡◌, ◌≤◌, ◌<◌, ◌+◌, ◌^◌, Some, IfOk, length};
ghost use Rattle.sv_listener.specs.HeaderCalls.{said_of};
ghost use Rattle.sv_listener.specs.Hearing.{first_of, with_header};
ghost use Rattle.sv_listener.specs.FirstBounds.{IsWithin};

use crate::events::{Heard, HeardFault};
use crate::header::{Header, Size, cut, read_header};
use std::alloc::{AllocError, Global};
use sv_base::bytes::Bytes;
use sv_base::text::Text;

/// The most bytes of a header line, without its line feed.
const HEADER_LIMIT: usize = 4_096;

/// The most bytes of a body.
const BODY_LIMIT: u64 = 33_554_432;

/// What stands first.
#[derive(Drop)]
pub(crate) enum First {
    /// Part of an event, or nothing.
    Open,
    Fault(HeardFault),
    /// A whole event, and how many bytes it has with its header line.
    Whole(Heard, usize),
}

/// What stands first in these bytes.
#[tactic(auto, unfolding(crate::specs::Hearing::first_of))]
pub(crate) fn first_of(alloc: Global, bytes: &[u8]) -> Result<First, AllocError>
    ensures first { IfOk result (λ first. first ≡ first_of bytes.now) }
    ensures within { IfOk result (λ first. IsWithin first (length bytes.now)) }
{
    let Some((line, after)) = cut(b'\n', bytes) else {
        if bytes.len() > HEADER_LIMIT {
            return Ok(First::Fault(HeardFault::BadHeader));
        }
        return Ok(First::Open);
    };
    if line.len() > HEADER_LIMIT {
        return Ok(First::Fault(HeardFault::BadHeader));
    }
    match read_header(line) {
        None => Ok(First::Fault(HeardFault::BadHeader)),
        Some(header) => with_body(alloc, line.len() + 1, &header, after),
    }
}

/// The event with this header, where its body is whole.
fn with_body(
    alloc: Global,
    before: usize,
    header: &Header,
    after: &[u8],
) -> Result<First, AllocError>
    requires some { 1 ≤ before }
    requires room { before + length after.now < 2 ^ 64 }
    ensures first { IfOk result (λ first.
        first ≡ with_header before (Some (said_of header.now)) after.now) }
    ensures within { IfOk result (λ first. IsWithin first (before + length after.now)) }
{
    let size = match header.size {
        Size::Bytes(size) if size <= BODY_LIMIT => size as usize,
        _ => return Ok(First::Fault(HeardFault::TooLong)),
    };
    if after.len() < size {
        return Ok(First::Open);
    }
    let event = Heard {
        eventname: Text::fixed(header.kind.name()),
        pool: Text::from_str(alloc, header.pool)?,
        serial: header.serial,
        poolserial: header.poolserial,
        body: Bytes::from_slice(alloc, &after[..size])?,
    };
    Ok(First::Whole(event, before + size))
}
