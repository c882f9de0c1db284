//! What the head of a reply says of the body after it.
ghost use Rattle.std.specs.Prelude.{◌≡◌, ◌≤◌, map, length, MatchOption, None, Some};
ghost use Rattle.httparse.specs.Borrowed.{header_parts};
ghost use Rattle.sv_http.specs.ReplyStream.{body_size};
ghost use Rattle.sv_http.specs.ReplyPlaces.{Judges};

use crate::fields::{REPLY_LIMIT, first_value, has_field, length_of};
use httparse::{EMPTY_HEADER, Header, Response, Status};

/// The most bytes of a head.
const HEAD_LIMIT: usize = 16_384;

/// The most fields of a head.
const FIELD_LIMIT: usize = 64;

/// What the first bytes of a stream are.
#[derive(Clone, Copy)]
pub(crate) enum Verdict {
    /// A head that isn't whole, and may become one.
    Unfinished,
    /// No reply, whatever follows.
    Never,
    /// A head of so many bytes, after which a body of so many bytes follows.
    Head {
        count: usize,
        status: u16,
        size: usize,
    },
}

/// The verdict on the first bytes of a stream.
pub(crate) fn judge_reply(bytes: &[u8]) -> Verdict
    ensures { Judges bytes.now result }
{
    let mut headers = [EMPTY_HEADER; FIELD_LIMIT];
    let mut response = Response::new(&mut headers);
    let count = match response.parse(bytes) {
        Ok(Status::Complete(count)) => count,
        Ok(Status::Partial) => return Verdict::Unfinished,
        Err(_) => return Verdict::Never,
    };
    let Some(status) = response.code else {
        return Verdict::Never;
    };
    let fields: &[Header<'_>] = response.headers;
    if FIELD_LIMIT < fields.len() || HEAD_LIMIT < count {
        return Verdict::Never;
    }
    match body_size(fields) {
        Some(size) => Verdict::Head {
            count,
            status,
            size,
        },
        None => Verdict::Never,
    }
}

/// How many bytes the body has, where the fields say so and say nothing of another way.
fn body_size(fields: &[Header<'_>]) -> Option<usize>
    ensures { result ≡ body_size (map header_parts fields.now) }
{
    if has_field(fields, "Transfer-Encoding") {
        return None;
    }
    let (value, others) = first_value(fields, "Content-Length")?;
    if first_value(others, "Content-Length").is_some() {
        return None;
    }
    match length_of(value) {
        Some(length) if length <= REPLY_LIMIT => Some(length as usize),
        _ => None,
    }
}
