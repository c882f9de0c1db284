//! What a whole head asks for.
ghost use Rattle.std.specs.Prelude.{◌≡◌, map, IfOk};
ghost use Rattle.httparse.specs.Borrowed.{header_parts};
ghost use Rattle.sv_http.specs.AskTable.{Judged, ruling, is_target};

use crate::fields::{closes, has_field, is_let_in, sized};
use crate::guard::Guard;
use crate::status::Refusal;
use httparse::{EMPTY_HEADER, Header, Request, Status};
use std::alloc::{AllocError, Global};

/// The most fields of a head.
const FIELD_LIMIT: usize = 64;

/// What a head decides.
#[derive(Clone, Copy, PartialEq, Eq)]
pub(crate) enum Ruling {
    Refused(Refusal),
    /// A body of so many bytes follows.
    Takes { size: usize, close: bool },
}

/// The ruling on a whole head.
pub(crate) fn judge(alloc: Global, guard: &Guard, head: &[u8]) -> Result<Ruling, AllocError>
    ensures { IfOk result (Judged guard.now head.now) }
{
    let mut headers = [EMPTY_HEADER; FIELD_LIMIT];
    let mut request = Request::new(&mut headers);
    let Ok(Status::Complete(length)) = request.parse(head) else {
        return Ok(Ruling::Refused(Refusal::BadRequest));
    };
    let (Some(method), Some(target), Some(minor)) = (request.method, request.path, request.version)
    else {
        return Ok(Ruling::Refused(Refusal::BadRequest));
    };
    let fields: &[Header<'_>] = request.headers;
    if length != head.len() || fields.len() > FIELD_LIMIT {
        return Ok(Ruling::Refused(Refusal::BadRequest));
    }
    rule(alloc, guard, method, target, minor, fields)
}

/// The rules in their order.
fn rule(
    alloc: Global,
    guard: &Guard,
    method: &str,
    target: &str,
    minor: u8,
    fields: &[Header<'_>],
) -> Result<Ruling, AllocError>
    ensures { IfOk result (λ ruled. ruled
        ≡ ruling guard.now method.now target.now minor (map header_parts fields.now)) }
{
    Ok(if !is_let_in(alloc, guard, fields)? {
        Ruling::Refused(Refusal::Unauthorized)
    } else if !is_target(target) {
        Ruling::Refused(Refusal::NotFound)
    } else if method != "POST" {
        Ruling::Refused(Refusal::MethodNotAllowed)
    } else if has_field(fields, "Transfer-Encoding") {
        Ruling::Refused(Refusal::LengthRequired)
    } else {
        sized(fields, closes(minor, fields))
    })
}

fn is_target(target: &str) -> bool
    ensures { result ≡ is_target target.now }
{
    target == "/RPC2" || target == "/RPC2/"
}
