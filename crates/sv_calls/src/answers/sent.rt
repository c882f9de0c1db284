//! What is sent over a link.
ghost use Rattle.std.specs.Prelude.{◌≡◌, IfOk};
ghost use Rattle.std.specs.Option.{option_copied};
ghost use Rattle.sv_calls.specs.Answers.Served.{faulty, refused, said};
ghost use Rattle.sv_xmlcall.specs.Trees.{reply_view};

use std::alloc::{AllocError, Global};
use sv_base::bytes::Bytes;
use sv_http::reply::reply;
use sv_http::{Refusal, Status};
use sv_info::Fault;
use sv_xmlcall::{Answered, write_fault, write_reply};

/// What is sent over a link.
#[derive(Drop)]
pub struct Sent {
    pub text: Bytes,
    /// Whether the link closes after it.
    pub closes: bool,
}

/// The reply that tells what a call is answered (RFC 9112; the XML-RPC specification). After it the link closes, or not.
pub fn say(alloc: Global, close: bool, answered: &Answered) -> Result<Sent, AllocError>
    ensures { IfOk result (λ sent. sent ≡ said close (reply_view answered.now)) }
{
    let body = match answered {
        Answered::Value(value) => write_reply(alloc, value)?,
        Answered::Fault(number, text) => write_fault(alloc, *number, text.as_str())?,
    };
    let text = reply(alloc, Status::Ok, body.as_slice(), close)?;
    Ok(Sent {
        text,
        closes: close,
    })
}

/// A fault of a call that named this, if it named something.
pub(crate) fn faulty(
    alloc: Global,
    fault: Fault,
    subject: Option<&str>,
) -> Result<Answered, AllocError>
    ensures { IfOk result (λ answered. reply_view answered
        ≡ faulty fault (option_copied subject.entry)) }
{
    let text = fault.text(alloc, subject)?;
    Ok(Answered::Fault(i64::from(fault.number()), text))
}

/// The reply to a request that is refused.
pub(crate) fn refused(alloc: Global, refusal: Refusal) -> Result<Sent, AllocError>
    ensures { IfOk result (λ sent. sent ≡ refused refusal) }
{
    let text = reply(alloc, Status::Bad(refusal), &[], true)?;
    Ok(Sent { text, closes: true })
}
