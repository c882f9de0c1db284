//! What a request is.
ghost use Rattle.std.specs.Prelude.{◌≡◌, IfOk};
ghost use Rattle.sv_calls.specs.Answers.Heard.{request_view};
ghost use Rattle.sv_calls.specs.Answers.Served.{heard, subject_in, subject_of};
ghost use Rattle.sv_xmlcall.specs.Trees.{call_view, trees_view, view};

use crate::answers::sent::{Sent, refused};
use std::alloc::{AllocError, Global};
use sv_base::text::Text;
use sv_http::{Ask, Refusal};
use sv_xmlcall::{Call, CallFault, Value};
use sv_xmlread::read_call;

/// What a request is.
#[derive(Drop)]
pub enum Heard {
    /// It is refused by this.
    Refuses(Sent),
    /// It is this call, after whose reply the link closes or not.
    Calls(Call, bool),
}

/// What a request is: refused by the status of its cause, or by 400 where its body is no call; else a call.
pub fn hear(alloc: Global, ask: Ask) -> Result<Heard, AllocError>
    ensures { IfOk result (λ request. request_view request ≡ heard ask) }
{
    match ask {
        Ask::Bad(refusal) => Ok(Heard::Refuses(refused(alloc, refusal)?)),
        Ask::Call { body, close } => match read_call(alloc, body.as_slice()) {
            Ok(call) => Ok(Heard::Calls(call, close)),
            Err(CallFault::OutOfMemory) => Err(AllocError),
            Err(_) => Ok(Heard::Refuses(refused(alloc, Refusal::BadRequest)?)),
        },
    }
}

/// What a call names: its first param, where that is a string.
pub fn subject_of(call: &Call) -> Result<Option<Text>, AllocError>
    ensures { IfOk result (λ subject. subject ≡ subject_of (call_view call.now).params) }
{
    let subject = subject_of_params(call.params.as_slice())?;
    Ok(subject)
}

fn subject_of_params(params: &[Value]) -> Result<Option<Text>, AllocError>
    ensures { IfOk result (λ subject. subject ≡ subject_of (trees_view params.now)) }
{
    match params {
        [first, ..] => subject_in(first),
        [] => Ok(None),
    }
}

/// What a param names, where it is a string.
fn subject_in(param: &Value) -> Result<Option<Text>, AllocError>
    ensures { IfOk result (λ subject. subject ≡ subject_in (view param.now)) }
{
    match param {
        Value::Text(name) => Ok(Some(name.clone()?)),
        _ => Ok(None),
    }
}
