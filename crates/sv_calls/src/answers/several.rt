//! Several calls in one.
ghost use Rattle.std.specs.Prelude.{◌≡◌, IfOk};
ghost use Rattle.sv_calls.specs.Answers.Heard.{found_parts};
ghost use Rattle.sv_calls.specs.Answers.Served.{is_several, no_parts, parts_in};
ghost use Rattle.sv_multi.specs.MultiCall.{parts_of};
ghost use Rattle.sv_xmlcall.specs.Trees.{call_view, reply_view, trees_view, view};

use std::alloc::{AllocError, Global};
use sv_base::text::Text;
use sv_info::Fault;
use sv_multi::parts::parts;
use sv_multi::{MultiFault, Part};
use sv_xmlcall::{Answered, Call, Value};

/// Whether a call asks for several calls.
pub fn is_several(call: &Call) -> bool
    ensures { result ≡ is_several (call_view call.now) }
{
    call.method.as_str() == "system.multicall"
}

/// The calls that several calls in one ask for, in their order; none where the params aren't one array of structs.
pub fn parts_asked(alloc: Global, call: &Call) -> Result<Option<Vec<Part>>, AllocError>
    ensures { IfOk result (λ parts. found_parts parts ≡ parts_in (call_view call.now).params) }
{
    let parts = parts_in(alloc, call.params.as_slice())?;
    Ok(parts)
}

#[tactic(auto, using(crate::proofs::AnswersLemmas::Longer::longer))]
fn parts_in(alloc: Global, params: &[Value]) -> Result<Option<Vec<Part>>, AllocError>
    ensures { IfOk result (λ parts. found_parts parts ≡ parts_in (trees_view params.now)) }
{
    match params {
        [value] => parts_of(alloc, value),
        [] => Ok(None),
        [_, _, ..] => Ok(None),
    }
}

fn parts_of(alloc: Global, value: &Value) -> Result<Option<Vec<Part>>, AllocError>
    ensures { IfOk result (λ parts. found_parts parts ≡ parts_of (view value.now)) }
{
    match parts(alloc, value) {
        Ok(parts) => Ok(Some(parts)),
        Err(MultiFault::NotParts) => Ok(None),
        Err(MultiFault::OutOfMemory) => Err(AllocError),
    }
}

/// What several calls in one are answered whose params aren't one array of structs. It takes no memory.
pub fn no_parts() -> Answered
    ensures { reply_view result ≡ no_parts }
{
    let fault = Fault::IncorrectParameters;
    Answered::Fault(i64::from(fault.number()), Text::fixed(fault.name()))
}
