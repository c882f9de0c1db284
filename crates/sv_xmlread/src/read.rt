//! Reading a call or a reply.
ghost use Rattle.std.specs.Prelude.{◌≡◌, ◌∷◌, [], ◌≤◌, ◌<◌, ◌&&◌, codes, IfOk, List, ℕ, length};
ghost use Rattle.std.specs.Option.{option_map};
ghost use Rattle.sv_xmlcall.specs.Trees.{view, trees_view, call_view, reply_view};
ghost use Rattle.sv_xmlcall.specs.SpelledTexts.{SpellsCall, SpellsReply};
ghost use Rattle.sv_xmlcall.specs.Given.{OnlyCall, OnlyReply};
ghost use Rattle.sv_xmlcall.specs.Beginnings.{BeginsCall, BeginsReply};
ghost use Rattle.sv_xmlcall.specs.Judged.{Judges};
ghost use Rattle.sv_xmlcall.specs.Called.{called, replied, AnswersCalled, AnswersReplied};
ghost use Rattle.sv_xmlcall.specs.Spelled.{ACall, AReply, fault_of, two_of, named_fault};
ghost use Rattle.std.specs.Str.{bytes_eq};
ghost use Rattle.sv_xmlcall.specs.Outcome.{GivesAlways};
ghost use Rattle.sv_xmlcall.specs.Machine.{OfCall, OfReply, start, run, the_limits, InReply};
ghost use Rattle.sv_xmlcall.specs.Machine.{InFault, At, AtCalled, AtValue, at};
ghost use Rattle.sv_xmlcall.specs.Documents.{Comes, end_at, value_end_at, faulty_at};
ghost use Rattle.sv_xmlcall.specs.Answers.{ReadsParams, ReadsFurther, ReadsOne, faulted};

use std::alloc::{AllocError, Global};
use sv_base::text::Text;
use sv_letters::BadByte;
use sv_xmlcall::atoms::{closing, skip_white};
use sv_xmlcall::call::{Answered, Call, CallFault};
use sv_xmlcall::document::{answer, begun, fault_end, head, param, param_end};
use sv_xmlcall::nested::{VALUES, kept, value};
use sv_xmlcall::stop::Stop;
use sv_xmlcall::tag::Tag;
use sv_xmlcall::value::Value;

/// The call that these bytes spell (the XML-RPC specification, its chapter on requests). Bytes that spell none, or whose
/// values are too many or stand too deep, are refused by their good prefix, the longest one that begins a spelled call:
/// [`CallFault`]. Memory is linear in the bytes.
#[tactic(auto, using(sv_xmlcall::proofs::DocumentLaws::fault_is))]
pub fn read_call(alloc: Global, bytes: &[u8]) -> Result<Call, CallFault>
    ensures found { IfOk result (λ call. SpellsCall bytes.now (call_view call)) }
    ensures only { OnlyCall bytes.now result }
    ensures judged { Judges BeginsCall bytes.now result }
    ensures called { AnswersCalled (called bytes.now) result }
{
    let mut opened = 0;
    match call(alloc, &mut opened, bytes) {
        Ok(call) if opened <= VALUES => Ok(call),
        Ok(_) => Err(CallFault::TooManyValues),
        Err(stop) => Err(fault(bytes.len(), opened, stop)),
    }
}

/// The reply that these bytes spell (the XML-RPC specification, its chapter on responses). Bytes are refused as by
/// [`read_call`], by the longest prefix that begins a reply, in whose fault any value may stand until it is whole.
#[tactic(auto, using(sv_xmlcall::proofs::DocumentLaws::fault_is))]
pub fn read_reply(alloc: Global, bytes: &[u8]) -> Result<Answered, CallFault>
    ensures found { IfOk result (λ answered. SpellsReply bytes.now (reply_view answered)) }
    ensures only { OnlyReply bytes.now result }
    ensures judged { Judges BeginsReply bytes.now result }
    ensures replied { AnswersReplied (replied bytes.now) result }
{
    let mut opened = 0;
    match reply(alloc, &mut opened, bytes) {
        Ok(answered) if opened <= VALUES => Ok(answered),
        Ok(_) => Err(CallFault::TooManyValues),
        Err(stop) => Err(fault(bytes.len(), opened, stop)),
    }
}

/// The fault of a text of this size whose reading stops so, after so many values were opened.
fn fault(size: usize, opened: u32, stop: Stop) -> CallFault
    ensures { result ≡ faulted stop opened size }
{
    match stop {
        Stop::OutOfMemory => CallFault::OutOfMemory,
        Stop::TooDeep => CallFault::TooDeep,
        Stop::At(_) if opened > VALUES => CallFault::TooManyValues,
        Stop::At(left) => CallFault::NotACall(size.saturating_sub(left)),
    }
}

#[tactic(auto, using(sv_xmlcall::proofs::DocumentLaws::head_halts, sv_xmlcall::proofs::DocumentLaws::head_goes))]
fn call(alloc: Global, opened: &mut u32, bytes: &[u8]) -> Result<Call, Stop>
    requires { opened.old ≡ 0 }
    ensures { Comes (run the_limits (start OfCall) bytes.now) opened.new
        (λ call. ACall (call_view call)) result }
{
    match head(alloc, bytes) {
        Ok((method, rest)) => call_of(alloc, opened, method, rest),
        Err(stop) => Err(stop),
    }
}

/// Reads a call after its method's name.
fn call_of(alloc: Global, opened: &mut u32, method: Text, bytes: &[u8]) -> Result<Call, Stop>
    ensures { Comes (run the_limits (at (At (AtCalled method)) [] opened.old) bytes.now) opened.new
        (λ call. ACall (call_view call)) result }
{
    match params(alloc, opened, bytes) {
        Ok((params, rest)) => match end(rest) {
            Ok(()) => Ok(Call { method, params }),
            Err(bad) => Err(Stop::At(bad.0)),
        },
        Err(stop) => Err(stop),
    }
}

/// Reads the params of a call and its closing tag.
fn params<'a>(
    alloc: Global,
    opened: &mut u32,
    bytes: &'a [u8],
) -> Result<(Vec<Value>, &'a [u8]), Stop>
    ensures { (method : List ℕ) → ReadsParams method opened.old bytes.now opened.new
        (λ x. trees_view x.0.items) (λ x. x.1.now) result }
{
    match begun(bytes) {
        Ok((true, rest)) => further_params(alloc, opened, rest),
        Ok((false, rest)) => Ok((Vec::new(alloc), rest)),
        Err(bad) => Err(Stop::At(bad.0)),
    }
}

fn further_params<'a>(
    alloc: Global,
    opened: &mut u32,
    bytes: &'a [u8],
) -> Result<(Vec<Value>, &'a [u8]), Stop>
    ensures { (method : List ℕ) → ReadsFurther method opened.old bytes.now opened.new
        (λ x. trees_view x.0.items) (λ x. x.1.now) result }
{
    let mut params = Vec::new(alloc);
    let mut rest = bytes;
    loop {
        match param(rest) {
            Ok((true, behind)) => match one_param(alloc, opened, params, behind) {
                Ok((more, behind)) => {
                    params = more;
                    rest = behind;
                }
                Err(stop) => return Err(stop),
            },
            Ok((false, behind)) => return Ok((params, behind)),
            Err(bad) => return Err(Stop::At(bad.0)),
        }
    }
}

/// Reads a further param after its opening tag.
fn one_param<'a>(
    alloc: Global,
    opened: &mut u32,
    params: Vec<Value>,
    bytes: &'a [u8],
) -> Result<(Vec<Value>, &'a [u8]), Stop>
    ensures reads { (method : List ℕ)
        → ReadsOne method (trees_view params.items) opened.old bytes.now opened.new
        (λ x. trees_view x.0.items) (λ x. x.1.now) result }
    ensures shorter { IfOk result (λ x. length x.1.now < length bytes.now) }
{
    match value(alloc, opened, bytes) {
        Ok((one, rest)) => match closing(Tag::EndParam, rest) {
            Ok(behind) => match kept(params, one, *opened) {
                Ok(more) => Ok((more, behind)),
                Err(_) => Err(Stop::OutOfMemory),
            },
            Err(bad) => Err(Stop::At(bad.0)),
        },
        Err(stop) => Err(stop),
    }
}

#[tactic(auto, using(sv_xmlcall::proofs::DocumentLaws::answer_value, sv_xmlcall::proofs::DocumentLaws::answer_fault))]
fn reply(alloc: Global, opened: &mut u32, bytes: &[u8]) -> Result<Answered, Stop>
    requires { opened.old ≡ 0 }
    ensures { Comes (run the_limits (start OfReply) bytes.now) opened.new
        (λ answered. AReply (reply_view answered)) result }
{
    match answer(bytes) {
        Ok((true, rest)) => value_reply(alloc, opened, rest),
        Ok((false, rest)) => fault_reply(alloc, opened, rest),
        Err(bad) => Err(Stop::At(bad.0)),
    }
}

/// Reads the value of a method's reply and the rest of the reply.
fn value_reply(alloc: Global, opened: &mut u32, bytes: &[u8]) -> Result<Answered, Stop>
    ensures { Comes (run the_limits (at (At AtValue) (InReply ∷ []) opened.old) bytes.now)
        opened.new (λ answered. AReply (reply_view answered)) result }
{
    match value(alloc, opened, bytes) {
        Ok((one, rest)) => match value_end(rest) {
            Ok(()) => Ok(Answered::Value(one)),
            Err(bad) => Err(Stop::At(bad.0)),
        },
        Err(stop) => Err(stop),
    }
}

fn value_end(bytes: &[u8]) -> Result<(), BadByte>
    ensures { GivesAlways (λ x. x) result (value_end_at bytes.now) }
{
    let rest = param_end(bytes)?;
    end(rest)
}

/// Reads the value of a fault and the rest of the reply.
fn fault_reply(alloc: Global, opened: &mut u32, bytes: &[u8]) -> Result<Answered, Stop>
    ensures { Comes (run the_limits (at (At AtValue) (InFault ∷ []) opened.old) bytes.now)
        opened.new (λ answered. AReply (reply_view answered)) result }
{
    match value(alloc, opened, bytes) {
        Ok((one, rest)) => match fault_of(&one) {
            Ok(answered) => match faulty(answered, rest) {
                Ok(answered) => Ok(answered),
                Err(bad) => Err(Stop::At(bad.0)),
            },
            Err(_) => Err(Stop::OutOfMemory),
        },
        Err(stop) => Err(stop),
    }
}

/// Reads what follows the value of a fault, which is none unless it is that of a fault.
fn faulty(answered: Option<Answered>, bytes: &[u8]) -> Result<Answered, BadByte>
    ensures { GivesAlways reply_view result (faulty_at (option_map reply_view answered) bytes.now) }
{
    match answered {
        Some(answered) => {
            let rest = fault_end(bytes)?;
            end(rest)?;
            Ok(answered)
        }
        None => Err(BadByte(bytes.len())),
    }
}

/// The fault of a struct of exactly the members faultCode and faultString, in either order.
fn fault_of(value: &Value) -> Result<Option<Answered>, AllocError>
    ensures { IfOk result (λ o. option_map reply_view o ≡ fault_of (view value.now)) }
{
    match value {
        Value::Struct(members) => match members.as_slice() {
            [first, rest @ ..] => match rest {
                [second, more @ ..] => match more {
                    [] => two_members(&first.0, &first.1, &second.0, &second.1),
                    [_, ..] => Ok(None),
                },
                [] => Ok(None),
            },
            [] => Ok(None),
        },
        _ => Ok(None),
    }
}

fn two_members(
    first: &Text,
    one: &Value,
    second: &Text,
    other: &Value,
) -> Result<Option<Answered>, AllocError>
    ensures { IfOk result (λ o. option_map reply_view o
        ≡ two_of first.now (view one.now) second.now (view other.now)) }
{
    match one {
        Value::Int(number) => match other {
            Value::Text(text) => named(first, second, *number, text),
            _ => Ok(None),
        },
        Value::Text(text) => match other {
            Value::Int(number) => named(second, first, *number, text),
            _ => Ok(None),
        },
        _ => Ok(None),
    }
}

fn named(
    code: &Text,
    string: &Text,
    number: i64,
    text: &Text,
) -> Result<Option<Answered>, AllocError>
    ensures { IfOk result (λ o. option_map reply_view o
        ≡ named_fault
        (bytes_eq code.now (codes "faultCode") && bytes_eq string.now (codes "faultString"))
        number text.now) }
{
    if code.as_str() == "faultCode" && string.as_str() == "faultString" {
        Ok(Some(Answered::Fault(number, text.clone()?)))
    } else {
        Ok(None)
    }
}

/// The text ends here, but for white space.
fn end(bytes: &[u8]) -> Result<(), BadByte>
    ensures { GivesAlways (λ x. x) result (end_at bytes.now) }
{
    match skip_white(bytes) {
        [] => Ok(()),
        rest => Err(BadByte(rest.len())),
    }
}
