//! The outer parts of a call and of a reply.
ghost use Rattle.std.specs.Prelude.{◌≡◌, ◌<◌, ◌≤◌, false, IfOk, length};
ghost use Rattle.sv_xmlcall.specs.Outcome.{Gives, GivesAlways};
ghost use Rattle.sv_xmlcall.specs.Reading.{prolog_from};
ghost use Rattle.sv_xmlcall.specs.Documents.{declared_at, document_of, document_at, head_at};
ghost use Rattle.sv_xmlcall.specs.Documents.{begun_of, begun_at, param_of, param_at, answer_of};
ghost use Rattle.sv_xmlcall.specs.Documents.{answer_at, param_end_at, fault_end_at};
ghost use Rattle.sv_letters.specs.declared.letters.Awaits.{Awaits};

use crate::atoms::{close, closing, tag_behind};
use crate::content::method_name;
use crate::stop::Stop;
use crate::tag::Tag;
use std::alloc::Global;
use sv_base::text::Text;
use sv_letters::{Awaits, BadByte, Letters};

/// Reads the declaration after its `<?xml`.
fn prolog(bytes: &[u8]) -> Result<&[u8], BadByte>
    ensures { GivesAlways (λ rest. rest.now) result (prolog_from false Awaits.Character bytes.now) }
{
    let mut question = false;
    let mut awaits = Awaits::Character;
    let mut rest = bytes;
    while let [byte, after @ ..] = rest {
        if question && *byte == b'>' {
            return Ok(after);
        }
        if !awaits.allows(Letters::OfText, *byte) {
            return Err(BadByte(rest.len()));
        }
        question = *byte == b'?';
        awaits = awaits.after(Letters::OfText, *byte);
        rest = after;
    }
    Err(BadByte(0))
}

fn declared(begin: Tag, bytes: &[u8]) -> Result<&[u8], BadByte>
    ensures { GivesAlways (λ rest. rest.now) result (declared_at begin bytes.now) }
{
    let rest = prolog(bytes)?;
    let (_, rest) = tag_behind(&[begin], rest)?;
    Ok(rest)
}

/// Reads what stands before the outermost element, and its opening tag.
#[tactic(auto, unfolding(crate::specs::Documents::document_at))]
fn document(begin: Tag, bytes: &[u8]) -> Result<&[u8], BadByte>
    ensures { GivesAlways (λ rest. rest.now) result (document_at begin bytes.now) }
{
    let (tag, rest) = tag_behind(&[Tag::Declaration, begin], bytes)?;
    match tag {
        Tag::Declaration => declared(begin, rest),
        _ => Ok(rest),
    }
}

/// Reads a call up to its method's name.
#[tactic(auto, unfolding(crate::specs::Documents::head_at))]
pub fn head(alloc: Global, bytes: &[u8]) -> Result<(Text, &[u8]), Stop>
    ensures { Gives (λ x. (x.0, x.1.now)) result (head_at bytes.now) }
{
    let rest = document(Tag::MethodCall, bytes)?;
    let (_, rest) = tag_behind(&[Tag::MethodName], rest)?;
    method_name(alloc, rest)
}

/// Reads what follows the name of a call: whether params may come, or else the end of the call.
#[tactic(auto, unfolding(crate::specs::Documents::begun_at))]
pub fn begun(bytes: &[u8]) -> Result<(bool, &[u8]), BadByte>
    ensures { GivesAlways (λ x. (x.0, x.1.now)) result (begun_at bytes.now) }
{
    let (tag, rest) = tag_behind(&[Tag::Params, Tag::NoParams, Tag::EndMethodCall], bytes)?;
    match tag {
        Tag::Params => Ok((true, rest)),
        Tag::NoParams => {
            let rest = closing(Tag::EndMethodCall, rest)?;
            Ok((false, rest))
        }
        _ => {
            let rest = close(rest)?;
            Ok((false, rest))
        }
    }
}

/// Reads whether one more param comes, or else the end of the call.
#[tactic(auto, unfolding(crate::specs::Documents::param_at))]
pub fn param(bytes: &[u8]) -> Result<(bool, &[u8]), BadByte>
    ensures value { GivesAlways (λ x. (x.0, x.1.now)) result (param_at bytes.now) }
    ensures shorter { IfOk result (λ x. length x.1.now < length bytes.now) }
{
    let (tag, rest) = tag_behind(&[Tag::Param, Tag::EndParams], bytes)?;
    match tag {
        Tag::Param => Ok((true, rest)),
        _ => {
            let rest = close(rest)?;
            let rest = closing(Tag::EndMethodCall, rest)?;
            Ok((false, rest))
        }
    }
}

/// Reads a reply up to its value: whether it is that of a method, or a fault.
#[tactic(auto, unfolding(crate::specs::Documents::answer_at))]
pub fn answer(bytes: &[u8]) -> Result<(bool, &[u8]), BadByte>
    ensures { GivesAlways (λ x. (x.0, x.1.now)) result (answer_at bytes.now) }
{
    let rest = document(Tag::MethodResponse, bytes)?;
    let (tag, rest) = tag_behind(&[Tag::Params, Tag::Fault], rest)?;
    match tag {
        Tag::Params => {
            let (_, rest) = tag_behind(&[Tag::Param], rest)?;
            Ok((true, rest))
        }
        _ => Ok((false, rest)),
    }
}

/// Reads what follows the value of a method's reply.
#[tactic(auto, unfolding(crate::specs::Documents::param_end_at))]
pub fn param_end(bytes: &[u8]) -> Result<&[u8], BadByte>
    ensures { GivesAlways (λ rest. rest.now) result (param_end_at bytes.now) }
{
    let rest = closing(Tag::EndParam, bytes)?;
    let rest = closing(Tag::EndParams, rest)?;
    closing(Tag::EndMethodResponse, rest)
}

/// Reads what follows the value of a fault.
#[tactic(auto, unfolding(crate::specs::Documents::fault_end_at))]
pub fn fault_end(bytes: &[u8]) -> Result<&[u8], BadByte>
    ensures { GivesAlways (λ rest. rest.now) result (fault_end_at bytes.now) }
{
    let rest = closing(Tag::EndFault, bytes)?;
    closing(Tag::EndMethodResponse, rest)
}
