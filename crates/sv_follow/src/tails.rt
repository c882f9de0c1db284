//! The tail methods: the call of a poll, and what its answer tells.
ghost use Rattle.std.specs.Prelude.{◌≡◌, IfOk, pos};
ghost use Rattle.sv_follow.specs.Tails.{sent, tail_by, tail_call, tail_method, tail_of};
ghost use Rattle.sv_xmlcall.specs.Trees.{array, call_view, trees_view, view};

use crate::follower::Follower;
use std::alloc::{AllocError, Global};
use sv_base::{Stream, Text};
use sv_xmlcall::{Call, Value};

/// What a tail method answers.
#[derive(Drop)]
pub struct Tail {
    /// The bytes, as a text.
    pub text: Text,
    /// The size of the log in bytes.
    pub size: u64,
    /// Whether there are more bytes from the offset on than the call asked for.
    pub overflow: bool,
}

/// The call of the next poll. The name is sent as it stands.
pub(crate) fn tail_call(
    alloc: Global,
    name: &str,
    stream: Stream,
    follower: &Follower,
) -> Result<Call, AllocError>
    ensures { IfOk result (λ call.
        call_view call ≡ tail_call name.now stream follower.now) }
{
    let (offset, length) = follower.ask();
    Ok(Call {
        method: Text::fixed(tail_method(stream)),
        params: vec![in alloc;
            Value::Text(Text::from_str(alloc, name)?),
            Value::Int(sent(offset)),
            Value::Int(sent(length)),
        ]?,
    })
}

fn tail_method(stream: Stream) -> &'static str
    ensures { result.now ≡ tail_method stream }
{
    match stream {
        Stream::Out => "supervisor.tailProcessStdoutLog",
        Stream::Err => "supervisor.tailProcessStderrLog",
    }
}

/// A number of bytes as an integer of 64 bits, whose greatest one stands for every greater number.
fn sent(number: u64) -> i64
    ensures { pos (sent number) ≡ result }
{
    i64::try_from(number).unwrap_or(i64::MAX)
}

/// What a value tells, or none exactly where no tail method gives it: it is an array of a text, a number that isn't negative,
/// and a boolean.
pub(crate) fn tail_of(value: &Value) -> Result<Option<Tail>, AllocError>
    ensures { IfOk result (λ tail. tail ≡ tail_of (view value.now)) }
{
    match value {
        Value::Array(values) => tail_in(values.as_slice()),
        _ => Ok(None),
    }
}

/// What the values of an array tell.
fn tail_in(values: &[Value]) -> Result<Option<Tail>, AllocError>
    ensures { IfOk result (λ tail. tail ≡ tail_of (array (trees_view values.now))) }
{
    match values {
        [text, size, overflow] => tail_by(text, size, overflow),
        _ => Ok(None),
    }
}

fn tail_by(text: &Value, size: &Value, overflow: &Value) -> Result<Option<Tail>, AllocError>
    ensures { IfOk result (λ tail.
        tail ≡ tail_by (view text.now) (view size.now) (view overflow.now)) }
{
    match (text, size, overflow) {
        (Value::Text(text), Value::Int(size), Value::Truth(overflow)) if 0 <= *size => Ok(Some(
            Tail {
                text: text.clone()?,
                size: *size as u64,
                overflow: *overflow,
            },
        )),
        _ => Ok(None),
    }
}
