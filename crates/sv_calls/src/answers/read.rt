//! A read of a part of a log, and the answer that it makes.
ghost use Rattle.std.specs.Prelude.{◌≡◌, IfOk};
ghost use Rattle.std.specs.Option.{option_copied};
ghost use Rattle.sv_calls.specs.Answers.Served.{missing, offset_tree, reads_back, shaped};
ghost use Rattle.sv_xmlcall.specs.Trees.{reply_view, view};

use crate::answers::sent::faulty;
use std::alloc::{AllocError, Global};
use sv_base::bytes::Bytes;
use sv_base::text::Text;
use sv_info::Fault;
use sv_logs::Span;
use sv_methods::ReadShape;
use sv_xmlcall::{Answered, Value, text_of_log};

/// A part of a log that a call asks for.
#[derive(Drop)]
pub struct LogRead {
    pub file: Text,
    pub span: Span,
    pub shape: ReadShape,
    /// What the call named, if it named something.
    pub subject: Option<Text>,
}

/// What became of a read of a part of a file.
#[derive(Drop)]
pub enum FileReply {
    /// Its bytes, fewer than were asked for where the file ends before.
    Part(Bytes),
    /// There is no such file.
    Missing,
    /// The file couldn't be read.
    Failed,
}

/// What a call is answered whose part of a log was read.
pub fn read_back(
    alloc: Global,
    reading: &LogRead,
    reply: &FileReply,
) -> Result<Answered, AllocError>
    ensures { IfOk result (λ answered. reply_view answered ≡ reads_back reading.now reply.now) }
{
    match reply {
        FileReply::Part(bytes) => {
            let text = text_of_log(alloc, bytes.as_slice())?;
            let value = shape(alloc, reading.shape, text)?;
            Ok(Answered::Value(value))
        }
        FileReply::Missing => miss(alloc, reading),
        FileReply::Failed => faulty(alloc, Fault::Failed, subject_of(reading)),
    }
}

fn miss(alloc: Global, reading: &LogRead) -> Result<Answered, AllocError>
    ensures { IfOk result (λ answered. reply_view answered
        ≡ missing reading.now reading.now.shape) }
{
    match reading.shape {
        ReadShape::Plain => faulty(alloc, Fault::NoFile, subject_of(reading)),
        ReadShape::Tail(_, _) => {
            let value = shape(alloc, ReadShape::Tail(0, false), Text::fixed(""))?;
            Ok(Answered::Value(value))
        }
    }
}

/// What the call named, if it named something.
fn subject_of(reading: &LogRead) -> Option<&str>
    ensures { option_copied result ≡ reading.now.subject }
{
    match &reading.subject {
        Some(subject) => Some(subject.as_str()),
        None => None,
    }
}

/// A part of a log as a value.
fn shape(alloc: Global, shape: ReadShape, part: Text) -> Result<Value, AllocError>
    ensures { IfOk result (λ value. view value ≡ shaped shape part) }
{
    match shape {
        ReadShape::Plain => Ok(Value::Text(part)),
        ReadShape::Tail(offset, missed) => Ok(Value::Array(vec![in alloc;
            Value::Text(part),
            offset_value(offset),
            Value::Truth(missed),
        ]?)),
    }
}

/// An offset as an integer of 64 bits.
fn offset_value(offset: u64) -> Value
    ensures { view result ≡ offset_tree offset }
{
    Value::Int(i64::try_from(offset).unwrap_or(i64::MAX))
}
