//! What is said of one answer.
ghost use Rattle.std.specs.Prelude.{◌≡◌, ◌++◌, IfOk};
ghost use Rattle.sv_commands.specs.Lines.{reply_shown};
ghost use Rattle.sv_xmlcall.specs.Trees.{reply_view};
ghost use Rattle.sv_ctl.specs.Ask.Asking as ask;
ghost use Rattle.sv_ctl.specs.Talk.Courses.{IsLost, IsSayable};
ghost use Rattle.sv_ctl.specs.Talk.Answers.{IsKnown, bad_reply, shown_or_bad, status_line, told_of};
ghost use Rattle.sv_ctl.specs.Talk.Answers.{with_url};
ghost use Rattle.sv_ctl.specs.declared.talk.course.Course.TheVariants as course;

use crate::ask::AskFault;
use crate::talk::course::Course;
use itoa::Buffer;
use std::alloc::{AllocError, Global};
use sv_base::Bytes;
use sv_commands::{Line, Shown, Status, reply_shown};
use sv_xmlcall::Answered;

/// A text that is to be printed, and how the conversation goes on then.
#[derive(Drop)]
pub struct Told {
    pub text: Bytes,
    pub course: Course,
}

/// What is said of the answer to a call of the server with this URL, where the command has this status so far. Fails where
/// memory is refused, or was in the call.
pub fn told_of(
    alloc: Global,
    url: &str,
    line: &Line,
    status: Status,
    answer: &Result<Answered, AskFault>,
) -> Result<Told, AllocError>
    ensures told { IfOk result (λ told. told ≡ told_of url.now line.now status answer.now) }
    ensures known { IfOk result (λ told. IsKnown answer.now) }
    ensures sayable { IfOk result (λ told. IsSayable told.course) }
    ensures lost { IfOk result (λ told. IsLost told.course → ask.IsLost answer.now) }
{
    match answer {
        Ok(answered) => shown_or_bad(alloc, status, reply_shown(alloc, line, answered)?),
        Err(AskFault::Refused) => with_url(alloc, url, b" refused connection\n"),
        Err(AskFault::LinkFailed) => with_url(alloc, url, b" broke off\n"),
        Err(AskFault::Ended) | Err(AskFault::BadReply) => bad_reply(alloc),
        Err(AskFault::Status(number)) => status_line(alloc, *number),
        Err(AskFault::OutOfMemory) => Err(AllocError),
    }
}

/// What an answer shows, or that it can't be read.
fn shown_or_bad(alloc: Global, status: Status, shown: Option<Shown>) -> Result<Told, AllocError>
    ensures told { IfOk result (λ told. told ≡ shown_or_bad status shown) }
    ensures sayable { IfOk result (λ told. IsSayable told.course) }
    ensures lost { IfOk result (λ told. IsLost told.course → ⊥) }
{
    match shown {
        Some(shown) => Ok(Told {
            text: shown.text,
            course: Course::On(status.worse(shown.status)),
        }),
        None => bad_reply(alloc),
    }
}

/// The URL with these words after it, where there is no connection any more.
fn with_url(alloc: Global, url: &str, words: &[u8]) -> Result<Told, AllocError>
    ensures { IfOk result (λ told. told ≡ with_url url.now words.now) }
{
    let mut text = Vec::from_slice(alloc, url.as_bytes())?;
    text.extend_from_slice(words)?;
    Ok(Told {
        text: Bytes::from_vec(text),
        course: Course::Lost,
    })
}

/// The line of a reply that can't be read, which ends its command.
pub fn bad_reply(alloc: Global) -> Result<Told, AllocError>
    ensures { IfOk result (λ told. told ≡ bad_reply) }
{
    Ok(Told {
        text: Bytes::from_slice(alloc, b"Error: bad reply\n")?,
        course: Course::Broken,
    })
}

/// The line of a reply with a status that isn't 200.
fn status_line(alloc: Global, number: u16) -> Result<Told, AllocError>
    ensures { IfOk result (λ told. told
        ≡ record { text = status_line number; course = course.Broken }) }
{
    Ok(Told {
        text: Bytes::from_vec(status_text(alloc, number)?),
        course: Course::Broken,
    })
}

fn status_text(alloc: Global, number: u16) -> Result<Vec<u8>, AllocError>
    ensures { IfOk result (λ text. text.items ≡ status_line number) }
{
    if number == 401 {
        return Ok(Vec::from_slice(alloc, b"Server requires authentication\n")?);
    }
    let mut buffer = Buffer::new();
    let mut text = Vec::from_slice(alloc, b"Server answered ")?;
    text.extend_from_slice(buffer.format(number).as_bytes())?;
    text.push(b'\n')?;
    Ok(text)
}
