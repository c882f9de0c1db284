//! What is said of the answer to a poll.
ghost use Rattle.std.specs.Prelude.{◌≡◌, IfOk, OnOk};
ghost use Rattle.sv_ctl.specs.Ask.Asking as ask;
ghost use Rattle.sv_follow.specs.Polls.{after_answer, after_tail, over, poll_told, tail_told};
ghost use Rattle.sv_follow.specs.Polls.{line_of};
ghost use Rattle.sv_ctl.specs.Talk.Answers.{IsKnown};
ghost use Rattle.sv_ctl.specs.Talk.Courses.{IsLost, IsSayable};

use crate::follower::Follower;
use crate::notices::printed;
use crate::tails::{Tail, tail_of};
use std::alloc::{AllocError, Global};
use sv_base::{Bytes, Text};
use sv_commands::{Line, Show, Status};
use sv_ctl::ask::AskFault;
use sv_ctl::talk::{Course, Told, bad_reply, told_of};
use sv_xmlcall::Answered;

/// What is said of the answer to a poll of the log of this name: what it shows, or why the log isn't followed any longer.
pub(crate) fn poll_told(
    alloc: Global,
    url: &str,
    name: &str,
    follower: &mut Follower,
    answer: &Result<Answered, AskFault>,
) -> Result<Told, AllocError>
    ensures told { IfOk result (λ told.
        told ≡ poll_told url.now name.now follower.old answer.now) }
    ensures next { OnOk result (follower.new ≡ after_answer follower.old answer.now) }
    ensures known { OnOk result (IsKnown answer.now) }
    ensures sayable { IfOk result (λ told. IsSayable told.course) }
    ensures lost { IfOk result (λ told. IsLost told.course → ask.IsLost answer.now) }
{
    match answer {
        Ok(Answered::Value(value)) => tail_told(alloc, follower, tail_of(value)?),
        _ => {
            let line = line_of(alloc, name)?;
            Ok(over(told_of(alloc, url, &line, Status::Done, answer)?))
        }
    }
}

/// How the fault of a poll is said: by the log's name, and it counts.
fn line_of(alloc: Global, name: &str) -> Result<Line, AllocError>
    ensures { IfOk result (λ line. line ≡ line_of name.now) }
{
    Ok(Line {
        name: Some(Text::from_str(alloc, name)?),
        show: Show::Log,
        counts: true,
    })
}

/// The same text, after which the log isn't followed any longer.
fn over(told: Told) -> Told
    ensures { result ≡ over told }
{
    let Told { text, course } = told;
    let course = match course {
        Course::On(status) => Course::Quit(status),
        course => course,
    };
    Told { text, course }
}

/// What a poll shows, or that its answer can't be read.
fn tail_told(alloc: Global, follower: &mut Follower, tail: Option<Tail>) -> Result<Told, AllocError>
    ensures told { IfOk result (λ told. told ≡ tail_told follower.old tail) }
    ensures next { OnOk result (follower.new ≡ after_tail follower.old tail) }
    ensures sayable { IfOk result (λ told. IsSayable told.course) }
    ensures lost { IfOk result (λ told. IsLost told.course → ⊥) }
{
    let Some(
        Tail {
            text,
            size,
            overflow,
        },
    ) = tail
    else {
        return bad_reply(alloc);
    };
    let shown = follower.answer(text, size, overflow);
    Ok(Told {
        text: Bytes::from_vec(printed(alloc, &shown)?),
        course: Course::On(Status::Done),
    })
}
