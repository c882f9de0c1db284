//! Reading an input line, part by part.
ghost use Rattle.std.specs.Prelude.{◌≡◌, ◌≤◌, IfSome, Ok};
ghost use Rattle.sv_base.specs.Limits.{moment_limit};
ghost use Rattle.sv_out.specs.declared.input.Input.{Input};
ghost use Rattle.sv_journal.specs.Reading.{Gives, GivesAlways};
ghost use Rattle.sv_journal.specs.ReadingLines.{how_at, exit_at, out_at, out_end_at, open_at};
ghost use Rattle.sv_journal.specs.ReadingLines.{link_piece_at, link_end_at, event_of, event_at};
ghost use Rattle.sv_journal.specs.ReadingLines.{answer_of, answer_at, input_at};

use crate::names_line::names;
use crate::number::number;
use crate::piece::piece_of_line;
use crate::stop::Stop;
use crate::token::{bytes_of_line, rest_of_line};
use crate::word::{end, keyword, word};
use crate::words::{ANSWERS, Answer, ENDINGS, Ending, SIDES, TOLD_SIGNALS, VERBS, Verb};
use std::alloc::Global;
use sv_base::ids::{LinkId, Run};
use sv_base::moment::{MOMENT_LIMIT, Moment};
use sv_base::number::{ExitSignal, Pid};
use sv_base::state::{How, Stream};
use sv_letters::BadByte;
use sv_out::input::Input;

/// Reads an input line as the grammar has it, however long it is.
#[tactic(auto, unfolding(crate::specs::ReadingLines::input_at))]
pub fn input(alloc: Global, bytes: &[u8]) -> Result<Input, Stop>
    ensures { Gives (λ x. x) result (input_at bytes.now) }
{
    match bytes {
        [first, ..] if first.is_ascii_digit() => event(alloc, bytes),
        _ => answer(alloc, bytes),
    }
}

/// Reads the line of a clock moment, of which a journal has the most; none where it is another line.
pub fn tick(bytes: &[u8]) -> Option<Moment>
    ensures { IfSome result (λ at. input_at bytes.now ≡ Ok (Input.Tick at)) }
{
    match number(0, MOMENT_LIMIT, bytes) {
        Ok((milliseconds, rest)) if rest == b" tick".as_slice() => Some(moment(milliseconds)),
        _ => None,
    }
}

#[tactic(auto, unfolding(crate::specs::ReadingLines::event_at))]
fn event(alloc: Global, bytes: &[u8]) -> Result<Input, Stop>
    ensures { Gives (λ x. x) result (event_at bytes.now) }
{
    let (milliseconds, rest) = number(0, MOMENT_LIMIT, bytes)?;
    let rest = word(b" ", rest)?;
    let (verb, rest) = keyword(&VERBS, rest)?;
    event_of(alloc, moment(milliseconds), verb, rest)
}

/// The moment of these milliseconds since 1970 UTC.
pub fn moment(milliseconds: u64) -> Moment
    requires { milliseconds ≤ moment_limit }
    ensures { result ≡ milliseconds }
{
    Moment::new(milliseconds).unwrap()
}

#[tactic(auto, unfolding(crate::specs::ReadingLines::event_of))]
fn event_of(alloc: Global, at: Moment, verb: Verb, bytes: &[u8]) -> Result<Input, Stop>
    ensures { Gives (λ x. x) result (event_of at verb bytes.now) }
{
    match verb {
        Verb::Tick => Ok(end(Input::Tick { at }, bytes)?),
        Verb::Exit => Ok(exit_of(at, bytes)?),
        Verb::Out => out(alloc, at, Stream::Out, bytes),
        Verb::Err => out(alloc, at, Stream::Err, bytes),
        Verb::OutEnd => Ok(out_end(at, Stream::Out, bytes)?),
        Verb::ErrEnd => Ok(out_end(at, Stream::Err, bytes)?),
        Verb::Open => Ok(open(at, bytes)?),
        Verb::Piece => link_piece(alloc, at, bytes),
        Verb::End => Ok(link_end(at, bytes)?),
        Verb::Start => {
            let name = rest_of_line(alloc, bytes)?;
            Ok(Input::Start { at, name })
        }
        Verb::Stop => {
            let name = rest_of_line(alloc, bytes)?;
            Ok(Input::Stop { at, name })
        }
        Verb::Signal => {
            let (told, rest) = keyword(&TOLD_SIGNALS, bytes)?;
            let signal = told.daemon_signal();
            Ok(end(Input::Signal { at, signal }, rest)?)
        }
    }
}

/// Reads how a child ended.
#[tactic(auto, unfolding(crate::specs::ReadingLines::exit_at))]
fn exit_of(at: Moment, bytes: &[u8]) -> Result<Input, BadByte>
    ensures { GivesAlways (λ x. x) result (exit_at at bytes.now) }
{
    let (run, rest) = number(0, u64::from(u32::MAX), bytes)?;
    let rest = word(b" ", rest)?;
    let (ending, rest) = keyword(&ENDINGS, rest)?;
    how(at, Run(run as u32), ending, rest)
}

#[tactic(auto, unfolding(crate::specs::ReadingLines::how_at))]
fn how(at: Moment, run: Run, ending: Ending, bytes: &[u8]) -> Result<Input, BadByte>
    ensures { GivesAlways (λ x. x) result (how_at at run ending bytes.now) }
{
    match ending {
        Ending::Code => {
            let (code, rest) = number(0, 255, bytes)?;
            end(
                Input::Exit {
                    at,
                    run,
                    how: How::Code(code as u8),
                },
                rest,
            )
        }
        Ending::Signal => {
            let (signal, rest) = number(1, 64, bytes)?;
            end(
                Input::Exit {
                    at,
                    run,
                    how: How::Signal(ExitSignal::new(signal as u32).unwrap()),
                },
                rest,
            )
        }
    }
}

/// Reads what a child wrote to this stream.
#[tactic(auto, unfolding(crate::specs::ReadingLines::out_at))]
fn out(alloc: Global, at: Moment, stream: Stream, bytes: &[u8]) -> Result<Input, Stop>
    ensures { Gives (λ x. x) result (out_at at stream bytes.now) }
{
    let (run, rest) = number(0, u64::from(u32::MAX), bytes)?;
    let rest = word(b" ", rest)?;
    let bytes = piece_of_line(alloc, rest)?;
    Ok(Input::Out {
        at,
        run: Run(run as u32),
        stream,
        bytes,
    })
}

/// Reads whose stream ended.
#[tactic(auto, unfolding(crate::specs::ReadingLines::out_end_at))]
fn out_end(at: Moment, stream: Stream, bytes: &[u8]) -> Result<Input, BadByte>
    ensures { GivesAlways (λ x. x) result (out_end_at at stream bytes.now) }
{
    let (run, rest) = number(0, u64::from(u32::MAX), bytes)?;
    let run = Run(run as u32);
    end(Input::OutEnd { at, run, stream }, rest)
}

/// Reads by which side a client connected.
#[tactic(auto, unfolding(crate::specs::ReadingLines::open_at))]
fn open(at: Moment, bytes: &[u8]) -> Result<Input, BadByte>
    ensures { GivesAlways (λ x. x) result (open_at at bytes.now) }
{
    let (link, rest) = number(0, u64::from(u32::MAX), bytes)?;
    let link = LinkId(link as u32);
    let rest = word(b" ", rest)?;
    let (side, rest) = keyword(&SIDES, rest)?;
    end(Input::Open { at, link, side }, rest)
}

/// Reads what a client sent over its link.
#[tactic(auto, unfolding(crate::specs::ReadingLines::link_piece_at))]
fn link_piece(alloc: Global, at: Moment, bytes: &[u8]) -> Result<Input, Stop>
    ensures { Gives (λ x. x) result (link_piece_at at bytes.now) }
{
    let (link, rest) = number(0, u64::from(u32::MAX), bytes)?;
    let link = LinkId(link as u32);
    let rest = word(b" ", rest)?;
    let bytes = piece_of_line(alloc, rest)?;
    Ok(Input::Piece { at, link, bytes })
}

/// Reads which link ended.
#[tactic(auto, unfolding(crate::specs::ReadingLines::link_end_at))]
fn link_end(at: Moment, bytes: &[u8]) -> Result<Input, BadByte>
    ensures { GivesAlways (λ x. x) result (link_end_at at bytes.now) }
{
    let (link, rest) = number(0, u64::from(u32::MAX), bytes)?;
    let link = LinkId(link as u32);
    end(Input::LinkEnd { at, link }, rest)
}

#[tactic(auto, unfolding(crate::specs::ReadingLines::answer_at))]
fn answer(alloc: Global, bytes: &[u8]) -> Result<Input, Stop>
    ensures { Gives (λ x. x) result (answer_at bytes.now) }
{
    let (answer, rest) = keyword(&ANSWERS, bytes)?;
    answer_of(alloc, answer, rest)
}

#[tactic(auto, unfolding(crate::specs::ReadingLines::answer_of))]
fn answer_of(alloc: Global, answer: Answer, bytes: &[u8]) -> Result<Input, Stop>
    ensures { Gives (λ x. x) result (answer_of answer bytes.now) }
{
    match answer {
        Answer::Pid => {
            let (pid, rest) = number(1, u64::from(u32::MAX), bytes)?;
            Ok(end(Input::Pid(Pid::new(pid as u32).unwrap()), rest)?)
        }
        Answer::NoFile => Ok(end(Input::NoFile, bytes)?),
        Answer::NotExecutable => Ok(end(Input::NotExecutable, bytes)?),
        Answer::Refused => {
            let reason = rest_of_line(alloc, bytes)?;
            Ok(Input::Refused(reason))
        }
        Answer::Bytes => {
            let bytes = bytes_of_line(alloc, bytes)?;
            Ok(Input::Read(bytes))
        }
        Answer::Done => Ok(end(Input::Done, bytes)?),
        Answer::Missing => Ok(end(Input::Missing, bytes)?),
        Answer::Names => names(alloc, bytes),
        Answer::Size => {
            let (size, rest) = number(0, u64::MAX, bytes)?;
            Ok(end(Input::Size(size), rest)?)
        }
        Answer::Failed => {
            let (order, rest) = number(0, u64::MAX, bytes)?;
            Ok(end(Input::Failed(order), rest)?)
        }
    }
}
