//! What an input is to the machine.
ghost use Rattle.std.specs.Prelude.{◌≡◌};
ghost use Rattle.sv_core.specs.Failure.{refusal_of};
ghost use Rattle.sv_core.specs.Moves.{started_as, told_of};
ghost use Rattle.sv_core.specs.Parts.{answers, part_of};

use crate::failure::Failure;
use sv_base::bytes::{Bytes, Piece};
use sv_base::ids::{LinkId, Run};
use sv_base::moment::Moment;
use sv_base::number::Pid;
use sv_base::signal::DaemonSignal;
use sv_base::state::{How, Side, Stream};
use sv_base::text::Text;
use sv_children::Told;
use sv_out::input::Input;
use sv_out::rising::RisingNames;

/// What is asked of the world, and answered before the turn goes on.
#[derive(Clone, Copy)]
pub enum Question {
    /// Whether a process was started.
    Spawn,
    /// The bytes of a part of a file, at most so many.
    Read(u64),
    /// Whether a file was cleared.
    Clear,
}

/// The answer of a question.
#[derive(Drop)]
pub enum Reply {
    /// The process of a spawn has this number.
    Started(Pid),
    /// There is no such program.
    NoFile,
    /// The program can't be executed.
    NotExecutable,
    /// There is no process, for this reason.
    Refused(Text),
    /// These bytes were read.
    Read(Bytes),
    /// There is no such file.
    Missing,
    /// The file is empty now.
    Done,
    /// The names of these files; no question that is asked wants them.
    Names(RisingNames),
    /// The file has so many bytes; no question that is asked wants to know.
    Size(u64),
    /// The file couldn't be read, or cleared.
    Failed,
}

/// What a child is told of this answer.
pub(crate) fn told_of(reply: Reply) -> Told
    ensures { result ≡ told_of reply }
{
    match reply {
        Reply::Started(pid) => Told::Started(pid),
        Reply::NoFile => Told::NotStarted(Text::fixed("can't find command")),
        Reply::NotExecutable => Told::NotStarted(Text::fixed("command is not executable")),
        Reply::Refused(text) => Told::NotStarted(text),
        _ => Told::NotStarted(Text::fixed("failed")),
    }
}

/// The number of the process that a spawn started.
pub(crate) fn started_as(reply: &Reply) -> Option<u32>
    ensures { result ≡ started_as reply.now }
{
    match reply {
        Reply::Started(pid) => Some(pid.get()),
        _ => None,
    }
}

/// The refusal of the question that stands, if one stands.
pub(crate) fn refusal_of(asked: Option<Question>) -> Reply
    ensures { result ≡ refusal_of asked }
{
    match asked {
        Some(Question::Read(_)) | Some(Question::Clear) => Reply::Failed,
        Some(Question::Spawn) | None => Reply::Refused(Text::fixed("failed")),
    }
}

/// What followed the input that began a turn.
#[derive(Drop)]
pub enum Followed {
    /// The question was answered.
    Answered(Reply),
    /// An order couldn't be carried out.
    Failed(Failure),
}

/// What begins a turn.
#[derive(Drop)]
pub enum Cause {
    /// The clock alone.
    Tick,
    /// The process of a run ended.
    Exit(Run, How),
    /// A stream of a run brought a piece.
    Heard(Run, Stream, Piece),
    /// A stream of a run ended.
    PipeEnd(Run, Stream),
    /// A link was opened at a side.
    Opened(LinkId, Side),
    /// A link brought a piece.
    Brought(LinkId, Piece),
    /// The client of a link ended.
    LinkEnd(LinkId),
    /// The console asks for starts.
    Start(Text),
    /// The console asks for stops.
    Stop(Text),
    /// The daemon was sent a signal.
    Signal(DaemonSignal),
}

/// What an input is to the machine.
#[derive(Drop)]
pub enum Part {
    /// It begins a turn at this moment.
    Begins(Moment, Cause),
    /// It answers the question that stands.
    Answers(Reply),
    /// It says that the order of this number failed.
    Fails(u64),
}

/// What this input is to the machine.
pub(crate) fn part_of(input: Input) -> Part
    ensures { result ≡ part_of input }
{
    match input {
        Input::Tick { at } => Part::Begins(at, Cause::Tick),
        Input::Exit { at, run, how } => Part::Begins(at, Cause::Exit(run, how)),
        Input::Out {
            at,
            run,
            stream,
            bytes,
        } => Part::Begins(at, Cause::Heard(run, stream, bytes)),
        Input::OutEnd { at, run, stream } => Part::Begins(at, Cause::PipeEnd(run, stream)),
        Input::Open { at, link, side } => Part::Begins(at, Cause::Opened(link, side)),
        Input::Piece { at, link, bytes } => Part::Begins(at, Cause::Brought(link, bytes)),
        Input::LinkEnd { at, link } => Part::Begins(at, Cause::LinkEnd(link)),
        Input::Start { at, name } => Part::Begins(at, Cause::Start(name)),
        Input::Stop { at, name } => Part::Begins(at, Cause::Stop(name)),
        Input::Signal { at, signal } => Part::Begins(at, Cause::Signal(signal)),
        Input::Pid(pid) => Part::Answers(Reply::Started(pid)),
        Input::NoFile => Part::Answers(Reply::NoFile),
        Input::NotExecutable => Part::Answers(Reply::NotExecutable),
        Input::Refused(text) => Part::Answers(Reply::Refused(text)),
        Input::Read(bytes) => Part::Answers(Reply::Read(bytes)),
        Input::Done => Part::Answers(Reply::Done),
        Input::Missing => Part::Answers(Reply::Missing),
        Input::Names(names) => Part::Answers(Reply::Names(names)),
        Input::Size(size) => Part::Answers(Reply::Size(size)),
        Input::Failed(number) => Part::Fails(number),
    }
}

/// Whether this input answers the question that stands, if one stands.
pub(crate) fn fits(asked: Option<Question>, input: &Input) -> bool
    ensures { result ≡ answers asked (part_of input.now) }
{
    match (asked, input) {
        (
            Some(Question::Spawn),
            Input::Pid(_) | Input::NoFile | Input::NotExecutable | Input::Refused(_),
        ) => true,
        (Some(Question::Read(most)), Input::Read(bytes)) => bytes.as_slice().len() as u64 <= most,
        (Some(Question::Read(_)) | Some(Question::Clear), Input::Missing) => true,
        (Some(Question::Clear), Input::Done) => true,
        _ => false,
    }
}
