//! The answers to questions, as inputs.
ghost use Rattle.std.specs.Prelude.{◌≡◌};
ghost use Rattle.sv_threads.specs.Answers.{AnswersFile, AnswersSpawn, KeepsFile, answer_of_refusal};
ghost use Rattle.sv_threads.specs.Answers.{answer_of_spawn, input_of_answer};

use std::alloc::AllocError;
use sv_base::{Bytes, Pid, Text};
use sv_out::input::Input;
use sv_out::rising::RisingNames;
use sv_outside::{Handed, Refusal};
use sv_parts::files::FileAnswer;
use sv_parts::runs::SpawnAnswer;

/// The answer to a question.
#[derive(Drop)]
pub(crate) enum Answer {
    Pid(Pid),
    NoFile,
    NotExecutable,
    Refused(Text),
    Read(Bytes),
    Done,
    Missing,
    Names(RisingNames),
    Size(u64),
}

impl Answer {
    /// As an input.
    pub(crate) fn into_input(self) -> Input
        ensures { result ≡ input_of_answer self }
    {
        match self {
            Answer::Pid(pid) => Input::Pid(pid),
            Answer::NoFile => Input::NoFile,
            Answer::NotExecutable => Input::NotExecutable,
            Answer::Refused(reason) => Input::Refused(reason),
            Answer::Read(bytes) => Input::Read(bytes),
            Answer::Done => Input::Done,
            Answer::Missing => Input::Missing,
            Answer::Names(names) => Input::Names(names),
            Answer::Size(size) => Input::Size(size),
        }
    }
}

/// Keeps what a spawn came to, for the next input.
pub(crate) fn answer_spawn(
    answer: &mut Option<Answer>,
    given: Result<SpawnAnswer, AllocError>,
) -> Result<Handed, AllocError>
    ensures { AnswersSpawn given answer.old answer.new result }
{
    *answer = Some(answer_of_spawn(given?));
    Ok(Handed::Done)
}

/// Keeps what a file's question came to, for the next input. Where it failed nothing is kept.
pub(crate) fn answer_file(
    answer: &mut Option<Answer>,
    given: Result<FileAnswer, AllocError>,
) -> Result<Handed, AllocError>
    ensures { AnswersFile given answer.old answer.new result }
{
    Ok(keep_file_answer(answer, given?))
}

/// The answer to a spawn.
fn answer_of_spawn(answer: SpawnAnswer) -> Answer
    ensures { result ≡ answer_of_spawn answer }
{
    match answer {
        SpawnAnswer::Pid(pid) => Answer::Pid(pid),
        SpawnAnswer::Refused(refusal) => answer_of_refusal(refusal),
        SpawnAnswer::NoThread => Answer::Refused(Text::fixed("no thread")),
    }
}

fn answer_of_refusal(refusal: Refusal) -> Answer
    ensures { result ≡ answer_of_refusal refusal }
{
    match refusal {
        Refusal::NoFile => Answer::NoFile,
        Refusal::NotExecutable => Answer::NotExecutable,
        Refusal::Refused(reason) => Answer::Refused(reason),
    }
}

fn keep_file_answer(answer: &mut Option<Answer>, given: FileAnswer) -> Handed
    ensures { KeepsFile given answer.old answer.new result }
{
    *answer = Some(match given {
        FileAnswer::Read(bytes) => Answer::Read(bytes),
        FileAnswer::Done => Answer::Done,
        FileAnswer::Missing => Answer::Missing,
        FileAnswer::Names(names) => Answer::Names(names),
        FileAnswer::Size(size) => Answer::Size(size),
        FileAnswer::Failed => return Handed::Failed,
    });
    Handed::Done
}
