//! Where a turn was left at a question.
ghost use Rattle.std.specs.Prelude.{◌≡◌};
ghost use Rattle.sv_core.specs.Left.{question_called, question_wanted};
ghost use Rattle.sv_core.specs.StandsFor.{question_of};

use crate::part::Question;
use sv_base::ids::{LinkId, Run};
use sv_base::items::Items;
use sv_base::text::Text;
use sv_calls::answers::LogRead;
use sv_children::News;

/// A spawn that was asked for: of a child, as this run.
#[derive(Clone, Copy)]
pub struct Asked {
    pub child: usize,
    pub run: Run,
}

/// Where a sweep was left at a question: it goes on in place `next`.
#[derive(Clone, Copy)]
pub struct Pause {
    pub next: usize,
    pub asked: Asked,
}

/// What is left of a sweep at a question: the places up to before `to`.
#[derive(Drop)]
pub struct Paused {
    pub news: News,
    pub to: usize,
    pub stop: Pause,
}

/// Where files that are cleared were left at the clear of this one: they go on in place `next`.
#[derive(Drop)]
pub struct Clearing {
    pub file: Text,
    pub files: Items<Text>,
    pub next: usize,
}

/// A request of a call that asked a question.
#[derive(Drop)]
pub enum Wanting {
    /// For the start of a process.
    Start(Asked),
    /// For the clear of a file.
    Clear(Clearing),
}

/// Where the requests of a call were left at a question, and how many of them are left after the one that asked.
#[derive(Drop)]
pub struct Acting {
    pub wanting: Wanting,
    pub left: usize,
}

/// A call that asked a question.
#[derive(Drop)]
pub enum Calling {
    /// For one of its requests.
    Act(Acting),
    /// For a part of a log.
    Read(LogRead),
}

/// Where several calls in one were left at a question, and how many of them are left after the one that asked; of one call none.
#[derive(Drop)]
pub struct Going {
    pub calling: Calling,
    pub left: usize,
}

/// Where the requests of a link were left at a question, and how many of them are left after the one that asked.
#[derive(Drop)]
pub struct Asking {
    pub going: Going,
    pub left: usize,
}

/// Where the links were left at a question of this link: they go on with it, and then in place `next`.
#[derive(Drop)]
pub struct Serving {
    pub links: Vec<LinkId>,
    pub next: usize,
    pub link: LinkId,
    pub asking: Asking,
}

/// Where a turn was left at a question: in which of its steps, and where in it.
#[derive(Drop)]
pub enum Suspended {
    /// In step 2, the stimulus.
    Stimulus(Paused),
    /// In step 4, the pass.
    Pass(Paused),
    /// In step 5, the links.
    Links(Serving),
}

/// The question that stands where a turn was left.
pub(crate) fn question_of(place: &Option<Suspended>) -> Option<Question>
    ensures { result ≡ question_of place.now }
{
    match place {
        None => None,
        Some(Suspended::Stimulus(_)) | Some(Suspended::Pass(_)) => Some(Question::Spawn),
        Some(Suspended::Links(serving)) => Some(question_called(&serving.asking.going.calling)),
    }
}

/// The question of a call.
fn question_called(calling: &Calling) -> Question
    ensures { result ≡ question_called calling.now }
{
    match calling {
        Calling::Act(acting) => question_wanted(&acting.wanting),
        Calling::Read(reading) => Question::Read(reading.span.length),
    }
}

/// The question of a request.
fn question_wanted(wanting: &Wanting) -> Question
    ensures { result ≡ question_wanted wanting.now }
{
    match wanting {
        Wanting::Start(_) => Question::Spawn,
        Wanting::Clear(_) => Question::Clear,
    }
}
