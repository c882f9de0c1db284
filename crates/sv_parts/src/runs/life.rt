//! One run whose process lives.
ghost use Rattle.std.specs.Prelude.{◌≡◌, ◌++◌, ◌∷◌, [], false, IfOk};
ghost use Rattle.sv_jobs.specs.declared.notes.StdinWord.TheVariants.{Close};
ghost use Rattle.sv_lane.specs.Ends.{IsSameSeat, posted, taken};

use std::alloc::{AllocError, Global};
use std::sync::Wait;
use sv_base::{Bytes, Pid, Run};
use sv_jobs::StdinWord;
use sv_lane::{Poster, Taker, lane};

/// How many pieces of a run's standard input may be unwritten.
pub(crate) const MOST_UNWRITTEN: u32 = 64;

/// The most words in the lane of a standard input: the unwritten pieces, and a Close.
const WORDS: u32 = 65;

/// A run whose process lives: its process, and its standard input.
#[derive(Drop)]
pub struct Life {
    /// Its number.
    pub run: Run,
    /// Its process.
    pub pid: Pid,
    /// The words to the job that writes its standard input.
    pub words: Poster<StdinWord>,
    /// How many pieces were posted and aren't known to be written.
    pub unwritten: u32,
    /// Whether nothing more is written to it.
    pub closed: bool,
}

impl Life {
    ghost use Rattle.sv_parts.specs.Runs.Lives.{Posts, is_full};

    /// A run that was just started.
    pub fn new(run: Run, pid: Pid, words: Poster<StdinWord>) -> Life
        ensures { result
            ≡ record { run = run; pid = pid; words = words; unwritten = 0; closed = false } }
    {
        Life {
            run,
            pid,
            words,
            unwritten: 0,
            closed: false,
        }
    }

    /// Whether no further piece can be posted.
    pub(crate) fn is_full(&self) -> bool
        ensures { result ≡ is_full self.now }
    {
        self.closed || self.unwritten >= MOST_UNWRITTEN
    }

    /// Posts a piece for its standard input.
    pub(crate) fn write<R: Wait>(&mut self, rt: &R, bytes: Bytes)
        ensures { Posts bytes self.old self.new }
    {
        self.words.post(rt, StdinWord::Write(bytes));
        self.unwritten = self.unwritten.saturating_add(1);
    }
}

/// The lane of a standard input, with one seat.
pub fn stdin_lane(alloc: Global) -> Result<(Taker<StdinWord>, Poster<StdinWord>), AllocError>
    ensures posted { IfOk result (λ ends. posted ends.1 ≡ []) }
    ensures taken { IfOk result (λ ends. taken ends.0 ≡ []) }
{
    let (taker, mut seats) = lane(alloc, WORDS)?;
    let words = seats.seat()?;
    Ok((taker, words))
}

/// Posts the Close of a standard input, after which nothing is posted.
pub fn close<R: Wait>(rt: &R, words: Poster<StdinWord>) -> Poster<StdinWord>
    ensures posted { posted result ≡ posted words ++ Close ∷ [] }
    ensures same { IsSameSeat words result }
{
    let mut words = words;
    words.post(rt, StdinWord::Close);
    words
}
