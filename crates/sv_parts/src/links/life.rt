//! One link whose job was started.
ghost use Rattle.std.specs.Prelude.{◌≡◌, [], false, IfOk};
ghost use Rattle.sv_lane.specs.Ends.{posted, taken};

use std::alloc::{AllocError, Global};
use std::sync::Wait;
use sv_base::{Bytes, LinkId};
use sv_jobs::LinkWord;
use sv_lane::{Poster, Taker, lane};

/// How many Sends of a link may be unwritten.
pub(crate) const MOST_UNWRITTEN: u32 = 16;

/// The most words in the lane of a link: the unwritten Sends, a More, and a Close.
const WORDS: u32 = 18;

/// A link whose job was started.
pub struct LinkLife {
    /// Its number.
    pub link: LinkId,
    /// The words to its job.
    pub words: Poster<LinkWord>,
    /// How many Sends were posted and aren't known to be written.
    pub unwritten: u32,
    /// Whether an order of it failed. Then its lane had a Close, and nothing more is posted there.
    pub failed: bool,
}

impl Drop for LinkLife {
    fn drop(self) {
        let Self {
            link: _,
            words: _,
            unwritten: _,
            failed: _,
        } = self;
    }
}

impl LinkLife {
    ghost use Rattle.sv_parts.specs.Links.Links.{Fails, PostsSend, PostsWord, is_full};
    ghost use Rattle.sv_jobs.specs.declared.notes.LinkWord.TheVariants.{Close, More};

    /// A link whose job was just started.
    pub fn new(link: LinkId, words: Poster<LinkWord>) -> LinkLife
        ensures { result ≡ record { link = link; words = words; unwritten = 0; failed = false } }
    {
        LinkLife {
            link,
            words,
            unwritten: 0,
            failed: false,
        }
    }

    /// Whether no further Send can be posted.
    pub(crate) fn is_full(&self) -> bool
        ensures { result ≡ is_full self.now }
    {
        self.unwritten >= MOST_UNWRITTEN
    }

    /// Posts bytes that the job is to write.
    pub(crate) fn send<R: Wait>(&mut self, rt: &R, bytes: Bytes)
        ensures { PostsSend bytes self.old self.new }
    {
        self.words.post(rt, LinkWord::Send(bytes));
        self.unwritten = self.unwritten.saturating_add(1);
    }

    /// Asks the job for one piece more.
    pub(crate) fn more<R: Wait>(&mut self, rt: &R)
        ensures { PostsWord More self.old self.new }
    {
        self.words.post(rt, LinkWord::More);
    }

    /// Tells the job to end.
    pub(crate) fn close<R: Wait>(&mut self, rt: &R)
        ensures { PostsWord Close self.old self.new }
    {
        self.words.post(rt, LinkWord::Close);
    }

    /// After an order that failed: tells the job to end, after which nothing is posted to it.
    pub(crate) fn fail<R: Wait>(&mut self, rt: &R)
        ensures { Fails self.old self.new }
    {
        self.words.post(rt, LinkWord::Close);
        self.failed = true;
    }
}

/// The lane of a link, with one seat.
pub fn link_lane(alloc: Global) -> Result<(Taker<LinkWord>, Poster<LinkWord>), AllocError>
    ensures posted { IfOk result (λ ends. posted ends.1 ≡ []) }
    ensures taken { IfOk result (λ ends. taken ends.0 ≡ []) }
{
    let (taker, mut seats) = lane(alloc, WORDS)?;
    let words = seats.seat()?;
    Ok((taker, words))
}
