//! Where a reader stands that follows a log.
ghost use Rattle.std.specs.Prelude.{◌≡◌};
ghost use Rattle.sv_follow.specs.Follower.{asked, after, first, is_anew, is_rotated, length_of};
ghost use Rattle.sv_follow.specs.Follower.{lost_before, next_after, offset_of, shown, shown_by};

use sv_base::Text;

/// How many bytes of a log its first poll shows: its last ones.
const FIRST_BYTES: u64 = 1_600;

/// How many bytes a further poll shows at most.
const MOST_BYTES: u64 = 65_536;

/// Where the next poll begins.
#[derive(Clone, Copy, PartialEq, Eq)]
pub enum NextPoll {
    /// It is the first one, which shows the end of the log.
    First,
    /// At this offset, the size that the poll before told.
    From(u64),
    /// At the log's beginning, since the poll before found it rotated.
    Anew,
}

/// A reader that follows a log.
#[derive(Clone, Copy, PartialEq, Eq)]
pub struct Follower {
    next: NextPoll,
}

/// What a poll shows of a log.
#[derive(Drop)]
pub struct Shown {
    /// The bytes that were appended since the poll before, as a text; those that were lost aren't among them.
    pub text: Text,
    /// How many bytes were appended before this text, and aren't shown.
    pub lost: u64,
    /// Whether the log is shorter than it was: then nothing is shown, and the next poll shows it from its beginning on.
    pub rotated: bool,
}

impl Follower {
    /// A reader that has made no poll yet.
    pub fn new() -> Follower
        ensures { result ≡ first }
    {
        Follower {
            next: NextPoll::First,
        }
    }

    /// The offset and the length, in bytes, of its next call.
    pub fn ask(&self) -> (u64, u64)
        ensures { result ≡ asked self.now }
    {
        (self.next.offset(), self.next.length())
    }

    /// Takes the answer to that call: the text, the size of the log in bytes, and whether more bytes lie before the text than
    /// the call asked for.
    pub fn answer(&mut self, text: Text, size: u64, overflow: bool) -> Shown
        ensures shown { result ≡ shown self.old text size overflow }
        ensures next { self.new ≡ after self.old size }
    {
        let next = self.next;
        self.next = next.after(size);
        next.shown(text, size, overflow)
    }

    /// Whether the log was found rotated, so that the next poll needn't wait.
    pub fn is_anew(&self) -> bool
        ensures { result ≡ is_anew self.now }
    {
        match self.next {
            NextPoll::Anew => true,
            _ => false,
        }
    }
}

impl NextPoll {
    fn offset(self) -> u64
        ensures { result ≡ offset_of self }
    {
        match self {
            NextPoll::From(size) => size,
            _ => 0,
        }
    }

    fn length(self) -> u64
        ensures { result ≡ length_of self }
    {
        match self {
            NextPoll::First => FIRST_BYTES,
            _ => MOST_BYTES,
        }
    }

    /// Whether a log of this size was rotated since the poll before.
    fn is_rotated(self, size: u64) -> bool
        ensures { result ≡ is_rotated self size }
    {
        size < self.offset()
    }

    /// Where the poll after it begins, whose log has this size.
    fn after(self, size: u64) -> NextPoll
        ensures { result ≡ next_after self size }
    {
        if self.is_rotated(size) {
            NextPoll::Anew
        } else {
            NextPoll::From(size)
        }
    }

    /// What it shows.
    fn shown(self, text: Text, size: u64, overflow: bool) -> Shown
        ensures { result ≡ shown_by self text size overflow }
    {
        if self.is_rotated(size) {
            return Shown {
                text: Text::fixed(""),
                lost: 0,
                rotated: true,
            };
        }
        Shown {
            text,
            lost: self.lost(size, overflow),
            rotated: false,
        }
    }

    /// How many bytes it loses. The first poll loses none, since it isn't to show all.
    fn lost(self, size: u64, overflow: bool) -> u64
        ensures { result ≡ lost_before self size overflow }
    {
        match self {
            NextPoll::First => 0,
            _ if overflow => size
                .saturating_sub(self.offset())
                .saturating_sub(MOST_BYTES),
            _ => 0,
        }
    }
}
