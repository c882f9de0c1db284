//! How a conversation goes on.
ghost use Rattle.std.specs.Prelude.{◌≡◌};
ghost use Rattle.sv_ctl.specs.Talk.Courses.{number, settled};

use sv_commands::Status;

/// How a conversation goes on from some place.
#[derive(Clone, Copy, PartialEq, Eq)]
pub enum Course {
    /// It goes on; the status so far.
    On(Status),
    /// A reply ended its command.
    Broken,
    /// It is over, by a line of the input or by a fault of a log that is followed; the status so far.
    Quit(Status),
    /// There is no connection, or a link, the input or the shelf failed.
    Lost,
    /// Memory was refused.
    NoMemory,
    /// The output failed.
    Unprinted,
}

impl Course {
    /// The status of the program.
    pub fn number(self) -> u8
        ensures { result ≡ number self }
    {
        match self {
            Course::On(status) | Course::Quit(status) => status.number(),
            Course::Broken => Status::Unanswered.number(),
            Course::Lost => 5,
            Course::NoMemory => 6,
            Course::Unprinted => 8,
        }
    }

    /// How it goes on after a command that came to this: a further command may follow one that its reply ended.
    pub(crate) fn settled(self) -> Course
        ensures { result ≡ settled self }
    {
        match self {
            Course::Broken => Course::On(Status::Unanswered),
            course => course,
        }
    }
}
