//! The status of a command.
ghost use Rattle.std.specs.Prelude.{◌≡◌};
ghost use Rattle.sv_commands.specs.Statuses.{number, worse};

/// What the answers to a command come to.
#[derive(Clone, Copy, PartialEq, Eq)]
pub enum Status {
    /// Nothing of what follows.
    Done,
    /// An answer was a fault that counts.
    Faulted,
    /// The words are no command, or they, the file or the URL are refused.
    Refused,
    /// A process that is listed doesn't run.
    NotRunning,
    /// A name finds no process.
    NotFound,
    /// A reply can't be read, or has another status than 200.
    Unanswered,
}

impl Status {
    /// The number by which the program tells it.
    pub fn number(self) -> u8
        ensures { result ≡ number self }
    {
        match self {
            Status::Done => 0,
            Status::Faulted => 1,
            Status::Refused => 2,
            Status::NotRunning => 3,
            Status::NotFound => 4,
            Status::Unanswered => 7,
        }
    }

    /// The one with the greater number.
    pub fn worse(self, other: Status) -> Status
        ensures { result ≡ worse self other }
    {
        if self.number() <= other.number() {
            other
        } else {
            self
        }
    }
}
