//! The words of the commands.
ghost use Rattle.std.specs.Prelude.{◌≡◌};
ghost use Rattle.sv_commands.specs.Commands.{verb_name, verb_of};

/// The commands, in the order of the manual's list of actions.
#[derive(Clone, Copy, PartialEq, Eq)]
pub enum Verb {
    Status,
    Start,
    Stop,
    Restart,
    Signal,
    Clear,
    Tail,
    MainTail,
    Pid,
    Version,
    Shutdown,
}

const ALL: [Verb; 11] = [
    Verb::Status,
    Verb::Start,
    Verb::Stop,
    Verb::Restart,
    Verb::Signal,
    Verb::Clear,
    Verb::Tail,
    Verb::MainTail,
    Verb::Pid,
    Verb::Version,
    Verb::Shutdown,
];

impl Verb {
    /// The word of the command.
    pub fn name(self) -> &'static str
        ensures { result.now ≡ verb_name self }
    {
        match self {
            Verb::Status => "status",
            Verb::Start => "start",
            Verb::Stop => "stop",
            Verb::Restart => "restart",
            Verb::Signal => "signal",
            Verb::Clear => "clear",
            Verb::Tail => "tail",
            Verb::MainTail => "maintail",
            Verb::Pid => "pid",
            Verb::Version => "version",
            Verb::Shutdown => "shutdown",
        }
    }

    /// The command of a word; none exactly where it is no command's.
    pub fn of(word: &str) -> Option<Verb>
        ensures { result ≡ verb_of word.now }
    {
        ALL.iter().copied().find(|verb| verb.name() == word)
    }
}
