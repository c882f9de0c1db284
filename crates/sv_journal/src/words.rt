//! The tables of words.
ghost use Rattle.std.specs.Prelude.{◌≡◌};
ghost use Rattle.sv_base.specs.Names.{signal_name};
ghost use Rattle.sv_journal.specs.JournalLine.{autorestart_word, side_word};
ghost use Rattle.sv_journal.specs.ReadingLines.{verb_word, told_signal, told_word, ending_word};
ghost use Rattle.sv_journal.specs.ReadingLines.{answer_word, opening_word};

use crate::word::Spelled;
use sv_base::signal::{DaemonSignal, Signal};
use sv_base::state::{Autorestart, Side};

/// What happened, after the moment of an input line.
#[derive(Clone, Copy)]
pub enum Verb {
    Tick,
    Exit,
    Out,
    Err,
    OutEnd,
    ErrEnd,
    Open,
    Piece,
    End,
    Start,
    Stop,
    Signal,
}

/// A signal that the daemon was sent.
#[derive(Clone, Copy)]
pub enum Told {
    Term,
    Int,
    Quit,
    Kill,
    Usr1,
    Usr2,
}

/// How a process ended.
#[derive(Clone, Copy)]
pub enum Ending {
    Code,
    Signal,
}

/// The first word of an input line that has no moment.
#[derive(Clone, Copy)]
pub enum Answer {
    Pid,
    NoFile,
    NotExecutable,
    Refused,
    Bytes,
    Done,
    Missing,
    Names,
    Size,
    Failed,
}

/// How a header line begins: the title of a journal of each version, or a first word.
#[derive(Clone, Copy)]
pub enum Opening {
    Short,
    Long,
    Program,
    Host,
    Here,
    Pid,
    Env,
    Size,
    Conf,
    Include,
    Go,
}

pub const VERBS: [Verb; 12] = [
    Verb::Tick,
    Verb::Exit,
    Verb::Out,
    Verb::Err,
    Verb::OutEnd,
    Verb::ErrEnd,
    Verb::Open,
    Verb::Piece,
    Verb::End,
    Verb::Start,
    Verb::Stop,
    Verb::Signal,
];

pub const TOLD_SIGNALS: [Told; 6] = [
    Told::Term,
    Told::Int,
    Told::Quit,
    Told::Kill,
    Told::Usr1,
    Told::Usr2,
];

pub const ENDINGS: [Ending; 2] = [Ending::Code, Ending::Signal];

pub const SIDES: [Side; 2] = [Side::Inet, Side::Unix];

pub const ANSWERS: [Answer; 10] = [
    Answer::Pid,
    Answer::NoFile,
    Answer::NotExecutable,
    Answer::Refused,
    Answer::Bytes,
    Answer::Done,
    Answer::Missing,
    Answer::Names,
    Answer::Size,
    Answer::Failed,
];

pub const OPENINGS: [Opening; 11] = [
    Opening::Short,
    Opening::Long,
    Opening::Program,
    Opening::Host,
    Opening::Here,
    Opening::Pid,
    Opening::Env,
    Opening::Size,
    Opening::Conf,
    Opening::Include,
    Opening::Go,
];

pub const SIGNALS: [Signal; 7] = [
    Signal::Term,
    Signal::Hup,
    Signal::Int,
    Signal::Quit,
    Signal::Kill,
    Signal::Usr1,
    Signal::Usr2,
];

pub const AUTORESTARTS: [Autorestart; 3] = [
    Autorestart::Never,
    Autorestart::Unexpected,
    Autorestart::Always,
];

impl Spelled for Verb {
    ghost spelling_of = { verb_word };

    fn spelling(&self) -> &'static str {
        match self {
            Verb::Tick => "tick",
            Verb::Exit => "exit ",
            Verb::Out => "out ",
            Verb::Err => "err ",
            Verb::OutEnd => "outend ",
            Verb::ErrEnd => "errend ",
            Verb::Open => "open ",
            Verb::Piece => "piece ",
            Verb::End => "end ",
            Verb::Start => "start ",
            Verb::Stop => "stop ",
            Verb::Signal => "signal ",
        }
    }
}

impl Told {
    /// The signal.
    pub fn signal(self) -> Signal
        ensures { result ≡ told_signal self }
    {
        match self {
            Told::Term => Signal::Term,
            Told::Int => Signal::Int,
            Told::Quit => Signal::Quit,
            Told::Kill => Signal::Kill,
            Told::Usr1 => Signal::Usr1,
            Told::Usr2 => Signal::Usr2,
        }
    }

    /// The signal, as one of those that the daemon can be sent.
    pub fn daemon_signal(self) -> DaemonSignal
        ensures { result ≡ told_signal self }
    {
        DaemonSignal::new(self.signal()).unwrap()
    }
}

impl Spelled for Told {
    ghost spelling_of = { told_word };

    fn spelling(&self) -> &'static str {
        self.signal().name()
    }
}

impl Spelled for Ending {
    ghost spelling_of = { ending_word };

    fn spelling(&self) -> &'static str {
        match self {
            Ending::Code => "code ",
            Ending::Signal => "signal ",
        }
    }
}

impl Spelled for Answer {
    ghost spelling_of = { answer_word };

    fn spelling(&self) -> &'static str {
        match self {
            Answer::Pid => "pid ",
            Answer::NoFile => "nofile",
            Answer::NotExecutable => "notexec",
            Answer::Refused => "refused ",
            Answer::Bytes => "bytes ",
            Answer::Done => "done",
            Answer::Missing => "missing",
            Answer::Names => "names ",
            Answer::Size => "size ",
            Answer::Failed => "failed ",
        }
    }
}

impl Spelled for Opening {
    ghost spelling_of = { opening_word };

    fn spelling(&self) -> &'static str {
        match self {
            Opening::Short => "supervisor-journal 0",
            Opening::Long => "supervisor-journal 1",
            Opening::Program => "program ",
            Opening::Host => "host ",
            Opening::Here => "here ",
            Opening::Pid => "pid ",
            Opening::Env => "env ",
            Opening::Size => "size ",
            Opening::Conf => "conf ",
            Opening::Include => "include ",
            Opening::Go => "go ",
        }
    }
}

impl Spelled for Side {
    ghost spelling_of = { side_word };

    fn spelling(&self) -> &'static str {
        match self {
            Side::Inet => "inet",
            Side::Unix => "unix",
        }
    }
}

impl Spelled for Signal {
    ghost spelling_of = { signal_name };

    fn spelling(&self) -> &'static str {
        self.name()
    }
}

impl Spelled for Autorestart {
    ghost spelling_of = { autorestart_word };

    fn spelling(&self) -> &'static str {
        match self {
            Autorestart::Never => "false",
            Autorestart::Unexpected => "unexpected",
            Autorestart::Always => "true",
        }
    }
}
