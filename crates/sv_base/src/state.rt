//! States, moods, ends, streams and levels, and their names.
ghost use Rattle.std.specs.Prelude.{◌≡◌};
ghost use Rattle.sv_base.specs.declared.state.State.{State};
ghost use Rattle.sv_base.specs.declared.state.Mood.{Mood};
ghost use Rattle.sv_base.specs.Names.{state_name, state_number, mood_name, mood_number};

use crate::number::ExitSignal;

/// The state of a child, as the manual's chapter on subprocesses names it.
#[derive(Clone, Copy, PartialEq, Eq, PartialOrd, Ord)]
pub enum State {
    Stopped,
    Starting,
    Running,
    Backoff,
    Stopping,
    Exited,
    Fatal,
    /// Never entered.
    Unknown,
}

impl State {
    /// The name in upper case.
    pub fn name(self) -> &'static str
        ensures { result.now ≡ state_name self }
    {
        match self {
            State::Stopped => "STOPPED",
            State::Starting => "STARTING",
            State::Running => "RUNNING",
            State::Backoff => "BACKOFF",
            State::Stopping => "STOPPING",
            State::Exited => "EXITED",
            State::Fatal => "FATAL",
            State::Unknown => "UNKNOWN",
        }
    }

    /// The number by which the manual's XML-RPC chapter knows the state.
    pub fn number(self) -> u32
        ensures { result ≡ state_number self }
    {
        match self {
            State::Stopped => 0,
            State::Starting => 10,
            State::Running => 20,
            State::Backoff => 30,
            State::Stopping => 40,
            State::Exited => 100,
            State::Fatal => 200,
            State::Unknown => 1_000,
        }
    }
}

/// What the daemon is about: running, or on the way to its end.
#[derive(Clone, Copy, PartialEq, Eq, PartialOrd, Ord)]
pub enum Mood {
    Running,
    Restarting,
    Shutdown,
}

impl Mood {
    /// The name by which the manual's XML-RPC chapter knows it, in upper case.
    pub fn name(self) -> &'static str
        ensures { result.now ≡ mood_name self }
    {
        match self {
            Mood::Running => "RUNNING",
            Mood::Restarting => "RESTARTING",
            Mood::Shutdown => "SHUTDOWN",
        }
    }

    /// The number by which the manual's XML-RPC chapter knows it.
    pub fn number(self) -> i64
        ensures { result ≡ mood_number self }
    {
        match self {
            Mood::Running => 1,
            Mood::Restarting => 0,
            Mood::Shutdown => -1,
        }
    }
}

/// How a process ended: with an exit code, or by a signal.
#[derive(Clone, Copy, PartialEq, Eq)]
pub enum How {
    Code(u8),
    Signal(ExitSignal),
}

/// One of a child's two output streams.
#[derive(Clone, Copy, PartialEq, Eq, PartialOrd, Ord)]
pub enum Stream {
    Out,
    Err,
}

/// The kind of socket by which a connection came in.
#[derive(Clone, Copy, PartialEq, Eq, PartialOrd, Ord)]
pub enum Side {
    Inet,
    Unix,
}

/// When an exited child is started again: never, after an unexpected exit code, or always.
#[derive(Clone, Copy, Debug, PartialEq, Eq, PartialOrd, Ord)]
pub enum Autorestart {
    Never,
    Unexpected,
    Always,
}

/// The level of a line of the main log, the lowest first.
#[derive(Clone, Copy, Debug, PartialEq, Eq, PartialOrd, Ord)]
pub enum Level {
    Blather,
    Trace,
    Debug,
    Info,
    Warn,
    Error,
    Critical,
}
