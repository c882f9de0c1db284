//! What a command does to processes.
ghost use Rattle.std.specs.Prelude.{◌≡◌};
ghost use Rattle.sv_commands.specs.Commands.{has_groups, method_of_one, method_of_group};
ghost use Rattle.sv_commands.specs.Commands.{method_of_all};
ghost use Rattle.sv_commands.specs.Lines.{done_word, is_start};

/// What a command does to processes.
#[derive(Clone, Copy, PartialEq, Eq)]
pub enum Act {
    Start,
    Stop,
    Signal,
    Clear,
}

impl Act {
    /// The method that does it to one process.
    pub(crate) fn method_of_one(self) -> &'static str
        ensures { result.now ≡ method_of_one self }
    {
        match self {
            Act::Start => "supervisor.startProcess",
            Act::Stop => "supervisor.stopProcess",
            Act::Signal => "supervisor.signalProcess",
            Act::Clear => "supervisor.clearProcessLogs",
        }
    }

    /// The method that does it to a group, where there is one.
    pub(crate) fn method_of_group(self) -> &'static str
        ensures { result.now ≡ method_of_group self }
    {
        match self {
            Act::Start => "supervisor.startProcessGroup",
            Act::Stop => "supervisor.stopProcessGroup",
            Act::Signal => "supervisor.signalProcessGroup",
            Act::Clear => "supervisor.clearProcessLogs",
        }
    }

    /// The method that does it to all processes.
    pub(crate) fn method_of_all(self) -> &'static str
        ensures { result.now ≡ method_of_all self }
    {
        match self {
            Act::Start => "supervisor.startAllProcesses",
            Act::Stop => "supervisor.stopAllProcesses",
            Act::Signal => "supervisor.signalAllProcesses",
            Act::Clear => "supervisor.clearAllProcessLogs",
        }
    }

    /// Whether there is a method that does it to a group.
    pub(crate) fn has_groups(self) -> bool
        ensures { result ≡ has_groups self }
    {
        match self {
            Act::Clear => false,
            _ => true,
        }
    }

    /// Whether processes are started.
    pub(crate) fn is_start(self) -> bool
        ensures { result ≡ is_start self }
    {
        match self {
            Act::Start => true,
            _ => false,
        }
    }

    /// What is said of a process to which it was done.
    pub(crate) fn done_word(self) -> &'static str
        ensures { result.now ≡ done_word self }
    {
        match self {
            Act::Start => "started",
            Act::Stop => "stopped",
            Act::Signal => "signalled",
            Act::Clear => "cleared",
        }
    }
}
