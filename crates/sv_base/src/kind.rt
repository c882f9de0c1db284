//! The types of events and their names.
ghost use Rattle.std.specs.Prelude.{◌≡◌};
ghost use Rattle.sv_base.specs.KindNames.{kind_name};

/// A type of event, in the order of the manual's chapter on events.
#[derive(Clone, Copy, PartialEq, Eq, PartialOrd, Ord)]
pub enum Kind {
    Event,
    ProcessState,
    ProcessStateStarting,
    ProcessStateRunning,
    ProcessStateBackoff,
    ProcessStateStopping,
    ProcessStateExited,
    ProcessStateStopped,
    ProcessStateFatal,
    ProcessStateUnknown,
    ProcessCommunication,
    ProcessCommunicationStdout,
    ProcessCommunicationStderr,
    ProcessLog,
    ProcessLogStdout,
    ProcessLogStderr,
    RemoteCommunication,
    SupervisorStateChange,
    SupervisorStateChangeRunning,
    SupervisorStateChangeStopping,
    Tick,
    Tick5,
    Tick60,
    Tick3600,
    ProcessGroup,
    ProcessGroupAdded,
    ProcessGroupRemoved,
}

impl Kind {
    /// The name, as a configuration and an event's head write it.
    pub fn name(self) -> &'static str
        ensures { result.now ≡ kind_name self }
    {
        match self {
            Kind::Event => "EVENT",
            Kind::ProcessState => "PROCESS_STATE",
            Kind::ProcessStateStarting => "PROCESS_STATE_STARTING",
            Kind::ProcessStateRunning => "PROCESS_STATE_RUNNING",
            Kind::ProcessStateBackoff => "PROCESS_STATE_BACKOFF",
            Kind::ProcessStateStopping => "PROCESS_STATE_STOPPING",
            Kind::ProcessStateExited => "PROCESS_STATE_EXITED",
            Kind::ProcessStateStopped => "PROCESS_STATE_STOPPED",
            Kind::ProcessStateFatal => "PROCESS_STATE_FATAL",
            Kind::ProcessStateUnknown => "PROCESS_STATE_UNKNOWN",
            Kind::ProcessCommunication => "PROCESS_COMMUNICATION",
            Kind::ProcessCommunicationStdout => "PROCESS_COMMUNICATION_STDOUT",
            Kind::ProcessCommunicationStderr => "PROCESS_COMMUNICATION_STDERR",
            Kind::ProcessLog => "PROCESS_LOG",
            Kind::ProcessLogStdout => "PROCESS_LOG_STDOUT",
            Kind::ProcessLogStderr => "PROCESS_LOG_STDERR",
            Kind::RemoteCommunication => "REMOTE_COMMUNICATION",
            Kind::SupervisorStateChange => "SUPERVISOR_STATE_CHANGE",
            Kind::SupervisorStateChangeRunning => "SUPERVISOR_STATE_CHANGE_RUNNING",
            Kind::SupervisorStateChangeStopping => "SUPERVISOR_STATE_CHANGE_STOPPING",
            Kind::Tick => "TICK",
            Kind::Tick5 => "TICK_5",
            Kind::Tick60 => "TICK_60",
            Kind::Tick3600 => "TICK_3600",
            Kind::ProcessGroup => "PROCESS_GROUP",
            Kind::ProcessGroupAdded => "PROCESS_GROUP_ADDED",
            Kind::ProcessGroupRemoved => "PROCESS_GROUP_REMOVED",
        }
    }
}
