//! The methods by what they take, each with its spelling and its signature.
ghost use Rattle.std.specs.Prelude.{◌≡◌, IsTrue, find};
ghost use Rattle.std.specs.Str.{bytes_eq};
ghost use Rattle.sv_methods.specs.MethodNames.{all_methods, answer_type, is_always_open, is_ours};
ghost use Rattle.sv_methods.specs.MethodNames.{method_named, spelling};

/// Methods that take nothing.
#[derive(Clone, Copy, PartialEq, Eq)]
pub enum PlainMethod {
    ClearAllProcessLogs,
    ClearLog,
    GetApiVersion,
    GetAllProcessInfo,
    GetIdentification,
    GetPid,
    GetState,
    GetSupervisorVersion,
    ListMethods,
    Shutdown,
}

/// Methods that take a text.
#[derive(Clone, Copy, PartialEq, Eq)]
pub enum TextMethod {
    ClearProcessLogs,
    GetProcessInfo,
    MethodSignature,
    SignalAllProcesses,
}

/// Methods that take whether to wait, which may be left out and is then true.
#[derive(Clone, Copy, PartialEq, Eq)]
pub enum WaitMethod {
    StartAllProcesses,
    StopAllProcesses,
}

/// Methods that take a text and whether to wait, which may be left out and is then true.
#[derive(Clone, Copy, PartialEq, Eq)]
pub enum TextWaitMethod {
    StartProcess,
    StartProcessGroup,
    StopProcess,
    StopProcessGroup,
}

/// Methods that take two texts.
#[derive(Clone, Copy, PartialEq, Eq)]
pub enum TextsMethod {
    SendProcessStdin,
    SendRemoteCommEvent,
    SignalProcess,
    SignalProcessGroup,
}

/// Methods that take a name, an offset and a length, and give a part of a log of a process.
#[derive(Clone, Copy, PartialEq, Eq)]
pub enum LogMethod {
    ReadStderr,
    ReadStdout,
    TailStderr,
    TailStdout,
}

/// A method of the manual's chapter on its XML-RPC interface.
#[derive(Clone, Copy, PartialEq, Eq)]
pub enum Method {
    Plain(PlainMethod),
    OfText(TextMethod),
    OfWait(WaitMethod),
    OfTextAndWait(TextWaitMethod),
    OfTexts(TextsMethod),
    /// `readLog`, which takes an offset and a length.
    ReadLog,
    OfLog(LogMethod),
    /// `system.multicall`, which takes an array of calls.
    Multicall,
}

/// All methods, in rising order of their spellings.
pub(crate) const ALL: [Method; 30] = [
    Method::Plain(PlainMethod::ClearAllProcessLogs),
    Method::Plain(PlainMethod::ClearLog),
    Method::OfText(TextMethod::ClearProcessLogs),
    Method::Plain(PlainMethod::GetApiVersion),
    Method::Plain(PlainMethod::GetAllProcessInfo),
    Method::Plain(PlainMethod::GetIdentification),
    Method::Plain(PlainMethod::GetPid),
    Method::OfText(TextMethod::GetProcessInfo),
    Method::Plain(PlainMethod::GetState),
    Method::Plain(PlainMethod::GetSupervisorVersion),
    Method::ReadLog,
    Method::OfLog(LogMethod::ReadStderr),
    Method::OfLog(LogMethod::ReadStdout),
    Method::OfTexts(TextsMethod::SendProcessStdin),
    Method::OfTexts(TextsMethod::SendRemoteCommEvent),
    Method::Plain(PlainMethod::Shutdown),
    Method::OfText(TextMethod::SignalAllProcesses),
    Method::OfTexts(TextsMethod::SignalProcess),
    Method::OfTexts(TextsMethod::SignalProcessGroup),
    Method::OfWait(WaitMethod::StartAllProcesses),
    Method::OfTextAndWait(TextWaitMethod::StartProcess),
    Method::OfTextAndWait(TextWaitMethod::StartProcessGroup),
    Method::OfWait(WaitMethod::StopAllProcesses),
    Method::OfTextAndWait(TextWaitMethod::StopProcess),
    Method::OfTextAndWait(TextWaitMethod::StopProcessGroup),
    Method::OfLog(LogMethod::TailStderr),
    Method::OfLog(LogMethod::TailStdout),
    Method::Plain(PlainMethod::ListMethods),
    Method::OfText(TextMethod::MethodSignature),
    Method::Multicall,
];

impl Method {
    /// How the method is spelled.
    pub fn spelling(self) -> &'static str
        ensures { result.now ≡ spelling self }
    {
        match self {
            Method::Plain(PlainMethod::ClearAllProcessLogs) => "supervisor.clearAllProcessLogs",
            Method::Plain(PlainMethod::ClearLog) => "supervisor.clearLog",
            Method::OfText(TextMethod::ClearProcessLogs) => "supervisor.clearProcessLogs",
            Method::Plain(PlainMethod::GetApiVersion) => "supervisor.getAPIVersion",
            Method::Plain(PlainMethod::GetAllProcessInfo) => "supervisor.getAllProcessInfo",
            Method::Plain(PlainMethod::GetIdentification) => "supervisor.getIdentification",
            Method::Plain(PlainMethod::GetPid) => "supervisor.getPID",
            Method::OfText(TextMethod::GetProcessInfo) => "supervisor.getProcessInfo",
            Method::Plain(PlainMethod::GetState) => "supervisor.getState",
            Method::Plain(PlainMethod::GetSupervisorVersion) => "supervisor.getSupervisorVersion",
            Method::ReadLog => "supervisor.readLog",
            Method::OfLog(LogMethod::ReadStderr) => "supervisor.readProcessStderrLog",
            Method::OfLog(LogMethod::ReadStdout) => "supervisor.readProcessStdoutLog",
            Method::OfTexts(TextsMethod::SendProcessStdin) => "supervisor.sendProcessStdin",
            Method::OfTexts(TextsMethod::SendRemoteCommEvent) => "supervisor.sendRemoteCommEvent",
            Method::Plain(PlainMethod::Shutdown) => "supervisor.shutdown",
            Method::OfText(TextMethod::SignalAllProcesses) => "supervisor.signalAllProcesses",
            Method::OfTexts(TextsMethod::SignalProcess) => "supervisor.signalProcess",
            Method::OfTexts(TextsMethod::SignalProcessGroup) => "supervisor.signalProcessGroup",
            Method::OfWait(WaitMethod::StartAllProcesses) => "supervisor.startAllProcesses",
            Method::OfTextAndWait(TextWaitMethod::StartProcess) => "supervisor.startProcess",
            Method::OfTextAndWait(TextWaitMethod::StartProcessGroup) =>
                "supervisor.startProcessGroup",
            Method::OfWait(WaitMethod::StopAllProcesses) => "supervisor.stopAllProcesses",
            Method::OfTextAndWait(TextWaitMethod::StopProcess) => "supervisor.stopProcess",
            Method::OfTextAndWait(TextWaitMethod::StopProcessGroup) =>
                "supervisor.stopProcessGroup",
            Method::OfLog(LogMethod::TailStderr) => "supervisor.tailProcessStderrLog",
            Method::OfLog(LogMethod::TailStdout) => "supervisor.tailProcessStdoutLog",
            Method::Plain(PlainMethod::ListMethods) => "system.listMethods",
            Method::OfText(TextMethod::MethodSignature) => "system.methodSignature",
            Method::Multicall => "system.multicall",
        }
    }

    /// The method of a name, or `None` exactly where it is none.
    pub fn named(name: &str) -> Option<Method>
        ensures { result ≡ method_named name.now }
    {
        ALL.iter().copied().find(|method| method.spelling() == name)
    }

    /// The type of what the method is answered.
    pub(crate) fn answer_type(self) -> &'static str
        ensures { result.now ≡ answer_type self }
    {
        match self {
            Method::Plain(PlainMethod::ClearAllProcessLogs) => "array",
            Method::Plain(PlainMethod::ClearLog) => "boolean",
            Method::OfText(TextMethod::ClearProcessLogs) => "boolean",
            Method::Plain(PlainMethod::GetApiVersion) => "string",
            Method::Plain(PlainMethod::GetAllProcessInfo) => "array",
            Method::Plain(PlainMethod::GetIdentification) => "string",
            Method::Plain(PlainMethod::GetPid) => "int",
            Method::OfText(TextMethod::GetProcessInfo) => "struct",
            Method::Plain(PlainMethod::GetState) => "struct",
            Method::Plain(PlainMethod::GetSupervisorVersion) => "string",
            Method::ReadLog => "string",
            Method::OfLog(LogMethod::ReadStderr) => "string",
            Method::OfLog(LogMethod::ReadStdout) => "string",
            Method::OfTexts(TextsMethod::SendProcessStdin) => "boolean",
            Method::OfTexts(TextsMethod::SendRemoteCommEvent) => "boolean",
            Method::Plain(PlainMethod::Shutdown) => "boolean",
            Method::OfText(TextMethod::SignalAllProcesses) => "array",
            Method::OfTexts(TextsMethod::SignalProcess) => "boolean",
            Method::OfTexts(TextsMethod::SignalProcessGroup) => "array",
            Method::OfWait(WaitMethod::StartAllProcesses) => "array",
            Method::OfTextAndWait(TextWaitMethod::StartProcess) => "boolean",
            Method::OfTextAndWait(TextWaitMethod::StartProcessGroup) => "array",
            Method::OfWait(WaitMethod::StopAllProcesses) => "array",
            Method::OfTextAndWait(TextWaitMethod::StopProcess) => "boolean",
            Method::OfTextAndWait(TextWaitMethod::StopProcessGroup) => "array",
            Method::OfLog(LogMethod::TailStderr) => "array",
            Method::OfLog(LogMethod::TailStdout) => "array",
            Method::Plain(PlainMethod::ListMethods) => "array",
            Method::OfText(TextMethod::MethodSignature) => "array",
            Method::Multicall => "array",
        }
    }

    /// Whether the method is the daemon's own, and no general one of XML-RPC.
    pub(crate) fn is_ours(self) -> bool
        ensures { result ≡ is_ours self }
    {
        match self {
            Method::Plain(PlainMethod::ListMethods) => false,
            Method::OfText(TextMethod::MethodSignature) => false,
            Method::Multicall => false,
            _ => true,
        }
    }

    /// Whether the method is answered in each mood.
    pub(crate) fn is_always_open(self) -> bool
        ensures { result ≡ is_always_open self }
    {
        match self {
            Method::Plain(PlainMethod::GetState) => true,
            Method::Plain(PlainMethod::ListMethods) => true,
            Method::OfText(TextMethod::MethodSignature) => true,
            Method::Multicall => true,
            _ => false,
        }
    }
}
