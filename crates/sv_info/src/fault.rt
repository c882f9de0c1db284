//! The faults that a method can be answered with.
ghost use Rattle.std.specs.Prelude.{◌≡◌, ◌==◌, ◌++◌, IfOk, codes, find};
ghost use Rattle.std.specs.Option.{option_copied};
ghost use Rattle.sv_info.specs.declared.fault.Fault.{Fault};
ghost use Rattle.sv_info.specs.Faults.{all_faults, fault_name, fault_number, fault_of, fault_text};
ghost use Rattle.sv_info.specs.Faults.{names_subject};

use std::alloc::{AllocError, Global};
use sv_base::text::Text;

/// A fault of the manual's chapter on its XML-RPC interface.
#[derive(Clone, Copy, PartialEq, Eq)]
pub enum Fault {
    UnknownMethod,
    IncorrectParameters,
    BadArguments,
    SignatureUnsupported,
    ShutdownState,
    BadName,
    BadSignal,
    NoFile,
    NotExecutable,
    Failed,
    AbnormalTermination,
    SpawnError,
    AlreadyStarted,
    NotRunning,
}

const ALL: [Fault; 14] = [
    Fault::UnknownMethod,
    Fault::IncorrectParameters,
    Fault::BadArguments,
    Fault::SignatureUnsupported,
    Fault::ShutdownState,
    Fault::BadName,
    Fault::BadSignal,
    Fault::NoFile,
    Fault::NotExecutable,
    Fault::Failed,
    Fault::AbnormalTermination,
    Fault::SpawnError,
    Fault::AlreadyStarted,
    Fault::NotRunning,
];

impl Fault {
    /// The number by which the manual knows the fault.
    pub fn number(self) -> u32
        ensures { result ≡ fault_number self }
    {
        match self {
            Fault::UnknownMethod => 1,
            Fault::IncorrectParameters => 2,
            Fault::BadArguments => 3,
            Fault::SignatureUnsupported => 4,
            Fault::ShutdownState => 6,
            Fault::BadName => 10,
            Fault::BadSignal => 11,
            Fault::NoFile => 20,
            Fault::NotExecutable => 21,
            Fault::Failed => 30,
            Fault::AbnormalTermination => 40,
            Fault::SpawnError => 50,
            Fault::AlreadyStarted => 60,
            Fault::NotRunning => 70,
        }
    }

    /// The name in upper case.
    pub fn name(self) -> &'static str
        ensures { result.now ≡ fault_name self }
    {
        match self {
            Fault::UnknownMethod => "UNKNOWN_METHOD",
            Fault::IncorrectParameters => "INCORRECT_PARAMETERS",
            Fault::BadArguments => "BAD_ARGUMENTS",
            Fault::SignatureUnsupported => "SIGNATURE_UNSUPPORTED",
            Fault::ShutdownState => "SHUTDOWN_STATE",
            Fault::BadName => "BAD_NAME",
            Fault::BadSignal => "BAD_SIGNAL",
            Fault::NoFile => "NO_FILE",
            Fault::NotExecutable => "NOT_EXECUTABLE",
            Fault::Failed => "FAILED",
            Fault::AbnormalTermination => "ABNORMAL_TERMINATION",
            Fault::SpawnError => "SPAWN_ERROR",
            Fault::AlreadyStarted => "ALREADY_STARTED",
            Fault::NotRunning => "NOT_RUNNING",
        }
    }

    /// The fault of a number. A number that is none counts as FAILED.
    pub fn of(number: u32) -> Fault
        ensures { result ≡ fault_of number }
    {
        numbered(number).unwrap_or(Fault::Failed)
    }

    /// The text of the fault: its name, and with some faults what the call named, where it named something.
    pub fn text(self, alloc: Global, subject: Option<&str>) -> Result<Text, AllocError>
        ensures { IfOk result (λ text. text ≡ fault_text self (option_copied subject.entry)) }
    {
        match subject {
            None => Ok(Text::fixed(self.name())),
            Some(subject) if self.names_subject() => named(alloc, self.name(), subject),
            Some(_) => Ok(Text::fixed(self.name())),
        }
    }

    /// Whether the fault's text names what the call named.
    fn names_subject(self) -> bool
        ensures { result ≡ names_subject self }
    {
        match self {
            Fault::BadName
            | Fault::BadSignal
            | Fault::NoFile
            | Fault::NotExecutable
            | Fault::AbnormalTermination
            | Fault::SpawnError
            | Fault::AlreadyStarted
            | Fault::NotRunning => true,
            _ => false,
        }
    }
}

fn numbered(number: u32) -> Option<Fault>
    ensures { result ≡ find (λ fault. fault_number fault == number) all_faults }
{
    ALL.iter().copied().find(|fault| fault.number() == number)
}

/// A name and what it is said of.
fn named(alloc: Global, name: &str, subject: &str) -> Result<Text, AllocError>
    ensures { IfOk result (λ text. text ≡ name.now ++ codes ": " ++ subject.now) }
{
    let mut text = String::from_str(alloc, name)?;
    text.push_str(": ")?;
    text.push_str(subject)?;
    Ok(Text::from_string(text))
}
