//! Why the system starts no program, and how one ended.
ghost use Rattle.std.specs.Prelude.{◌≡◌, ◌≤◌, ℕ, Some, pos};
ghost use Rattle.std.specs.Process.{exit_code, exit_signal};

use std::alloc::{AllocError, Global};
use std::io;
use std::io::ErrorKind;
use std::os::unix::process::ExitStatusExt;
use std::process::ExitStatus;
use sv_base::{ExitSignal, How, Text};
use sv_outside::{Refusal, SpawnFault};

/// What the system answers of a file that is no program: `ENOEXEC` of Linux.
const NO_PROGRAM: i32 = 8;

/// Why a program wasn't started. Where the system itself has no memory for a process, the program is refused.
pub fn fault_of(alloc: Global, error: &io::Error) -> Result<SpawnFault, AllocError> {
    if is_own_memory(error) {
        return Ok(SpawnFault::OutOfMemory);
    }
    match error.kind() {
        ErrorKind::NotFound | ErrorKind::NotADirectory => {
            Ok(SpawnFault::Refused(Refusal::NoFile))
        }
        ErrorKind::PermissionDenied => Ok(SpawnFault::Refused(Refusal::NotExecutable)),
        _ if error.raw_os_error() == Some(NO_PROGRAM) => {
            Ok(SpawnFault::Refused(Refusal::NotExecutable))
        }
        _ => Ok(refused(format!(in alloc; "{error}")?)),
    }
}

/// A refusal for this reason.
pub(crate) fn refused(reason: String) -> SpawnFault {
    SpawnFault::Refused(Refusal::Refused(Text::from_string(reason)))
}

/// Whether memory was refused in this process, and not by the system.
pub(crate) fn is_own_memory(error: &io::Error) -> bool {
    error.kind() == ErrorKind::OutOfMemory && error.raw_os_error().is_none()
}

/// How a process ended: by its code, or by a signal of a number up to 64; none where the status tells no such end.
pub fn how_of(status: ExitStatus) -> Option<How>
    ensures code { (code : ℕ) → exit_code status ≡ Some (pos code) → result ≡ Some (How.Code code) }
    ensures signal { (number : ℕ) → exit_signal status ≡ Some (pos number) → number ≤ 64
        → result ≡ Some (How.Signal number) }
{
    if let Some(code) = status.code() {
        return Some(How::Code(u8::try_from(code).ok()?));
    }
    let signal = u32::try_from(status.signal()?).ok()?;
    Some(How::Signal(ExitSignal::new(signal)?))
}
