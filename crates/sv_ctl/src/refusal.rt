//! Why there is no conversation.
ghost use Rattle.std.specs.Prelude.{◌≡◌, ◌++◌, IfOk};
ghost use Rattle.sv_ctl.specs.Refusals.{line_with, refusal_told, refused};
ghost use Rattle.sv_ctl.specs.Talk.Courses.{IsLost, IsSayable};
ghost use Rattle.sv_ctl.specs.Serving.{IsUnreadable};

use crate::talk::{Course, Told};
use std::alloc::{AllocError, Global};
use sv_base::{Bytes, Text};
use sv_commands::Status;
use sv_sections::ConfFault;

/// Why there is no server to ask.
#[derive(Debug, Drop)]
pub enum Refusal {
    /// The options or the URL are refused.
    Words,
    /// There is no configuration file of this name.
    Missing(Text),
    /// The configuration is refused, for another cause than memory.
    Conf(ConfFault),
    /// A call on the shelf failed, which was given this name or pattern.
    Unreadable(Text),
    OutOfMemory,
}

impl From<AllocError> for Refusal {
    ghost use Rattle.sv_ctl.specs.declared.refusal.Refusal.TheVariants.{OutOfMemory};

    ghost from_gives = { λ error refusal. refusal ≡ OutOfMemory };

    fn from(_: AllocError) -> Refusal {
        Refusal::OutOfMemory
    }
}

const USAGE: &[u8] =
    b"Error: usage: supervisorctl [-c FILE] [-s URL] [-u USER] [-p PASSWORD] COMMAND\n";

/// What is said of a refusal.
pub(crate) fn refusal_told(alloc: Global, refusal: &Refusal) -> Result<Told, AllocError>
    ensures told { IfOk result (λ told. told ≡ refusal_told refusal.now) }
    ensures sayable { IfOk result (λ told. IsSayable told.course) }
    ensures lost { IfOk result (λ told. IsLost told.course → IsUnreadable refusal.now) }
{
    match refusal {
        Refusal::Words => Ok(refused(Vec::from_slice(alloc, USAGE)?)),
        Refusal::Missing(file) => Ok(refused(line_with(alloc, b"Error: no file ", file.as_str())?)),
        Refusal::Conf(fault) => {
            let fault = fault.text(alloc)?;
            Ok(refused(line_with(alloc, b"Error: conf ", fault.as_str())?))
        }
        Refusal::Unreadable(name) => Ok(Told {
            text: Bytes::from_vec(line_with(alloc, b"Error: cannot read ", name.as_str())?),
            course: Course::Lost,
        }),
        Refusal::OutOfMemory => Err(AllocError),
    }
}

/// A line with which the words are refused.
fn refused(line: Vec<u8>) -> Told
    ensures { result ≡ refused line.items }
{
    Told {
        text: Bytes::from_vec(line),
        course: Course::On(Status::Refused),
    }
}

/// A line of these words and this name.
fn line_with(alloc: Global, words: &[u8], name: &str) -> Result<Vec<u8>, AllocError>
    ensures { IfOk result (λ line. line.items ≡ line_with words.now name.now) }
{
    let mut line = Vec::from_slice(alloc, words)?;
    line.extend_from_slice(name.as_bytes())?;
    line.push(b'\n')?;
    Ok(line)
}
