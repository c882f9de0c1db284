//! The lines on standard error.
ghost use Rattle.std.specs.Prelude.{◌≡◌, ◌++◌, IfOk, codes, string_bytes};
ghost use Rattle.sv_disk.specs.Lines.{again_line, lost_line, redirected_line, unrotated_line};

use std::alloc::{AllocError, Global};

/// The line for a log that takes no pieces, for this reason.
pub fn lost_line(alloc: Global, log: &str, reason: &str) -> Result<String, AllocError>
    ensures { IfOk result (λ line. string_bytes line ≡ lost_line log.now reason.now) }
{
    let mut line = String::from_str(alloc, "log ")?;
    line.push_str(log)?;
    line.push_str(": cannot write: ")?;
    line.push_str(reason)?;
    line.push_str("; what is written there is lost until it can be")?;
    Ok(line)
}

/// The line for a log that takes pieces again, after so many bytes were lost.
pub fn again_line(alloc: Global, log: &str, bytes: u64) -> Result<String, AllocError>
    ensures { IfOk result (λ line. string_bytes line ≡ again_line log.now bytes) }
{
    let bytes = format!(in alloc; "{bytes}")?;
    let mut line = String::from_str(alloc, "log ")?;
    line.push_str(log)?;
    line.push_str(": written again, ")?;
    line.push_str(bytes.as_str())?;
    line.push_str(" bytes were lost")?;
    Ok(line)
}

/// The line for a log on standard output, where the journal is.
pub fn redirected_line(alloc: Global, log: &str) -> Result<String, AllocError>
    ensures { IfOk result (λ line. string_bytes line ≡ redirected_line log.now) }
{
    let mut line = String::from_str(alloc, "log ")?;
    line.push_str(log)?;
    line.push_str(
        ": the journal is on standard output; what is written there goes to standard error",
    )?;
    Ok(line)
}

/// The line for a log that can't be given its backup's name, for this reason.
pub fn unrotated_line(alloc: Global, log: &str, reason: &str) -> Result<String, AllocError>
    ensures { IfOk result (λ line. string_bytes line ≡ unrotated_line log.now reason.now) }
{
    let mut line = String::from_str(alloc, "log ")?;
    line.push_str(log)?;
    line.push_str(": cannot be rotated: ")?;
    line.push_str(reason)?;
    line.push_str("; it grows until it can be")?;
    Ok(line)
}
