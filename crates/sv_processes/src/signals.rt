//! The line by which the shell sends a signal.
ghost use Rattle.std.specs.Prelude.{◌≡◌, IfOk, string_bytes};
ghost use Rattle.sv_processes.specs.Signals.{kill_line, kill_to};

use std::alloc::{AllocError, Global};
use sv_base::{Pid, Signal};

/// The shell's line that signals a process, or its group; where there is no such group, the process alone. Process 1 is
/// never taken for a group, since the number of its group would stand for every process.
pub fn kill_line(alloc: Global, pid: Pid, signal: Signal, group: bool) -> Result<String, AllocError>
    ensures { IfOk result (λ line. string_bytes line ≡ kill_line pid signal group) }
{
    let one = line_to(alloc, "", pid, signal)?;
    if !group || pid.get() == 1 {
        return Ok(one);
    }
    let mut line = line_to(alloc, "-- -", pid, signal)?;
    line.push_str(" || ")?;
    line.push_str(one.as_str())?;
    Ok(line)
}

fn line_to(alloc: Global, behind: &str, pid: Pid, signal: Signal) -> Result<String, AllocError>
    ensures { IfOk result (λ line. string_bytes line ≡ kill_to behind.now pid signal) }
{
    let (name, pid) = (signal.name(), pid.get());
    format!(in alloc; "kill -s {name} {behind}{pid}")
}
