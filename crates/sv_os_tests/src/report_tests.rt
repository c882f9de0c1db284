//! What is told of programs: faults of the system, signals and ends.

use crate::checks::{check, same};
use std::alloc::Global;
use std::io;
use std::io::ErrorKind;
use std::os::unix::process::ExitStatusExt;
use std::process::{Abort, ExitStatus};
use sv_base::{ExitSignal, How, Pid, Signal};
use sv_outside::{Refusal, SpawnFault};
use sv_processes::{fault_of, how_of, kill_line};

/// Memory was refused in this process.
fn is_own_memory(rt: &impl Abort, alloc: Global, error: &io::Error) {
    check(
        rt,
        matches!(&fault_of(alloc, error), Ok(SpawnFault::OutOfMemory)),
    );
}

/// The system refused, in words of its own.
fn is_refused(rt: &impl Abort, alloc: Global, error: &io::Error) {
    check(
        rt,
        matches!(
            &fault_of(alloc, error),
            Ok(SpawnFault::Refused(Refusal::Refused(_)))
        ),
    );
}

#[test]
fn faults_of_the_system_are_told_apart(rt: HostRuntime) {
    is_own_memory(&rt, rt.alloc(), &io::Error::from(ErrorKind::OutOfMemory));
    is_refused(&rt, rt.alloc(), &io::Error::from_raw_os_error(12));
}

/// The line of the shell for this signal.
fn is_line(rt: &impl Abort, alloc: Global, pid: u32, signal: Signal, group: bool, wanted: &str) {
    let pid = Pid::new(pid).expect(rt, "a number of a process");
    let line = kill_line(alloc, pid, signal, group).expect(rt, "ample memory");
    same(rt, line.as_str(), wanted);
}

#[test]
fn signals_are_lines_of_the_shell(rt: HostRuntime) {
    let rows = [
        (
            4_294_967_295,
            Signal::Usr2,
            false,
            "kill -s USR2 4294967295",
        ),
        (
            20,
            Signal::Hup,
            true,
            "kill -s HUP -- -20 || kill -s HUP 20",
        ),
        (1, Signal::Term, true, "kill -s TERM 1"),
    ];
    for (pid, signal, group, wanted) in rows {
        is_line(&rt, rt.alloc(), pid, signal, group, wanted);
    }
}

#[test]
fn ends_are_codes_and_signals(rt: HostRuntime) {
    let rows = [
        (0, Some(How::Code(0))),
        (0x300, Some(How::Code(3))),
        (0xff00, Some(How::Code(255))),
        (9, ExitSignal::new(9).map(How::Signal)),
        (0x8b, ExitSignal::new(11).map(How::Signal)),
        (64, ExitSignal::new(64).map(How::Signal)),
        (65, None),
        (0x137f, None),
    ];
    for (status, how) in rows {
        check(&rt, how_of(ExitStatus::from_raw(status)) == how);
    }
}
