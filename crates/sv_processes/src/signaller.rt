//! What sends signals: a shell that stays.

use crate::ends::is_own_memory;
use crate::signals::kill_line;
use std::alloc::{AllocError, Global};
use std::io;
use std::io::{Read, Write};
use std::net::Net;
use std::os::fd::OwnedFd;
use std::os::unix::net::UnixStream;
use std::process::{Child, Command, OpenProcess, Processes, Stdio};
use std::time::Duration;
use sv_base::{Pid, Signal, Text};

/// What sends signals.
const SHELL: &str = "/bin/sh";

/// How long the shell may take for an answer, in milliseconds.
const ANSWER: u64 = 500;

/// How often a line is given to a shell that stays; the second time to one that was started anew.
const TRIES: u32 = 2;

/// A shell that is told its lines over a socket, and answers each.
struct Resident<P: OpenProcess + Drop> {
    link: UnixStream,
    child: Child<P>,
}

impl<P: OpenProcess + Drop> Drop for Resident<P> {
    /// Ends the shell and waits for it, so that nothing of it stays in the system's table.
    fn drop(self) {
        let Self { link, mut child } = self;
        drop(link);
        if child.kill().is_ok() {
            let _ = child.wait();
        }
    }
}

/// Sends signals by a shell's own `kill`. One shell stays for all of them, so that a signal takes no new descriptor and no
/// new process; where it has gone it is started again, and where that fails too there is a shell for the one signal. KILL
/// reaches a child of this process without a shell.
pub(crate) struct Signaller<R: Processes> {
    rt: R,
    session: Option<Text>,
    resident: Option<Resident<R::Started>>,
}

impl<R: Processes + Drop> Drop for Signaller<R> {
    fn drop(self) {
        let Self {
            rt: _,
            session: _,
            resident: _,
        } = self;
    }
}

impl<R: Processes + Net + Copy + Drop> Signaller<R> {
    /// One whose shell is started by this `setsid`, so that what is typed at a terminal doesn't end it.
    pub(crate) fn new(
        rt: R,
        alloc: Global,
        session: Option<Text>,
    ) -> Result<Signaller<R>, AllocError> {
        let resident = begun(&rt, alloc, session.as_ref())?;
        Ok(Signaller {
            rt,
            session,
            resident,
        })
    }

    /// Sends this signal to a process, or to its group: whether it was sent.
    pub(crate) fn send(
        &mut self,
        alloc: Global,
        pid: Pid,
        signal: Signal,
        group: bool,
    ) -> Result<bool, AllocError> {
        if signal == Signal::Kill && !group && kill_child(pid) {
            return Ok(true);
        }
        let line = kill_line(alloc, pid, signal, group)?;
        let sent = match self.ask(alloc, line.as_str())? {
            Some(sent) => sent,
            None => run_once(&self.rt, alloc, line.as_str())?,
        };
        Ok(sent || signal == Signal::Kill && kill_child(pid))
    }

    /// Has the shell that stays run this line: whether it went well; none where there is no such shell.
    fn ask(&mut self, alloc: Global, line: &str) -> Result<Option<bool>, AllocError> {
        let line = format!(in alloc; "{{ {line}; }} && echo 0 || echo 1\n")?;
        for _ in 0..TRIES {
            if self.resident.is_none() {
                self.resident = begun(&self.rt, alloc, self.session.as_ref())?;
            }
            let Some(resident) = &mut self.resident else {
                return Ok(None);
            };
            if let Some(sent) = answer_of(&mut resident.link, line.as_str().as_bytes()) {
                return Ok(Some(sent));
            }
            self.resident = None;
        }
        Ok(None)
    }
}

/// Sends KILL to a child of this process that wasn't waited for: whether it was sent.
pub(crate) fn kill_child(pid: Pid) -> bool {
    match i32::try_from(pid.get()) {
        Ok(pid) => os::kill_child(pid) == 0,
        Err(_) => false,
    }
}

/// Gives the shell a line: its answer, none where it doesn't answer in time.
fn answer_of(link: &mut UnixStream, line: &[u8]) -> Option<bool> {
    let mut answer = [0u8; 2];
    link.write_all(line).ok()?;
    link.read_exact(&mut answer).ok()?;
    Some(answer == *b"0\n")
}

/// A shell that stays, where one can be started.
fn begun<R: Processes + Net>(
    rt: &R,
    alloc: Global,
    session: Option<&Text>,
) -> Result<Option<Resident<R::Started>>, AllocError> {
    match begin(rt, alloc, session) {
        Ok(resident) => Ok(Some(resident)),
        Err(error) if is_own_memory(&error) => Err(AllocError),
        Err(_) => Ok(None),
    }
}

fn begin<R: Processes + Net>(
    rt: &R,
    alloc: Global,
    session: Option<&Text>,
) -> io::Result<Resident<R::Started>> {
    let (link, theirs) = UnixStream::pair(rt)?;
    link.set_read_timeout(Some(Duration::from_millis(ANSWER)))?;
    link.set_write_timeout(Some(Duration::from_millis(ANSWER)))?;
    let mut shell = shell_of(alloc, session)?;
    shell
        .stdin(OwnedFd::from(theirs.try_clone()?))
        .stdout(OwnedFd::from(theirs))
        .stderr(Stdio::null());
    let child = shell.spawn(rt)?;
    Ok(Resident { link, child })
}

fn shell_of(alloc: Global, session: Option<&Text>) -> Result<Command, AllocError> {
    match session {
        Some(tool) => {
            let mut command = Command::new(alloc, tool.as_str())?;
            command.arg(SHELL)?;
            Ok(command)
        }
        None => Command::new(alloc, SHELL),
    }
}

/// Has a shell of its own run this line: whether it went well.
fn run_once<R: Processes>(rt: &R, alloc: Global, line: &str) -> Result<bool, AllocError> {
    let mut shell = Command::new(alloc, SHELL)?;
    shell.arg("-c")?.arg(line)?;
    shell
        .stdin(Stdio::null())
        .stdout(Stdio::null())
        .stderr(Stdio::null());
    match shell.status(rt) {
        Ok(status) => Ok(status.success()),
        Err(error) if is_own_memory(&error) => Err(AllocError),
        Err(_) => Ok(false),
    }
}
