//! The daemon's standard input, and the signals that wait for the daemon.
ghost use Rattle.std.specs.Prelude.{◌≡◌, ◌≤◌, None, length};

use crate::signals::{Waiting, blocked_now, waiting_now};
use libc::net::poll;
use libc::types::pollfd;
use std::io::Read;
use std::rt::Files;
use sv_os::read_some;
use sv_out::failed::Failed;
use sv_out::source::Source;

/// What is asked of `poll`: whether there is something to read.
const POLLIN: i16 = 1;

/// How long one look takes, in milliseconds.
const LOOK: i32 = 100;

/// The daemon's standard input as a source, together with the signals that wait for the daemon.
///
/// A terminal is read only where a line is ready and the daemon is in the foreground, since the system stops a process that
/// reads from behind. Where the daemon was started with TERM, INT or QUIT blocked, it is looked ten times a second whether
/// one waits; such a one comes once, as the line `signal TERM`, which ends a line that was begun, and also when standard input is at its
/// end. It counts each error as a fault, and tells nothing.
#[derive(Drop)]
pub struct Console<R, I> {
    rt: R,
    input: I,
    descriptor: i32,
    signals: Waiting,
    at_end: bool,
    faults: u64,
}

impl<R: Files + AllocGlobal, I: Read> Console<R, I> {
    /// Standard input through this reader, which reads the descriptor.
    pub fn new(rt: R, input: I, descriptor: i32) -> Console<R, I> {
        let signals = blocked_now(&rt);
        Console {
            rt,
            input,
            descriptor,
            signals,
            at_end: false,
            faults: 0,
        }
    }

    /// Waits until a line of a signal is there, or a read can't stop the daemon and, where signals are looked for, doesn't
    /// wait.
    fn next_line(&mut self) -> Option<&'static str>
        ensures { self.new.faults ≡ self.old.faults }
    {
        for _ in 0..u64::MAX {
            let waiting = waiting_now(&self.rt, self.signals);
            let mut signals = self.signals;
            let line = signals.next_line(waiting);
            self.signals = signals;
            if line.is_some() {
                return line;
            }
            if self.at_end {
                rest();
            } else if self.may_read() {
                return None;
            }
        }
        None
    }

    /// Whether standard input may be read now; where not, a look's time has passed.
    fn may_read(&self) -> bool {
        if libc::isatty(self.descriptor) != 1 {
            return self.signals.is_none() || is_ready(self.descriptor);
        }
        if !is_ready(self.descriptor) {
            return false;
        }
        let in_front = libc::tcgetpgrp(self.descriptor) == libc::getpgrp();
        if !in_front {
            rest();
        }
        in_front
    }

    /// What there is at the end of standard input: the line of a signal, once one waits; nothing where none is looked for.
    fn ended(&mut self, into: &mut [u8]) -> usize
        ensures count { result ≤ length into.new }
        ensures room { length into.new ≡ length into.old }
        ensures faults { self.new.faults ≡ self.old.faults }
    {
        self.at_end = true;
        if self.signals.is_none() {
            return 0;
        }
        match self.next_line() {
            Some(line) => put(line, into),
            None => 0,
        }
    }
}

impl<R: Files + AllocGlobal, I: Read> Source for Console<R, I> {
    ghost left = { λ _. None };

    ghost faults = { λ c. c.faults };

    fn read(&mut self, into: &mut [u8]) -> Result<usize, Failed> {
        if let Some(line) = self.next_line() {
            return Ok(put(line, into));
        }
        match read_some(&mut self.input, into) {
            Ok(0) => Ok(self.ended(into)),
            Ok(count) => Ok(count),
            Err(_) => {
                self.faults = self.faults.saturating_add(1);
                Err(Failed)
            }
        }
    }
}

/// Puts a line into this room: how many bytes it takes, none where the room is too small.
fn put(line: &str, into: &mut [u8]) -> usize
    ensures count { result ≤ length into.new }
    ensures room { length into.new ≡ length into.old }
{
    let bytes = line.as_bytes();
    match into.get_mut(..bytes.len()) {
        Some(room) => {
            room.copy_from_slice(bytes);
            bytes.len()
        }
        None => 0,
    }
}

/// Whether there is something to read, now or within a look's time.
fn is_ready(descriptor: i32) -> bool {
    let mut asked = [pollfd {
        fd: descriptor,
        events: POLLIN,
        revents: 0,
    }];
    poll(&mut asked, LOOK) > 0
}

/// Lets a look's time pass.
fn rest() {
    let mut none: [pollfd; 0] = [];
    let _ = poll(&mut none, LOOK);
}
