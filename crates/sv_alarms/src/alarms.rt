//! The moments at which there is a reason to look.

use crossbeam_channel::{Receiver, RecvTimeoutError, Sender, unbounded};
use std::alloc::Global;
use std::collections::BTreeSet;
use std::rt::Clock;
use std::sync::Wait;
use std::time::{Duration, Instant};
use std::{io, thread};
use sv_base::{Pid, Text};
use sv_out::order::SpawnOrder;

/// How far apart two looks are at least, in milliseconds: alarms that are nearer to each other are one.
const STEP: u64 = 20;

/// The times of one program.
pub struct Times {
    /// The name of its group.
    pub group: Text,
    /// Its own name.
    pub name: Text,
    /// How long it has to stay up for a start to count, in milliseconds.
    pub start: u64,
    /// How long it may take to stop, in milliseconds.
    pub stop: u64,
    /// The process that was started last.
    pub pid: Option<Pid>,
}

impl Drop for Times {
    fn drop(self) {
        let Self {
            group: _,
            name: _,
            start: _,
            stop: _,
            pid: _,
        } = self;
    }
}

/// The side that rings: it knows the times of each program. It never waits.
pub struct Bell<R> {
    rt: R,
    programs: Vec<Times>,
    to: Sender<u64>,
}

impl<R: Drop> Drop for Bell<R> {
    fn drop(self) {
        let Self {
            rt: _,
            programs: _,
            to: _,
        } = self;
    }
}

impl<R: Wait> Bell<R> {
    /// Rings, now and for the end of its time, since this program was started as this process.
    pub(crate) fn started(&mut self, order: &SpawnOrder, pid: Pid) {
        let found = self.programs.iter().position(|times| times.name == order.name
            && times.group == order.group);
        if let Some(times) = found.and_then(|at| self.programs.get_mut(at)) {
            times.pid = Some(pid);
            let _ = self.to.try_send(&self.rt, times.start);
        }
    }

    /// Rings, now and for the end of its time, since the program of this process was told to stop.
    pub(crate) fn told_to_stop(&mut self, pid: Pid) {
        let found = self.programs.iter().find(|times| times.pid == Some(pid));
        if let Some(times) = found {
            let _ = self.to.try_send(&self.rt, times.stop);
        }
    }
}

/// The side that waits: the moments at which there is a reason to look, in milliseconds since it was made.
pub struct Alarms<R> {
    rt: R,
    begun: Instant,
    due: BTreeSet<u64>,
    from: Receiver<u64>,
}

impl<R: Drop> Drop for Alarms<R> {
    fn drop(self) {
        let Self {
            rt: _,
            begun: _,
            due: _,
            from: _,
        } = self;
    }
}

impl<R: Wait + Clock + Copy> Alarms<R> {
    /// Both sides, for programs of these times. The first look is at once. An error where the clock has one, or memory is
    /// refused.
    pub fn new(rt: R, alloc: Global, programs: Vec<Times>) -> io::Result<(Bell<R>, Alarms<R>)> {
        let (to, from) = unbounded(alloc)?;
        let mut due = BTreeSet::new(alloc);
        due.insert(0)?;
        let begun = Instant::now(&rt)?;
        Ok((
            Bell { rt, programs, to },
            Alarms {
                rt,
                begun,
                due,
                from,
            },
        ))
    }

    /// Waits so many milliseconds, or until there is a reason to look. Where the machine's clock fails, for no reason.
    pub(crate) fn wait(&mut self, milliseconds: u32) {
        let whole = u64::from(milliseconds);
        let mut end = None;
        for _ in 0..u64::MAX {
            let Ok(now) = self.now() else {
                return thread::sleep(&self.rt, Duration::from_millis(whole));
            };
            let end = *end.get_or_insert(now.saturating_add(whole));
            if end <= now || self.has_rung(now) {
                return;
            }
            let until = match self.due.first() {
                Some(&due) => due.min(end),
                None => end,
            };
            self.listen(until.saturating_sub(now));
        }
    }

    /// Waits so many milliseconds at most for what is rung, which counts from the moment at which it comes.
    fn listen(&mut self, milliseconds: u64) {
        let time = Duration::from_millis(milliseconds);
        match self.from.recv_timeout(&self.rt, time) {
            Ok(after) => {
                let Ok(now) = self.now() else {
                    return;
                };
                self.add(now.saturating_add(STEP));
                self.add(now.saturating_add(after).saturating_add(STEP));
            }
            Err(RecvTimeoutError::Timeout) => {}
            Err(RecvTimeoutError::Disconnected) => thread::sleep(&self.rt, time),
        }
    }

    /// Adds a moment, at the next step. Where memory is refused it is left out, and looked a second later at most.
    fn add(&mut self, moment: u64) {
        let _ = self.due.insert(moment.div_ceil(STEP).saturating_mul(STEP));
    }

    /// Whether a moment has come; those that have come are gone.
    fn has_rung(&mut self, now: u64) -> bool {
        let mut has = false;
        for _ in 0..u64::MAX {
            match self.due.first() {
                Some(&due) if due <= now => {
                    self.due.pop_first();
                    has = true;
                }
                _ => return has,
            }
        }
        has
    }

    /// The milliseconds since it was made.
    fn now(&self) -> io::Result<u64> {
        let time = self.begun.elapsed(&self.rt)?;
        Ok(time.as_millis().min(u128::from(u64::MAX)) as u64)
    }
}
