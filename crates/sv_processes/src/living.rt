//! The programs that live.

use crate::signaller::Signaller;
use crate::tools::Tools;
use std::alloc::{AllocError, Global};
use std::net::Net;
use std::process::Processes;
use std::rt::{Clock, Files};
use std::sync::{Arc, Mutex, Wait};
use std::thread;
use std::time::Duration;
use sv_base::{Pid, Signal};

/// How long it is until the living are looked at again, in milliseconds.
const LOOK: u64 = 10;

/// The numbers of the programs that were started and whose end nobody has seen yet, as several holders share them.
pub struct Living {
    numbers: Arc<Mutex<Vec<u32>>>,
}

impl Drop for Living {
    fn drop(self) {
        let Self { numbers: _ } = self;
    }
}

impl Living {
    /// None yet.
    pub fn new(alloc: Global) -> Result<Living, AllocError> {
        Ok(Living {
            numbers: Arc::new(alloc, Mutex::new(Vec::new(alloc)))?,
        })
    }

    /// The same programs, for another holder.
    pub fn another(&self) -> Result<Living, AllocError> {
        Ok(Living {
            numbers: Arc::try_clone(&self.numbers)?,
        })
    }

    /// A program lives.
    pub(crate) fn add<R: Wait>(&self, rt: &R, number: u32) -> Result<(), AllocError> {
        self.numbers.lock(rt).push(number)?;
        Ok(())
    }

    /// A program has ended.
    pub(crate) fn remove<R: Wait>(&self, rt: &R, number: u32) {
        let mut numbers = self.numbers.lock(rt);
        if let Some(at) = numbers.iter().position(|&one| one == number) {
            numbers.swap_remove(at);
        }
    }

    /// Whether none lives.
    pub fn is_empty<R: Wait>(&self, rt: &R) -> bool {
        self.numbers.lock(rt).is_empty()
    }

    fn numbers<R: Wait>(&self, rt: &R) -> Result<Vec<u32>, AllocError> {
        self.numbers.lock(rt).clone()
    }

    /// Ends each program that lives, with its group: by TERM, and where one is there so many seconds later by KILL. Answers how
    /// many there were. Where memory is refused some may live on.
    pub fn end_all<R: Processes + Files + Net + Wait + Clock + Copy + Drop>(
        &self,
        rt: R,
        alloc: Global,
        seconds: u32,
    ) -> Result<usize, AllocError> {
        let all = self.numbers(&rt)?;
        if all.is_empty() {
            return Ok(0);
        }
        let mut signaller = Signaller::new(rt, alloc, Tools::find(&rt, alloc)?.setsid.take())?;
        signal_all(alloc, &mut signaller, all.as_slice(), Signal::Term)?;
        if !self.ends_within(&rt, seconds) {
            let rest = self.numbers(&rt)?;
            signal_all(alloc, &mut signaller, rest.as_slice(), Signal::Kill)?;
            self.ends_within(&rt, 1);
        }
        Ok(all.len())
    }

    /// Waits until none lives, so many seconds at most: whether none does.
    fn ends_within<R: Wait + Clock>(&self, rt: &R, seconds: u32) -> bool {
        for _ in 0..u64::from(seconds) * (1_000 / LOOK) {
            if self.is_empty(rt) {
                return true;
            }
            thread::sleep(rt, Duration::from_millis(LOOK));
        }
        self.is_empty(rt)
    }
}

/// Sends a signal to the group of each of these programs.
fn signal_all<R: Processes + Net + Copy + Drop>(
    alloc: Global,
    signaller: &mut Signaller<R>,
    numbers: &[u32],
    signal: Signal,
) -> Result<(), AllocError> {
    for &number in numbers {
        if let Some(pid) = Pid::new(number) {
            signaller.send(alloc, pid, signal, true)?;
        }
    }
    Ok(())
}
