//! Twenty programs that end by themselves nine times, and a console that asks for the end once all ran ten times.
ghost use Rattle.std.specs.Prelude.{None};

use crossbeam_channel::{Receiver, Sender, bounded};
use std::alloc::{AllocError, Global};
use std::process::Abort;
use std::sync::Wait;
use sv_base::{How, Pid, Signal, Text};
use sv_out::failed::Failed;
use sv_out::order::SpawnOrder;
use sv_out::sink::ListSink;
use sv_out::source::{ListSource, Source};
use sv_outside::{KillFault, SpawnFault, Spawner, Started, Waiter};

/// How often each program is to run.
pub(crate) const RUNS: u8 = 10;

/// How many runs there are in all.
pub(crate) const ALL_RUNS: u8 = 200;

/// The console: a text, once so many programs were asked for.
#[derive(Drop)]
pub(crate) struct LateConsole<R: Drop> {
    rt: R,
    asked: Receiver<()>,
    awaited: u8,
    text: ListSource,
}

impl<R: Wait + Drop> Source for LateConsole<R> {
    ghost left = { λ s. None };

    ghost faults = { λ s. ⟦<ListSource as Source>⟧.faults s.text };

    fn read(&mut self, into: &mut [u8]) -> Result<usize, Failed> {
        for _ in 0..self.awaited {
            let _asked = self.asked.recv(&self.rt);
        }
        self.awaited = 0;
        self.text.read(into)
    }
}

/// How often a program ran.
#[derive(Drop)]
struct Tally {
    name: Text,
    runs: u8,
}

/// A process that runs until it gets a signal.
#[derive(Drop)]
struct Running {
    pid: Pid,
    ends: Sender<()>,
}

/// Starts programs, each of which writes `hi` and ends with the code 0: at once, but the tenth run of each when it gets a
/// signal. It says for each program that it was asked for one.
pub(crate) struct TenSpawner<R: Drop> {
    rt: R,
    asked: Sender<()>,
    tallies: Vec<Tally>,
    running: Vec<Running>,
    next: Pid,
}

impl<R: Drop> Drop for TenSpawner<R> {
    fn drop(self) {
        let Self {
            rt: _,
            asked: _,
            tallies: _,
            running: _,
            next: _,
        } = self;
    }
}

/// What waits for the end of a process: it has ended, or does when it gets a signal.
#[derive(Drop)]
pub(crate) struct SignalWaiter<R: Drop> {
    rt: R,
    until: Option<Receiver<()>>,
}

impl<R: Wait + Drop> Waiter for SignalWaiter<R> {
    ghost answers = { λ w result v. Unit {0} };

    ghost faults = { λ w. 0 };

    fn wait(&mut self) -> Result<How, Failed> {
        if let Some(until) = &self.until {
            let _ended = until.recv(&self.rt);
        }
        Ok(How::Code(0))
    }
}

/// The spawner, which says for each program that it was asked for one.
fn spawner_of<R: Drop>(rt: R, alloc: Global, asked: Sender<()>) -> TenSpawner<R> {
    TenSpawner {
        rt,
        asked,
        tallies: Vec::new(alloc),
        running: Vec::new(alloc),
        next: Pid::least(),
    }
}

/// The console, which asks for the end once all programs were asked for.
fn console_of<R: Abort + Copy>(rt: R, alloc: Global, asked: Receiver<()>) -> LateConsole<R> {
    let text = Vec::from_slice(alloc, b"signal TERM\n").expect(&rt, "ample memory");
    LateConsole {
        rt,
        asked,
        awaited: ALL_RUNS,
        text: ListSource::new(text, 9, Vec::new(alloc)),
    }
}

/// The spawner, and the console that asks for the end after all runs.
pub(crate) fn ten_of_each<R: Abort + Wait + Copy>(
    rt: R,
    alloc: Global,
) -> (TenSpawner<R>, LateConsole<R>) {
    let (to, from) = bounded(alloc, usize::from(ALL_RUNS)).expect(&rt, "ample memory");
    (spawner_of(rt, alloc, to), console_of(rt, alloc, from))
}

impl<R: Drop> TenSpawner<R> {
    /// Counts a run of a program that is among the others: its number.
    fn counted_again(&mut self, name: &Text) -> Option<u8> {
        for tally in &mut self.tallies {
            if tally.name.as_str() == name.as_str() {
                tally.runs = tally.runs.saturating_add(1);
                return Some(tally.runs);
            }
        }
        None
    }

    /// The number of this run of a program.
    fn counted(&mut self, name: &Text) -> Result<u8, AllocError> {
        if let Some(number) = self.counted_again(name) {
            return Ok(number);
        }
        let name = name.clone()?;
        self.tallies.push(Tally { name, runs: 1 })?;
        Ok(1)
    }

    /// What a process ends by, which runs until it gets a signal.
    fn running(&mut self, alloc: Global, pid: Pid) -> Result<Receiver<()>, AllocError> {
        self.running.reserve(1)?;
        let (ends, from) = bounded(alloc, 1)?;
        self.running.push_reserved(Running { pid, ends });
        Ok(from)
    }

    /// What a process of this program ends by; none where it ends at once.
    fn until(
        &mut self,
        alloc: Global,
        pid: Pid,
        name: &Text,
    ) -> Result<Option<Receiver<()>>, AllocError> {
        if self.counted(name)? == RUNS {
            Ok(Some(self.running(alloc, pid)?))
        } else {
            Ok(None)
        }
    }
}

/// A program that writes this.
fn started<R: Drop>(
    alloc: Global,
    pid: Pid,
    written: Vec<u8>,
    waiter: SignalWaiter<R>,
) -> Started<ListSink, ListSource, ListSource, SignalWaiter<R>> {
    Started {
        pid,
        stdin: ListSink::new(alloc, 9, Vec::new(alloc)),
        stdout: ListSource::new(written, 9, Vec::new(alloc)),
        stderr: ListSource::new(Vec::new(alloc), 9, Vec::new(alloc)),
        waiter,
    }
}

impl<R: Wait + Copy> Spawner for TenSpawner<R> {
    type Stdin = ListSink;

    type Stdout = ListSource;

    type Stderr = ListSource;

    type Waiter = SignalWaiter<R>;

    ghost asked = { λ s. None };

    ghost faults = { λ s. 0 };

    fn spawn(
        &mut self,
        alloc: Global,
        order: &SpawnOrder,
    ) -> Result<Started<ListSink, ListSource, ListSource, SignalWaiter<R>>, SpawnFault> {
        let pid = self.next;
        self.next = pid.one_more();
        let until = self.until(alloc, pid, &order.name)?;
        let written = Vec::from_slice(alloc, b"hi\n")?;
        let _refused = self.asked.send(&self.rt, ());
        let waiter = SignalWaiter { rt: self.rt, until };
        Ok(started(alloc, pid, written, waiter))
    }

    fn kill(
        &mut self,
        _alloc: Global,
        pid: Pid,
        _signal: Signal,
        _group: bool,
    ) -> Result<(), KillFault> {
        for running in &self.running {
            if running.pid == pid {
                let _refused = running.ends.send(&self.rt, ());
            }
        }
        Ok(())
    }
}
