//! The parts of a daemon with two clients, of which each waits until the other has come far enough.
ghost use Rattle.std.specs.Prelude.{None};

use crossbeam_channel::{Receiver, Sender};
use std::alloc::Global;
use std::collections::VecDeque;
use std::sync::Wait;
use std::thread;
use std::time::Duration;
use sv_base::{How, Moment, Pid, Signal};
use sv_out::Link;
use sv_out::failed::Failed;
use sv_out::order::SpawnOrder;
use sv_out::sink::ListSink;
use sv_out::source::{ListSource, Source};
use sv_outside::{Clock, KillFault, Listen, SpawnFault, Spawner, Started, Waiter};

/// After so many takes the clock goes on, though the second client has no reply.
const MOST_TAKES: u64 = 10_000;

/// A clock that stands at 0, and at 1,000 once it is told that the second client has its reply. Each take asks it once; so a
/// daemon that serves one link after the other ends too, but with its replies in the other order. A pause takes it a millisecond.
#[derive(Drop)]
pub(crate) struct StageClock<R: Drop> {
    rt: R,
    answered: Option<Receiver<()>>,
    takes: u64,
    now: u64,
}

impl<R: Drop> StageClock<R> {
    pub(crate) fn new(rt: R, answered: Option<Receiver<()>>) -> StageClock<R> {
        StageClock {
            rt,
            answered,
            takes: 0,
            now: 0,
        }
    }
}

impl<R: Wait + std::time::Clock + Drop> Clock for StageClock<R> {
    ghost next = { λ c. None };

    ghost paused = { λ c. None };

    fn now(&mut self) -> Moment {
        let Some(answered) = &self.answered else {
            return Moment::zero();
        };
        self.takes = self.takes.saturating_add(1);
        if answered.try_recv(&self.rt).is_ok() || self.takes == MOST_TAKES {
            self.now = 1_000;
        }
        Moment::new(self.now).unwrap_or(Moment::zero())
    }

    fn pause(&mut self, _milliseconds: u32) {
        thread::sleep(&self.rt, Duration::from_millis(1));
    }
}

/// A client's link. It gives its bytes once it is told to begin; where it gets the reply that it waits for, it tells others.
pub(crate) struct ClientLink<R: Drop> {
    pub(crate) rt: R,
    pub(crate) begins: Option<Receiver<()>>,
    pub(crate) source: ListSource,
    pub(crate) reply: &'static str,
    pub(crate) told: Vec<Sender<()>>,
}

impl<R: Drop> Drop for ClientLink<R> {
    fn drop(self) {
        let Self {
            rt: _,
            begins: _,
            source: _,
            reply: _,
            told: _,
        } = self;
    }
}

impl<R: Wait + Drop> Link for ClientLink<R> {
    ghost told = { λ l. None };

    ghost faults = { λ l. ⟦<ListSource as Source>⟧.faults l.source };

    fn read(&mut self, into: &mut [u8]) -> Result<usize, Failed> {
        if let Some(begins) = self.begins.take() {
            let _begun = begins.recv(&self.rt);
        }
        self.source.read(into)
    }

    fn write(&mut self, piece: &[u8]) -> Result<usize, Failed> {
        let text = std::str::from_utf8(piece).unwrap_or("");
        if text.contains(self.reply) {
            for told in &self.told {
                let _refused = told.send(&self.rt, ());
            }
        }
        Ok(piece.len())
    }
}

/// Accepts the links of a list, and then none.
#[derive(Drop)]
pub(crate) struct Clients<R: Drop> {
    pub(crate) rt: R,
    pub(crate) links: VecDeque<ClientLink<R>>,
    pub(crate) faults: u64,
}

impl<R: Wait + std::time::Clock + Drop> Listen for Clients<R> {
    type Link = ClientLink<R>;

    ghost told = { λ l. None };

    ghost faults = { λ l. l.faults };

    fn accept(&mut self) -> Result<ClientLink<R>, Failed> {
        let Some(link) = self.links.pop_front() else {
            thread::sleep(&self.rt, Duration::from_millis(100));
            self.faults = self.faults.saturating_add(1);
            return Err(Failed);
        };
        Ok(link)
    }
}

/// Starts a program that lives until the first client has its reply, and tells that it was started.
#[derive(Drop)]
pub(crate) struct StageSpawner<R: Drop> {
    pub(crate) rt: R,
    pub(crate) started: Sender<()>,
    pub(crate) until: Option<Receiver<()>>,
}

impl<R: Wait + Copy> Spawner for StageSpawner<R> {
    type Stdin = ListSink;

    type Stdout = ListSource;

    type Stderr = ListSource;

    type Waiter = StageWaiter<R>;

    ghost asked = { λ s. None };

    ghost faults = { λ s. 0 };

    fn spawn(
        &mut self,
        alloc: Global,
        _order: &SpawnOrder,
    ) -> Result<Started<ListSink, ListSource, ListSource, StageWaiter<R>>, SpawnFault> {
        let _refused = self.started.send(&self.rt, ());
        Ok(Started {
            pid: Pid::least(),
            stdin: ListSink::new(alloc, 1, Vec::new(alloc)),
            stdout: ListSource::new(Vec::new(alloc), 1, Vec::new(alloc)),
            stderr: ListSource::new(Vec::new(alloc), 1, Vec::new(alloc)),
            waiter: StageWaiter {
                rt: self.rt,
                until: self.until.take(),
            },
        })
    }

    fn kill(
        &mut self,
        _alloc: Global,
        _pid: Pid,
        _signal: Signal,
        _group: bool,
    ) -> Result<(), KillFault> {
        Ok(())
    }
}

/// Waits until the first client has its reply.
#[derive(Drop)]
pub(crate) struct StageWaiter<R: Drop> {
    rt: R,
    until: Option<Receiver<()>>,
}

impl<R: Wait + Drop> Waiter for StageWaiter<R> {
    ghost answers = { λ w how after. Unit {0} };

    ghost faults = { λ w. 0 };

    fn wait(&mut self) -> Result<How, Failed> {
        if let Some(until) = self.until.take() {
            let _done = until.recv(&self.rt);
        }
        Ok(How::Code(0))
    }
}

/// A console that asks for the end once the first client has its reply.
#[derive(Drop)]
pub(crate) struct LateConsole<R: Drop> {
    pub(crate) rt: R,
    pub(crate) until: Option<Receiver<()>>,
    pub(crate) source: ListSource,
}

impl<R: Wait + Drop> Source for LateConsole<R> {
    ghost left = { λ c. None };

    ghost faults = { λ c. ⟦<ListSource as Source>⟧.faults c.source };

    fn read(&mut self, into: &mut [u8]) -> Result<usize, Failed> {
        if let Some(until) = self.until.take() {
            let _done = until.recv(&self.rt);
        }
        self.source.read(into)
    }
}
