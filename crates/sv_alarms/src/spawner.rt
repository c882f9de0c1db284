//! A spawner that rings.
ghost use Rattle.std.specs.Prelude.{◌≡◌, None};

use crate::alarms::Bell;
use std::alloc::Global;
use std::net::Net;
use std::process::{ChildStdin, Processes};
use std::rt::Files;
use std::sync::Wait;
use sv_base::{Pid, Signal};
use sv_os::WriteSink;
use sv_out::order::SpawnOrder;
use sv_outside::{KillFault, SpawnFault, Spawner, Started};
use sv_processes::{OsSpawner, OsWaiter, PipeSource};

/// The machine's spawner, each of whose starts and signals rings. It tells nothing, and its faults are those of that spawner.
pub struct AlarmedSpawner<R: Processes + Wait + Drop> {
    spawner: OsSpawner<R>,
    bell: Bell<R>,
}

impl<R: Processes + Wait + Drop> Drop for AlarmedSpawner<R> {
    fn drop(self) {
        let Self {
            spawner: _,
            bell: _,
        } = self;
    }
}

impl<R: Processes + Wait + Drop> AlarmedSpawner<R> {
    /// This spawner, which rings by this bell.
    pub fn new(spawner: OsSpawner<R>, bell: Bell<R>) -> AlarmedSpawner<R>
        ensures { result.spawner ≡ spawner }
    {
        AlarmedSpawner { spawner, bell }
    }
}

impl<R: Processes + Files + Net + Wait + Copy + Drop> Spawner for AlarmedSpawner<R> {
    type Stdin = WriteSink<ChildStdin>;

    type Stdout = PipeSource;

    type Stderr = PipeSource;

    type Waiter = OsWaiter<R>;

    ghost asked = { λ _. None };

    ghost faults = { λ s. ⟦<OsSpawner<R> as Spawner>⟧.faults s.spawner };

    fn spawn(
        &mut self,
        alloc: Global,
        order: &SpawnOrder,
    ) -> Result<Started<Self::Stdin, Self::Stdout, Self::Stderr, Self::Waiter>, SpawnFault> {
        let answer = self.spawner.spawn(alloc, order);
        if let Ok(started) = &answer {
            self.bell.started(order, started.pid);
        }
        answer
    }

    fn kill(
        &mut self,
        alloc: Global,
        pid: Pid,
        signal: Signal,
        group: bool,
    ) -> Result<(), KillFault> {
        self.bell.told_to_stop(pid);
        self.spawner.kill(alloc, pid, signal, group)
    }
}
