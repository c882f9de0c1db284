//! What starts programs and sends them signals.
ghost use Rattle.std.specs.Prelude.{◌≡◌, ℕ, List, Option};
ghost use Rattle.sv_out.specs.Faults.{RisesWhere};
ghost use Rattle.sv_outside.specs.Spawning.{IsKillFailure, IsSpawnFailure, kill_asked, spawn_asked};

use crate::waiter::Waiter;
use std::alloc::{AllocError, Global};
use sv_base::{Pid, Signal, Text};
use sv_out::order::SpawnOrder;
use sv_out::sink::Sink;
use sv_out::source::Source;
use thiserror::Error;

/// A program that was started: its process, the ends of its three pipes, and what waits for its end.
#[derive(Drop)]
pub struct Started<I, O, E, W> {
    pub pid: Pid,
    pub stdin: I,
    pub stdout: O,
    pub stderr: E,
    pub waiter: W,
}

/// Why a program was refused.
#[derive(Debug, Drop)]
pub enum Refusal {
    /// There is no such file.
    NoFile,
    /// The file can't be executed.
    NotExecutable,
    /// For the reason given.
    Refused(Text),
}

impl Clone for Refusal {
    ghost is_clone = { λ refusal copy. copy ≡ refusal };

    fn clone(&self) -> Result<Refusal, AllocError> {
        match self {
            Refusal::NoFile => Ok(Refusal::NoFile),
            Refusal::NotExecutable => Ok(Refusal::NotExecutable),
            Refusal::Refused(reason) => Ok(Refusal::Refused(reason.clone()?)),
        }
    }
}

/// Why there is no program.
#[derive(Debug, Drop, Error)]
pub enum SpawnFault {
    /// It was refused; the spawner's count of faults rose in this call.
    #[error("the program was refused")]
    Refused(Refusal),
    #[error("out of memory")]
    OutOfMemory,
}

/// Why a signal wasn't sent.
#[derive(Clone, Copy, Debug, Error)]
pub enum KillFault {
    /// The call failed; the spawner's count of faults rose in it.
    #[error("the call failed")]
    Failed,
    #[error("out of memory")]
    OutOfMemory,
}

impl From<AllocError> for SpawnFault {
    ghost use Rattle.sv_outside.specs.declared.spawner.SpawnFault.TheVariants.{OutOfMemory};

    ghost from_gives = { λ error fault. fault ≡ OutOfMemory };

    fn from(_: AllocError) -> SpawnFault {
        SpawnFault::OutOfMemory
    }
}

impl From<AllocError> for KillFault {
    ghost use Rattle.sv_outside.specs.declared.spawner.KillFault.TheVariants.{OutOfMemory};

    ghost from_gives = { λ error fault. fault ≡ OutOfMemory };

    fn from(_: AllocError) -> KillFault {
        KillFault::OutOfMemory
    }
}

/// One thing that a spawner was asked for, and what it answered.
#[derive(Drop)]
pub enum Asked {
    /// A program: its process, or why it was refused.
    Spawn {
        order: SpawnOrder,
        answer: Result<Pid, Refusal>,
    },
    /// A signal to a process, or to its process group: whether it was sent.
    Kill {
        pid: Pid,
        signal: Signal,
        group: bool,
        sent: bool,
    },
}

/// What starts programs. One that can, tells what it was asked for and what it answered, in order; a call in which
/// memory was refused isn't told.
pub trait Spawner {
    ghost use Rattle.sv_outside.specs.declared.spawner.Asked.{Asked};

    type Stdin: Sink + Drop;

    type Stdout: Source + Drop;

    type Stderr: Source + Drop;

    type Waiter: Waiter + Drop;

    ghost asked: { Self → Option (List Asked) };

    ghost faults: { Self → ℕ };

    /// Starts the program of this order. Refused only where the count of faults rose in this call.
    fn spawn(
        &mut self,
        alloc: Global,
        order: &SpawnOrder,
    ) -> Result<Started<Self::Stdin, Self::Stdout, Self::Stderr, Self::Waiter>, SpawnFault>
        ensures asked { asked self.new ≡ spawn_asked order.now result (asked self.old) }
        ensures cause { RisesWhere (faults self.old) (faults self.new) (IsSpawnFailure result) };

    /// Sends this signal to a process, or to its process group. Failed only where the count of faults rose in this call.
    fn kill(
        &mut self,
        alloc: Global,
        pid: Pid,
        signal: Signal,
        group: bool,
    ) -> Result<(), KillFault>
        ensures asked { asked self.new ≡ kill_asked pid signal group result (asked self.old) }
        ensures cause { RisesWhere (faults self.old) (faults self.new) (IsKillFailure result) };
}
