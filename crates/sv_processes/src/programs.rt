//! What starts programs and sends them signals.
ghost use Rattle.std.specs.Prelude.{◌≡◌, IfOk, None};

use crate::left::Left;
use crate::links::Ground;
use crate::living::Living;
use crate::lookup::DEFAULT_PATH;
use crate::pipes::PipeSource;
use crate::rules::ProgramRules;
use crate::signaller::Signaller;
use crate::starting::{Program, Starter};
use crate::waiter::OsWaiter;
use std::alloc::{AllocError, Global};
use std::env;
use std::net::Net;
use std::process::{ChildStdin, Processes};
use std::rt::{Env, Files};
use std::sync::Wait;
use std::time::Duration;
use sv_base::{Pid, Signal, Text};
use sv_os::WriteSink;
use sv_out::order::SpawnOrder;
use sv_outside::{KillFault, SpawnFault, Spawner, Started};
use sv_standard::Teller;

/// Starts programs: with pipes, in their directory, with their variables over those of this process, as their user, with their
/// mask, and each in a session and group of its own. It counts each refusal, and each signal that can't be sent, as a fault,
/// and tells nothing.
pub struct OsSpawner<R: Processes + Wait + Drop> {
    starter: Starter<R>,
    signaller: Signaller<R>,
    faults: u64,
}

impl<R: Processes + Wait + Drop> Drop for OsSpawner<R> {
    fn drop(self) {
        let Self {
            starter: _,
            signaller: _,
            faults: _,
        } = self;
    }
}

impl<R: Processes + Files + Net + Env + Wait + Copy + Drop> OsSpawner<R> {
    /// A spawner that has not failed yet, with the daemon's own settings for programs. Whoever lives is noted in `living`; what
    /// the machine lacks is told now, and each refusal later.
    pub fn new(
        rt: R,
        alloc: Global,
        rules: ProgramRules,
        living: Living,
        teller: Option<Teller<R>>,
    ) -> Result<OsSpawner<R>, AllocError>
        ensures { IfOk result (λ spawner. spawner.faults ≡ 0) }
    {
        let ground = Ground::find(&rt, alloc)?;
        if let Some(teller) = &teller {
            ground.tell_lacks(alloc, teller);
        }
        let signaller = Signaller::new(rt, alloc, ground.tools.setsid.clone()?)?;
        let starter = Starter {
            rt,
            ground,
            rules,
            path: path_of(&rt, alloc)?,
            living,
            left: Left::new(alloc)?,
            teller,
        };
        Ok(OsSpawner {
            starter,
            signaller,
            faults: 0,
        })
    }

    /// One without settings that tells nothing on standard error.
    pub fn plain(rt: R, alloc: Global) -> Result<OsSpawner<R>, AllocError>
        ensures { IfOk result (λ spawner. spawner.faults ≡ 0) }
    {
        OsSpawner::new(
            rt,
            alloc,
            ProgramRules::new(alloc),
            Living::new(alloc)?,
            None,
        )
    }
}

/// Where this process looks for programs.
fn path_of<R: Env>(rt: &R, alloc: Global) -> Result<Text, AllocError> {
    match env::var(&(rt, alloc), "PATH") {
        Ok(path) => Ok(Text::from_string(path)),
        Err(env::VarError::OutOfMemory) => Err(AllocError),
        Err(_) => Ok(Text::fixed(DEFAULT_PATH)),
    }
}

impl<R: Processes + Files + Net + Wait + Copy + Drop> Spawner for OsSpawner<R> {
    type Stdin = WriteSink<ChildStdin>;

    type Stdout = PipeSource;

    type Stderr = PipeSource;

    type Waiter = OsWaiter<R>;

    ghost asked = { λ _. None };

    ghost faults = { λ s. s.faults };

    fn spawn(
        &mut self,
        alloc: Global,
        order: &SpawnOrder,
    ) -> Result<Started<Self::Stdin, Self::Stdout, Self::Stderr, Self::Waiter>, SpawnFault> {
        self.starter.reap();
        let answer = self.starter.start(alloc, order);
        if let Err(SpawnFault::Refused(_)) = &answer {
            self.faults = self.faults.saturating_add(1);
        }
        answer
    }

    fn kill(
        &mut self,
        alloc: Global,
        pid: Pid,
        signal: Signal,
        group: bool,
    ) -> Result<(), KillFault> {
        let sent = self.signaller.send(alloc, pid, signal, group)?;
        self.starter.reap_after(signal);
        if sent {
            return Ok(());
        }
        self.faults = self.faults.saturating_add(1);
        Err(KillFault::Failed)
    }
}
