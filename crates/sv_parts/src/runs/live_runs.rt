//! The runs whose processes live, and the spawner that starts them.
ghost use Rattle.std.specs.Prelude.{◌≡◌, []};
ghost use Rattle.sv_out.specs.Faults.{RisesWhere};
ghost use Rattle.sv_parts.specs.Runs.Lives.{place_of};

use crate::runs::life::Life;
use std::alloc::{AllocError, Global};
use std::sync::Wait;
use sv_base::{Bytes, Run, Signal};
use sv_outside::{Handed, KillFault, Spawner};

/// The runs whose processes live, and the spawner that starts them.
#[derive(Drop)]
pub struct LiveRuns<P: Drop> {
    /// What starts programs.
    pub spawner: P,
    /// The runs, each once.
    pub lives: Vec<Life>,
}

impl<P: Drop> LiveRuns<P> {
    ghost use Rattle.sv_parts.specs.Runs.Writing.{Writes};

    /// No run yet.
    pub fn new(alloc: Global, spawner: P) -> LiveRuns<P>
        ensures spawner { result.spawner ≡ spawner }
        ensures lives { result.lives.items ≡ [] }
    {
        LiveRuns {
            spawner,
            lives: Vec::new(alloc),
        }
    }

    /// Where the life of a run stands.
    pub(crate) fn place_of(&self, run: Run) -> Option<usize>
        ensures { result ≡ place_of run.0 self.now.lives.items }
    {
        self.lives.iter().position(|life| life.run.0 == run.0)
    }

    /// Posts bytes to the standard input of a run: one word to its lane. Of a run that isn't there any more nothing
    /// changes. It fails where nothing more is written to the run's input, or 64 pieces of it are unwritten.
    pub fn stdin<R: Wait>(&mut self, rt: &R, run: Run, bytes: &Bytes) -> Result<Handed, AllocError>
        ensures writes { Writes run.0 bytes.now self.old.lives.items self.new.lives.items result }
        ensures spawner { self.new.spawner ≡ self.old.spawner }
    {
        let Some(place) = self.place_of(run) else {
            return Ok(Handed::Done);
        };
        if self.lives[place].is_full() {
            return Ok(Handed::Failed);
        }
        let bytes = bytes.clone()?;
        self.lives[place].write(rt, bytes);
        Ok(Handed::Done)
    }
}

impl<P: Spawner + Drop> LiveRuns<P> {
    ghost use Rattle.sv_parts.specs.Runs.Killing.{Kills, IsUnsent};

    /// Sends a signal to the process of a run, or to its group: one call of the spawner. Of a run that isn't there any
    /// more nothing changes. It fails only where the spawner's count of faults rose.
    pub fn kill(
        &mut self,
        alloc: Global,
        run: Run,
        signal: Signal,
        group: bool,
    ) -> Result<Handed, AllocError>
        ensures kills { Kills run.0 signal group self.old.lives.items result
            (P.asked self.old.spawner) (P.asked self.new.spawner) }
        ensures cause { RisesWhere (P.faults self.old.spawner) (P.faults self.new.spawner)
            (IsUnsent result) }
        ensures lives { self.new.lives ≡ self.old.lives }
    {
        let Some(place) = self.place_of(run) else {
            return Ok(Handed::Done);
        };
        let pid = self.lives[place].pid;
        match self.spawner.kill(alloc, pid, signal, group) {
            Ok(()) => Ok(Handed::Done),
            Err(KillFault::Failed) => Ok(Handed::Failed),
            Err(KillFault::OutOfMemory) => Err(AllocError),
        }
    }
}
