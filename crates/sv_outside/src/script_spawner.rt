//! The spawner in memory: its programs are written down beforehand.
ghost use Rattle.std.specs.Prelude.{◌≡◌, [], IfOk, Some};

use crate::calls::Calls;
use crate::spawner::{Asked, KillFault, Refusal, SpawnFault, Spawner, Started};
use crate::waiter::ScriptWaiter;
use std::alloc::{AllocError, Global};
use std::collections::VecDeque;
use sv_base::{How, Pid, Signal};
use sv_out::order::SpawnOrder;
use sv_out::sink::ListSink;
use sv_out::source::ListSource;

/// What a started program is in memory: what takes its standard input, what gives its two outputs, and how it ends.
#[derive(Drop)]
pub struct Program {
    pub stdin: ListSink,
    pub stdout: ListSource,
    pub stderr: ListSource,
    pub waiter: ScriptWaiter,
}

impl Program {
    /// A program that takes all, writes nothing and ends with the code 0.
    pub fn silent(alloc: Global) -> Program {
        Program {
            stdin: ListSink::new(alloc, 65_536, Vec::new(alloc)),
            stdout: ListSource::new(Vec::new(alloc), 1, Vec::new(alloc)),
            stderr: ListSource::new(Vec::new(alloc), 1, Vec::new(alloc)),
            waiter: ScriptWaiter::new(How::Code(0), Vec::new(alloc)),
        }
    }
}

/// A spawner in memory, which tells what it was asked for. Each program that it starts is the next of its list, and
/// past the list a silent one; the processes are numbered from 1. It fails at the calls that it was made to fail at,
/// the first call being 1 and spawns and kills being counted together; a program is then refused for the next reason of
/// its list, and past the list for want of a file.
pub struct ScriptSpawner {
    programs: VecDeque<Program>,
    refusals: VecDeque<Refusal>,
    next: Pid,
    asked: Vec<Asked>,
    calls: Calls,
}

impl Drop for ScriptSpawner {
    fn drop(self) {
        let Self {
            programs: _,
            refusals: _,
            next: _,
            asked: _,
            calls: _,
        } = self;
    }
}

impl ScriptSpawner {
    ghost use Rattle.sv_out.specs.Plans.{none_made};
    ghost use Rattle.sv_outside.specs.Plans.{spawner_plan};
    ghost use Rattle.sv_outside.specs.ScriptSpawns.{next_pid, programs_left, told_asked};

    /// A spawner of these programs and refusals, each in its order.
    pub fn new(
        alloc: Global,
        programs: VecDeque<Program>,
        refusals: VecDeque<Refusal>,
        failing: Vec<u64>,
    ) -> ScriptSpawner
        ensures plan { spawner_plan result ≡ none_made failing.items }
        ensures asked { told_asked result ≡ Some [] }
        ensures next { next_pid result ≡ 1 }
        ensures programs { programs_left result ≡ programs.items }
    {
        ScriptSpawner {
            programs,
            refusals,
            next: Pid::least(),
            asked: Vec::new(alloc),
            calls: Calls::new(failing),
        }
    }

    /// What it was asked for, in order.
    pub fn asked(&self) -> &[Asked]
        ensures { told_asked self.now ≡ Some result.now }
    {
        self.asked.as_slice()
    }

    /// How many calls failed.
    pub fn faults(&self) -> u64
        ensures { result ≡ (spawner_plan self.now).faults }
    {
        self.calls.faults()
    }
}

/// A copy of an order.
fn copy_order(order: &SpawnOrder) -> Result<SpawnOrder, AllocError>
    ensures { IfOk result (λ copy. copy ≡ order.now) }
{
    Ok(SpawnOrder {
        run: order.run,
        group: order.group.clone()?,
        name: order.name.clone()?,
        directory: order.directory.clone()?,
        umask: order.umask.clone()?,
        user: order.user.clone()?,
        words: order.words.clone()?,
        environment: order.environment.clone()?,
    })
}

impl Spawner for ScriptSpawner {
    ghost use Rattle.sv_out.specs.Faults.{RisesWhere};
    ghost use Rattle.sv_outside.specs.Plans.{spawner_plan};
    ghost use Rattle.sv_outside.specs.ScriptSpawns.{IsNext, KillsAsPlanned, SpawnsAsPlanned};
    ghost use Rattle.sv_outside.specs.ScriptSpawns.{next_pid, programs_left, spawner_faults};
    ghost use Rattle.sv_outside.specs.ScriptSpawns.{told_asked};
    ghost use Rattle.sv_outside.specs.Spawning.{IsKillFailure, IsSpawnFailure, kill_asked};
    ghost use Rattle.sv_outside.specs.Spawning.{spawn_asked};

    type Stdin = ListSink;

    type Stdout = ListSource;

    type Stderr = ListSource;

    type Waiter = ScriptWaiter;

    ghost asked = { λ s. Some s.asked.items };

    ghost faults = { λ s. s.calls.faults };

    fn spawn(
        &mut self,
        alloc: Global,
        order: &SpawnOrder,
    ) -> Result<Started<ListSink, ListSource, ListSource, ScriptWaiter>, SpawnFault>
        ensures asked { told_asked self.new ≡ spawn_asked order.now result (told_asked self.old) }
        ensures cause { RisesWhere (spawner_faults self.old) (spawner_faults self.new)
            (IsSpawnFailure result) }

        // It fails exactly at its calls; else it starts the next program, under the next number.
        ensures planned { SpawnsAsPlanned (spawner_plan self.old) (spawner_plan self.new) result }
        ensures next { IfOk result (λ started. started.pid ≡ next_pid self.old) }
        ensures program { IfOk result (λ started. IsNext (programs_left self.old) (programs_left self.new) started) }
    {
        let order = copy_order(order)?;
        self.asked.reserve(1)?;
        if self.calls.next_fails() {
            let refusal = self.refusals.pop_front().unwrap_or(Refusal::NoFile);
            let told = refusal.clone()?;
            self.asked.push_reserved(Asked::Spawn {
                order,
                answer: Err(told),
            });
            return Err(SpawnFault::Refused(refusal));
        }
        let program = match self.programs.pop_front() {
            Some(program) => program,
            None => Program::silent(alloc),
        };
        let pid = self.next;
        self.next = pid.one_more();
        self.asked.push_reserved(Asked::Spawn {
            order,
            answer: Ok(pid),
        });
        let Program {
            stdin,
            stdout,
            stderr,
            waiter,
        } = program;
        Ok(Started {
            pid,
            stdin,
            stdout,
            stderr,
            waiter,
        })
    }

    fn kill(
        &mut self,
        _alloc: Global,
        pid: Pid,
        signal: Signal,
        group: bool,
    ) -> Result<(), KillFault>
        ensures asked { told_asked self.new ≡ kill_asked pid signal group result (told_asked self.old) }
        ensures cause { RisesWhere (spawner_faults self.old) (spawner_faults self.new)
            (IsKillFailure result) }
        ensures planned { KillsAsPlanned (spawner_plan self.old) (spawner_plan self.new) result }
    {
        self.asked.reserve(1)?;
        let sent = !self.calls.next_fails();
        self.asked.push_reserved(Asked::Kill {
            pid,
            signal,
            group,
            sent,
        });
        if sent { Ok(()) } else { Err(KillFault::Failed) }
    }
}
