//! How a program is started, and its jobs with it.
ghost use Rattle.std.specs.Prelude.{◌≡◌, ◌≤◌, [], IfOk, false};
ghost use Rattle.sv_lane.specs.Ends.{AreSameSeats, posted};
ghost use Rattle.sv_out.specs.Faults.{RisesWhere};
ghost use Rattle.sv_outside.specs.Spawning.{with_one};
ghost use Rattle.sv_outside.specs.declared.spawner.Asked.TheVariants.{Kill};
ghost use Rattle.sv_parts.specs.Runs.JobWords.{words_of_run};
ghost use Rattle.sv_parts.specs.Runs.RunWords.{words_of_jobs};
ghost use Rattle.sv_parts.specs.Runs.Spawned.{IsNoThread, IsRefused, Spawns};

use crate::runs::starting::{RunJobs, start_jobs};
use crate::runs::{Life, LiveRuns, close, stdin_lane};
use std::alloc::{AllocError, Global};
use std::sync::Wait;
use sv_base::{Pid, Run, Signal};
use sv_jobs::{AnyJob, ErrPump, Note, OutPump, StdinJob, StdinWord, WatchJob};
use sv_lane::{Poster, Seats, Taker};
use sv_out::order::SpawnOrder;
use sv_out::source::Source;
use sv_outside::{
    Clock, Gate, Job, KillFault, Listen, Ready, Refusal, SpawnFault, Spawner, Started,
};

/// What a program that was asked for came to.
#[derive(Drop)]
pub enum SpawnAnswer {
    /// It was started: its process.
    Pid(Pid),
    /// The spawner refused it.
    Refused(Refusal),
    /// It was started, but the gate didn't keep all jobs of the run; its process was sent KILL.
    NoThread,
}

/// The seats of a run's jobs, and what its standard input is taken from.
#[derive(Drop)]
struct JobEnds {
    stdin: Poster<Note>,
    out: Poster<Note>,
    err: Poster<Note>,
    watch: Poster<Note>,
    words: Taker<StdinWord>,
}

/// Makes the seats of a run's jobs and the lane of its standard input, whose other end comes first.
fn ends_of(
    alloc: Global,
    seats: &mut Seats<Note>,
) -> Result<(Poster<StdinWord>, JobEnds), AllocError>
    ensures none { IfOk result (λ ends. posted ends.0 ≡ []) }
    ensures seats { AreSameSeats seats.old seats.new }
{
    let (taker, words) = stdin_lane(alloc)?;
    let ends = JobEnds {
        stdin: seats.seat()?,
        out: seats.seat()?,
        err: seats.seat()?,
        watch: seats.seat()?,
        words: taker,
    };
    Ok((words, ends))
}

/// Starts the program of an order, and hands the gate the jobs of the run. The seats and the lane of the run are made
/// before the spawner is asked, once. Where a job comes back, the later ones aren't handed over, the run's input is
/// closed, and its process is sent KILL.
pub fn spawn<
    P: Spawner + Drop,
    L: Listen + Drop,
    Q: Source + Drop,
    C: Clock + Drop,
    B: Job,
    G: Gate<AnyJob<P::Stdin, P::Stdout, P::Stderr, P::Waiter, L, Q, C, B>> + Drop,
    R: Wait,
>(
    rt: &R,
    alloc: Global,
    runs: &mut LiveRuns<P>,
    seats: &mut Seats<Note>,
    gate: &mut Ready<AnyJob<P::Stdin, P::Stdout, P::Stderr, P::Waiter, L, Q, C, B>, G>,
    order: &SpawnOrder,
) -> Result<SpawnAnswer, AllocError>
    ensures spawns { Spawns order.now result (P.asked runs.old.spawner) (P.asked runs.new.spawner)
        gate.old.0 gate.new.0 runs.old.lives.items runs.new.lives.items }
    ensures refused { RisesWhere (P.faults runs.old.spawner) (P.faults runs.new.spawner)
        (IsRefused result) }
    ensures no_thread { RisesWhere gate.old.1 gate.new.1 (IsNoThread result) }
    ensures seats { AreSameSeats seats.old seats.new }
{
    runs.lives.reserve(1)?;
    let (words, ends) = ends_of(alloc, seats)?;
    let started = match runs.spawner.spawn(alloc, order) {
        Ok(started) => started,
        Err(SpawnFault::Refused(refusal)) => return Ok(SpawnAnswer::Refused(refusal)),
        Err(SpawnFault::OutOfMemory) => return Err(AllocError),
    };
    let pid = started.pid;
    let jobs = jobs_of(alloc, order.run, started, ends);
    if start_jobs(gate, jobs) {
        runs.lives.push_reserved(Life::new(order.run, pid, words));
        return Ok(SpawnAnswer::Pid(pid));
    }
    let _closed = close(rt, words);
    let _sent = end_process(alloc, &mut runs.spawner, pid)?;
    Ok(SpawnAnswer::NoThread)
}

/// Asks the spawner once for a KILL of a process: whether it was sent.
fn end_process<P: Spawner>(alloc: Global, spawner: &mut P, pid: Pid) -> Result<bool, AllocError>
    ensures asked { IfOk result (λ sent. P.asked spawner.new
        ≡ with_one (Kill pid Signal.Kill false sent) (P.asked spawner.old)) }
    ensures later { P.faults spawner.old ≤ P.faults spawner.new }
{
    match spawner.kill(alloc, pid, Signal::Kill, false) {
        Ok(()) => Ok(true),
        Err(KillFault::Failed) => Ok(false),
        Err(KillFault::OutOfMemory) => Err(AllocError),
    }
}

/// The jobs of a run that was started.
fn jobs_of<K: Drop, O: Drop, E: Drop, W: Drop>(
    alloc: Global,
    run: Run,
    started: Started<K, O, E, W>,
    ends: JobEnds,
) -> RunJobs<K, O, E, W>
    ensures { words_of_jobs result ≡ words_of_run run }
{
    RunJobs {
        stdin: StdinJob {
            run,
            sink: started.stdin,
            poster: ends.stdin,
            words: ends.words,
        },
        out: OutPump {
            run,
            source: started.stdout,
            poster: ends.out,
            alloc,
        },
        err: ErrPump {
            run,
            source: started.stderr,
            poster: ends.err,
            alloc,
        },
        watch: WatchJob {
            run,
            waiter: started.waiter,
            poster: ends.watch,
        },
    }
}
