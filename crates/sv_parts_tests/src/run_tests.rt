//! Runs over a spawner and a gate in memory.
use crate::checks::check;
use crate::quiet::{TestGate, TestJob};
use std::alloc::Global;
use std::collections::VecDeque;
use std::process::Abort;
use std::sync::Wait;
use sv_base::{Bytes, Items, Run, Signal, Stream, Text};
use sv_jobs::{AnyJob, Note, StdinWord};
use sv_lane::{Seats, lane};
use sv_out::order::SpawnOrder;
use sv_outside::{Asked, Handed, HoldGate, Job, JobWord, Ready, Refusal, ScriptSpawner};
use sv_parts::runs::{LiveRuns, SpawnAnswer, spawn};

type TestRuns = LiveRuns<ScriptSpawner>;

fn gate_of(rt: &impl Abort, alloc: Global, room: usize) -> TestGate {
    Ready::new(HoldGate::new(alloc, room, Vec::new(alloc)).expect(rt, "ample memory"))
}

fn seats_of(rt: &impl Abort, alloc: Global) -> Seats<Note> {
    let (_taker, seats) = lane(alloc, 8).expect(rt, "ample memory");
    seats
}

/// A spawner of silent programs that fails at these calls.
fn spawner_of(rt: &impl Abort, alloc: Global, failing: &[u64]) -> ScriptSpawner {
    let failing = Vec::from_slice(alloc, failing).expect(rt, "ample memory");
    ScriptSpawner::new(alloc, VecDeque::new(alloc), VecDeque::new(alloc), failing)
}

/// Runs over a spawner of silent programs that fails at these calls.
fn runs_of(rt: &impl Abort, alloc: Global, failing: &[u64]) -> TestRuns {
    LiveRuns::new(alloc, spawner_of(rt, alloc, failing))
}

fn order(alloc: Global, run: u32) -> SpawnOrder {
    SpawnOrder {
        run: Run(run),
        group: Text::fixed("web"),
        name: Text::fixed("one"),
        directory: Text::fixed(""),
        umask: Text::fixed(""),
        user: Text::fixed(""),
        words: Items::new(alloc),
        environment: Items::new(alloc),
    }
}

/// A letter for what a spawn came to.
fn letter(answer: &SpawnAnswer) -> char {
    match answer {
        SpawnAnswer::Pid(_) => 'p',
        SpawnAnswer::Refused(Refusal::NoFile) => 'f',
        SpawnAnswer::Refused(_) => 'r',
        SpawnAnswer::NoThread => 'n',
    }
}

/// What the spawn of this order came to.
fn come_to<R: Abort + Wait>(
    rt: &R,
    alloc: Global,
    runs: &mut TestRuns,
    seats: &mut Seats<Note>,
    gate: &mut TestGate,
    order: &SpawnOrder,
) -> char {
    letter(&spawn(rt, alloc, runs, seats, gate, order).expect(rt, "ample memory"))
}

/// A spawn of run 5 comes to what this letter stands for.
fn is_spawned<R: Abort + Wait>(
    rt: &R,
    alloc: Global,
    runs: &mut TestRuns,
    gate: &mut TestGate,
    letter: char,
) {
    let mut seats = seats_of(rt, alloc);
    let came = come_to(rt, alloc, runs, &mut seats, gate, &order(alloc, 5));
    check(rt, came == letter);
}

/// What a spawner was asked for is this: a letter for each, upper case where it did it.
fn are_asked(rt: &impl Abort, asked: &[Asked], letters: &str) {
    check(rt, asked.len() == letters.len());
    for (asked, letter) in asked.iter().zip(letters.as_bytes()) {
        check(rt, asked_letter(asked) == *letter);
    }
}

fn asked_letter(asked: &Asked) -> u8 {
    match asked {
        Asked::Spawn { answer: Ok(_), .. } => b'S',
        Asked::Spawn { answer: Err(_), .. } => b's',
        Asked::Kill {
            signal: Signal::Kill,
            group: false,
            sent: true,
            ..
        } => b'K',
        Asked::Kill { sent: true, .. } => b'T',
        Asked::Kill { .. } => b'k',
    }
}

/// These jobs are so many as letters, and each is of its letter.
fn are_words(rt: &impl Abort, jobs: &[TestJob], letters: &str) {
    check(rt, jobs.len() == letters.len());
    for (job, letter) in jobs.iter().zip(letters.as_bytes()) {
        check(rt, word_letter(job.word()) == *letter);
    }
}

/// A gate kept these jobs.
fn kept(rt: &impl Abort, gate: TestGate, letters: &str) {
    let held = gate.into_gate();
    are_words(rt, held.jobs(), letters);
}

fn word_letter(word: JobWord) -> u8 {
    match word {
        JobWord::Stdin(Run(5)) => b'i',
        JobWord::Pump(Run(5), Stream::Out) => b'o',
        JobWord::Pump(Run(5), Stream::Err) => b'e',
        JobWord::Watch(Run(5)) => b'w',
        _ => b'?',
    }
}

/// A spawn over this gate starts the run, with four jobs.
fn is_started<R: Abort + Wait>(rt: &R, alloc: Global, gate: &mut TestGate) {
    let mut runs = runs_of(rt, alloc, &[]);
    is_spawned(rt, alloc, &mut runs, gate, 'p');
    are_asked(rt, runs.spawner.asked(), "S");
    check(rt, runs.lives.len() == 1);
}

#[test]
fn a_started_run_hands_over_four_jobs(rt: HostRuntime) {
    let mut gate = gate_of(&rt, rt.alloc(), 9);
    is_started(&rt, rt.alloc(), &mut gate);
    kept(&rt, gate, "ioew");
}

/// A spawn over this gate, and a spawner that fails at these calls, costs the run, and asks for this.
fn is_lost<R: Abort + Wait>(
    rt: &R,
    alloc: Global,
    gate: &mut TestGate,
    failing: &[u64],
    asked: &str,
) {
    let mut runs = runs_of(rt, alloc, failing);
    is_spawned(rt, alloc, &mut runs, gate, 'n');
    are_asked(rt, runs.spawner.asked(), asked);
    check(rt, runs.lives.is_empty());
}

/// A spawn over a gate with this room, and a spawner that fails at these calls, costs the run, asks for this, and leaves these jobs.
fn costs<R: Abort + Wait>(
    rt: &R,
    alloc: Global,
    room: usize,
    failing: &[u64],
    asked: &str,
    words: &str,
) {
    let mut gate = gate_of(rt, alloc, room);
    is_lost(rt, alloc, &mut gate, failing, asked);
    kept(rt, gate, words);
}

#[test]
fn a_job_that_comes_back_costs_the_run(rt: HostRuntime) {
    for (room, words) in &[(0, ""), (1, "i"), (2, "io"), (3, "ioe")] {
        costs(&rt, rt.alloc(), *room, &[], "SK", words);
    }
}

#[test]
fn a_kill_that_fails_costs_the_run_too(rt: HostRuntime) {
    costs(&rt, rt.alloc(), 1, &[2], "Sk", "i");
}

/// This job writes a standard input, which is closed.
fn is_closed<R: Abort + Wait>(rt: &R, job: &mut TestJob) {
    match job {
        AnyJob::Stdin(job) => check(rt, matches!(&job.words.take(rt), StdinWord::Close)),
        _ => assert!(rt; false),
    }
}

/// A spawn over this gate costs the run.
fn costs_run<R: Abort + Wait>(rt: &R, alloc: Global, gate: &mut TestGate) {
    let mut runs = runs_of(rt, alloc, &[]);
    is_spawned(rt, alloc, &mut runs, gate, 'n');
}

#[test]
fn where_a_job_comes_back_the_input_is_closed(rt: HostRuntime) {
    let mut gate = gate_of(&rt, rt.alloc(), 1);
    costs_run(&rt, rt.alloc(), &mut gate);
    let mut jobs = gate.into_gate().into_jobs();
    is_closed(&rt, jobs.last_mut().expect(&rt, "a job"));
}

/// The first of two spawns over this gate is refused.
fn is_refused_first<R: Abort + Wait>(rt: &R, alloc: Global, gate: &mut TestGate) {
    let mut runs = runs_of(rt, alloc, &[1]);
    is_spawned(rt, alloc, &mut runs, gate, 'f');
    is_spawned(rt, alloc, &mut runs, gate, 'p');
    are_asked(rt, runs.spawner.asked(), "sS");
}

#[test]
fn a_refused_program_starts_no_job(rt: HostRuntime) {
    let mut gate = gate_of(&rt, rt.alloc(), 9);
    is_refused_first(&rt, rt.alloc(), &mut gate);
    kept(&rt, gate, "ioew");
}

/// Starts a run with the number 5.
fn start_run<R: Abort + Wait>(rt: &R, alloc: Global, runs: &mut TestRuns) {
    let mut gate = gate_of(rt, alloc, 9);
    is_spawned(rt, alloc, runs, &mut gate, 'p');
    let _held = gate.into_gate();
}

/// Runs of which one lives, with the number 5; the spawner fails at these calls.
fn one_run<R: Abort + Wait>(rt: &R, alloc: Global, failing: &[u64]) -> TestRuns {
    let mut runs = runs_of(rt, alloc, failing);
    start_run(rt, alloc, &mut runs);
    runs
}

fn write<R: Abort + Wait>(rt: &R, alloc: Global, runs: &mut TestRuns, run: u32) -> Handed {
    let bytes = Bytes::from_slice(alloc, b"x").expect(rt, "ample memory");
    runs.stdin(rt, Run(run), &bytes).expect(rt, "ample memory")
}

/// The 65th piece that isn't written yet fails.
fn fails_at_65<R: Abort + Wait>(rt: &R, alloc: Global, runs: &mut TestRuns) {
    for _ in 0..64 {
        check(rt, write(rt, alloc, runs, 5) == Handed::Done);
    }
    check(rt, write(rt, alloc, runs, 5) == Handed::Failed);
    runs.wrote(Run(4));
    check(rt, write(rt, alloc, runs, 5) == Handed::Failed);
    runs.wrote(Run(5));
    check(rt, write(rt, alloc, runs, 5) == Handed::Done);
    check(rt, write(rt, alloc, runs, 5) == Handed::Failed);
}

#[test]
fn the_65th_unwritten_piece_fails(rt: HostRuntime) {
    let mut runs = one_run(&rt, rt.alloc(), &[]);
    fails_at_65(&rt, rt.alloc(), &mut runs);
}

/// After a run's end what is written to it goes nowhere.
fn ends<R: Abort + Wait>(rt: &R, alloc: Global, runs: &mut TestRuns) {
    check(rt, write(rt, alloc, runs, 5) == Handed::Done);
    check(rt, runs.exited(rt, Run(4)).is_none());
    check(rt, runs.lives.len() == 1);
    check(rt, runs.exited(rt, Run(5)).is_some());
    check(rt, runs.lives.is_empty());
    check(rt, write(rt, alloc, runs, 5) == Handed::Done);
}

#[test]
fn a_run_that_ended_is_written_no_more(rt: HostRuntime) {
    let mut runs = one_run(&rt, rt.alloc(), &[]);
    ends(&rt, rt.alloc(), &mut runs);
}

/// After the end of a run's input a piece for it fails.
fn input_ends<R: Abort + Wait>(rt: &R, alloc: Global, runs: &mut TestRuns) {
    runs.stdin_ended(Run(4));
    check(rt, write(rt, alloc, runs, 5) == Handed::Done);
    runs.stdin_ended(Run(5));
    check(rt, write(rt, alloc, runs, 5) == Handed::Failed);
    check(rt, write(rt, alloc, runs, 4) == Handed::Done);
}

#[test]
fn a_piece_after_the_end_of_the_input_fails(rt: HostRuntime) {
    let mut runs = one_run(&rt, rt.alloc(), &[]);
    input_ends(&rt, rt.alloc(), &mut runs);
}

/// Signals go to a run until it has ended.
fn is_signalled<R: Abort + Wait>(rt: &R, alloc: Global, runs: &mut TestRuns) {
    check(rt, killed(rt, alloc, runs, 4) == Handed::Done);
    check(rt, killed(rt, alloc, runs, 5) == Handed::Done);
    check(rt, killed(rt, alloc, runs, 5) == Handed::Failed);
    check(rt, runs.exited(rt, Run(4)).is_none());
    check(rt, runs.exited(rt, Run(5)).is_some());
    check(rt, killed(rt, alloc, runs, 5) == Handed::Done);
    are_asked(rt, runs.spawner.asked(), "STk");
}

#[test]
fn a_signal_goes_to_a_run_that_lives(rt: HostRuntime) {
    let mut runs = one_run(&rt, rt.alloc(), &[3]);
    is_signalled(&rt, rt.alloc(), &mut runs);
}

fn killed(rt: &impl Abort, alloc: Global, runs: &mut TestRuns, run: u32) -> Handed {
    runs.kill(alloc, Run(run), Signal::Term, true)
        .expect(rt, "ample memory")
}
