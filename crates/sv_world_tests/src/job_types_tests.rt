//! Jobs at concrete types, at work in threads of their own.

use crate::checks::check;
use std::alloc::Global;
use std::collections::VecDeque;
use std::process::Abort;
use std::sync::Wait;
use std::thread;
use std::thread::{JoinHandle, Threads};
use sv_base::{How, Moment, Run};
use sv_jobs::{AnyJob, NoBoard, Note, TickerJob, WatchJob};
use sv_lane::{Poster, Seats, Taker, lane};
use sv_out::sink::ListSink;
use sv_out::source::ListSource;
use sv_outside::{FixedClock, Job, JobWord, PumpEnd, ScriptListen, ScriptWaiter};

type TestJob = AnyJob<
    ListSink,
    ListSource,
    ListSource,
    ScriptWaiter,
    ScriptListen,
    ListSource,
    FixedClock,
    NoBoard,
>;

/// A further seat of the notes.
fn seat_of(rt: &impl Abort, seats: &mut Seats<Note>) -> Poster<Note> {
    seats.seat().expect(rt, "ample memory")
}

/// A job that waits for the end of a run.
fn watch_job(alloc: Global, poster: Poster<Note>) -> TestJob {
    AnyJob::Watch(WatchJob {
        run: Run(3),
        waiter: ScriptWaiter::new(How::Code(5), Vec::new(alloc)),
        poster,
    })
}

/// A clock with room for two pauses.
fn clock_of(rt: &impl Abort, alloc: Global) -> FixedClock {
    FixedClock::new(alloc, Moment::zero(), VecDeque::new(alloc), 2).expect(rt, "ample memory")
}

/// A job that ticks twice by this clock.
fn ticker_job(clock: FixedClock, poster: Poster<Note>) -> TestJob {
    AnyJob::Ticker(TickerJob {
        clock,
        turns: 2,
        poster,
    })
}

/// Whether a note is a tick; else it is the end of the watched run.
fn is_tick(rt: &impl Abort, note: &Note) -> bool {
    match note {
        Note::Tick => true,
        Note::Exit(run, how) => {
            check(rt, *run == Run(3) && *how == How::Code(5));
            false
        }
        _ => panic!(rt; "another note"),
    }
}

/// Takes three notes, each a tick or the end of the watched run: how many are ticks.
fn ticks_taken<R: Abort + Wait>(rt: &R, taker: &mut Taker<Note>) -> u64 {
    let mut ticks = 0u64;
    for _ in 0..3 {
        ticks = ticks.saturating_add(u64::from(is_tick(rt, &taker.take(rt))));
    }
    ticks
}

/// A job about this word, at work in a thread of its own.
fn at_work<R: Abort + Threads + Wait + Copy + Send + 'static, J: Job + Send + 'static>(
    rt: R,
    job: J,
    word: JobWord,
) -> JoinHandle<PumpEnd> {
    let mut job = job;
    check(&rt, job.word() == word);
    thread::spawn(&rt, move || job.work(&rt)).expect(&rt, "memory")
}

/// The watching job at work, whose notes come in this lane.
fn watch_at_work<R: Abort + Threads + Wait + Copy + Send + 'static>(
    rt: R,
    alloc: Global,
    seats: &mut Seats<Note>,
) -> JoinHandle<PumpEnd> {
    let job = watch_job(alloc, seat_of(&rt, seats));
    at_work(rt, job, JobWord::Watch(Run(3)))
}

/// The ticker at work, whose notes come in this lane.
fn ticker_at_work<R: Abort + Threads + Wait + Copy + Send + 'static>(
    rt: R,
    alloc: Global,
    seats: &mut Seats<Note>,
) -> JoinHandle<PumpEnd> {
    let job = ticker_job(clock_of(&rt, alloc), seat_of(&rt, seats));
    at_work(rt, job, JobWord::Ticker)
}

/// A job ends.
fn ends<R: Abort + Threads + Wait>(rt: &R, job: JoinHandle<PumpEnd>) {
    check(rt, job.join(rt) == PumpEnd::Ended);
}

#[test]
fn jobs_work_in_threads_of_their_own(rt: HostRuntime) {
    let (mut taker, mut seats) = lane(rt.alloc(), 8).expect(&rt, "memory");
    let first = watch_at_work(rt, rt.alloc(), &mut seats);
    let second = ticker_at_work(rt, rt.alloc(), &mut seats);
    ends(&rt, first);
    ends(&rt, second);
    check(&rt, ticks_taken(&rt, &mut taker) == 2);
}
