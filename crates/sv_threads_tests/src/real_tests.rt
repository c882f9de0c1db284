//! A daemon over a real program, with real pipes, threads and the real clock.
ghost use Rattle.std.specs.Prelude.{None};

use crate::checks::check_of;
use crate::course::{Course, Parts, go_over};
use crate::daemon::{bytes_of, journal_of, orders_of, text_of};
use crate::start_gate::{StartGate, receive_and_work};
use crossbeam_channel::Receiver;
use std::alloc::Global;
use std::net::Net;
use std::process::{Abort, Processes};
use std::rt::{Env, Files};
use std::sync::Wait;
use std::thread;
use std::time::Duration;
use sv_jobs::{AnyJob, NoBoard};
use sv_os::OsClock;
use sv_out::MapShelf;
use sv_out::failed::Failed;
use sv_out::sink::ListSink;
use sv_out::source::{ListSource, Source};
use sv_outside::{ScriptListen, Spawner, World};
use sv_processes::OsSpawner;

/// The configuration: one program, which copies its standard input to its output until it gets a signal.
const CAT: &str = "[supervisord]\nlogfile=NONE\n[program:cat]\ncommand=/bin/cat\nstartsecs=0\n\
stdout_logfile=NONE\nstderr_logfile=NONE\n";

/// The states of the program, in their order.
static STATES: [&str; 3] = [
    "state cat cat STARTING RUNNING",
    "state cat cat RUNNING STOPPING",
    "state cat cat STOPPING STOPPED",
];

/// A console that asks for the end in two reads, each after a second and a half, so that the first tick is long over by then.
#[derive(Drop)]
struct PausedConsole<R: Drop> {
    rt: R,
    text: ListSource,
}

impl<R: std::time::Clock + Drop> Source for PausedConsole<R> {
    ghost left = { λ s. None };

    ghost faults = { λ s. ⟦<ListSource as Source>⟧.faults s.text };

    fn read(&mut self, into: &mut [u8]) -> Result<usize, Failed> {
        thread::sleep(&self.rt, Duration::from_millis(1500));
        self.text.read(into)
    }
}

type RealJob<R> = AnyJob<
    <OsSpawner<R> as Spawner>::Stdin,
    <OsSpawner<R> as Spawner>::Stdout,
    <OsSpawner<R> as Spawner>::Stderr,
    <OsSpawner<R> as Spawner>::Waiter,
    ScriptListen,
    PausedConsole<R>,
    OsClock<R>,
    NoBoard,
>;

/// What is done: the daemon runs until the console ends it, and its program has all states.
struct Copying;

impl Course for Copying {
    fn over<W: World>(&self, rt: &impl Abort, alloc: Global, world: &mut W) {
        let journal = journal_of(rt, alloc, bytes_of(rt, alloc, CAT), world);
        has_its_states(rt, alloc, &journal);
    }
}

/// The program has all states by this journal.
fn has_its_states(rt: &impl Abort, alloc: Global, journal: &ListSink) {
    let orders = orders_of(rt, alloc, text_of(rt, journal));
    has_all_states(rt, orders.as_str());
}

/// The program has all states by these orders.
fn has_all_states(rt: &impl Abort, orders: &str) {
    for &state in &STATES {
        check_of(rt, orders.contains(state), state);
    }
}

/// The parts: the real spawner and the real clock.
fn parts<R: Abort + Net + Processes + Files + Env + Wait + std::time::Clock + Copy + Drop>(
    rt: R,
    alloc: Global,
) -> Parts<OsSpawner<R>, ScriptListen, PausedConsole<R>, OsClock<R>, MapShelf> {
    let text = Vec::from_slice(alloc, b"signal TERM\n").expect(&rt, "ample memory");
    Parts {
        spawner: OsSpawner::plain(rt, alloc).expect(&rt, "ample memory"),
        inet: None,
        console: PausedConsole {
            rt,
            text: ListSource::new(text, 9, Vec::new(alloc)),
        },
        ticker: OsClock::new(rt),
        clock: OsClock::new(rt),
        shelf: MapShelf::new(alloc, Vec::new(alloc)),
    }
}

#[test]
fn a_real_program_runs_until_the_console_ends_it(rt: HostRuntime) {
    let gate = StartGate::new(
        rt,
        rt.alloc(),
        move |from: Receiver<RealJob<HostRuntime>>| {
            thread::spawn(&rt, move || receive_and_work(&rt, &from)).is_ok()
        },
    );
    let parts = parts(rt, rt.alloc());
    go_over(rt, rt.alloc(), parts, gate, &Copying);
}
