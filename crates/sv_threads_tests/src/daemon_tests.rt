//! A daemon over a world of threads, whose journal is replayed: the same orders both times.

use crate::checks::{check, check_of};
use crate::course::{Course, Parts, go_over};
use crate::daemon::{ROOM, bytes_of, journal_of, orders_of, text_of, words};
use crate::parts::StillClock;
use crate::programs::{ALL_RUNS, LateConsole, RUNS, SignalWaiter, TenSpawner, ten_of_each};
use crate::start_gate::{StartGate, receive_and_work};
use crossbeam_channel::Receiver;
use std::alloc::Global;
use std::process::Abort;
use std::sync::Wait;
use std::thread;
use sv_base::Bytes;
use sv_jobs::{AnyJob, NoBoard};
use sv_loop::replay;
use sv_out::MapShelf;
use sv_out::sink::ListSink;
use sv_out::source::ListSource;
use sv_outside::{ScriptListen, World};

/// The programs.
static NAMES: [&str; 20] = [
    "p00", "p01", "p02", "p03", "p04", "p05", "p06", "p07", "p08", "p09", "p10", "p11", "p12",
    "p13", "p14", "p15", "p16", "p17", "p18", "p19",
];

type DaemonJob<R> = AnyJob<
    ListSink,
    ListSource,
    ListSource,
    SignalWaiter<R>,
    ScriptListen,
    LateConsole<R>,
    StillClock<R>,
    NoBoard,
>;

/// Adds a program to a configuration, which is started again at each exit.
fn add_program(rt: &impl Abort, text: &mut String, name: &str) {
    push(rt, text, "[program:");
    push(rt, text, name);
    push(
        rt,
        text,
        "]\ncommand=/bin/x\nstartsecs=0\nautorestart=true\nstdout_logfile=/log/",
    );
    push(rt, text, name);
    push(rt, text, "\nstderr_logfile=NONE\n");
}

/// The configuration: twenty programs that are started again at each exit, whose output goes to one log.
fn configuration(rt: &impl Abort, alloc: Global) -> String {
    let mut text = String::new(alloc);
    push(rt, &mut text, "[supervisord]\nlogfile=NONE\n");
    for &name in &NAMES {
        add_program(rt, &mut text, name);
    }
    text
}

fn push(rt: &impl Abort, text: &mut String, part: &str) {
    text.push_str(part).expect(rt, "ample memory");
}

/// The bytes of the configuration.
fn configured(rt: &impl Abort, alloc: Global) -> Bytes {
    let text = configuration(rt, alloc);
    bytes_of(rt, alloc, text.as_str())
}

/// How many programs of this name were started by these orders; all of them for the empty name.
fn starts_of(orders: &str, name: &str) -> u8 {
    let mut count = 0u8;
    for line in orders.split('\n') {
        if line.starts_with("spawn ") && line.contains(name) {
            count = count.saturating_add(1);
        }
    }
    count
}

/// What is done: the daemon runs, and its journal is replayed.
struct Supervised;

impl Course for Supervised {
    fn over<W: World>(&self, rt: &impl Abort, alloc: Global, world: &mut W) {
        let journal = journal_of(rt, alloc, configured(rt, alloc), world);
        is_replayed(rt, alloc, &journal);
    }
}

/// Each program was started ten times; a replay writes the orders that the journal has.
fn is_replayed(rt: &impl Abort, alloc: Global, journal: &ListSink) {
    let orders = orders_of(rt, alloc, text_of(rt, journal));
    are_started(rt, orders.as_str());
    are_replayed(rt, alloc, journal.written(), orders.as_str());
}

/// A replay of a journal writes these orders.
fn are_replayed(rt: &impl Abort, alloc: Global, journal: &[u8], orders: &str) {
    let lines = replay_of(rt, alloc, journal);
    check(rt, lines.written() == orders.as_bytes());
}

/// Each program was started ten times by these orders.
fn are_started(rt: &impl Abort, orders: &str) {
    check(rt, starts_of(orders, "") == ALL_RUNS);
    for &name in &NAMES {
        check_of(rt, starts_of(orders, name) == RUNS, name);
    }
}

/// A source of a journal.
fn source_of(rt: &impl Abort, alloc: Global, journal: &[u8]) -> ListSource {
    let bytes = Vec::from_slice(alloc, journal).expect(rt, "ample memory");
    ListSource::new(bytes, 4_096, Vec::new(alloc))
}

/// Replays a journal.
fn replay_into(rt: &impl Abort, alloc: Global, source: &mut ListSource, lines: &mut ListSink) {
    let words = words(rt, alloc, &["run"]);
    let status = replay(alloc, words.as_slice(), source, lines);
    check(rt, status == 0);
}

/// What a replay of a journal writes.
fn replay_of(rt: &impl Abort, alloc: Global, journal: &[u8]) -> ListSink {
    let mut lines = ListSink::new(alloc, ROOM, Vec::new(alloc));
    replay_into(rt, alloc, &mut source_of(rt, alloc, journal), &mut lines);
    lines
}

/// The parts: twenty programs and a console that wait for each other.
fn parts<R: Abort + Wait + std::time::Clock + Copy>(
    rt: R,
    alloc: Global,
) -> Parts<TenSpawner<R>, ScriptListen, LateConsole<R>, StillClock<R>, MapShelf> {
    let (spawner, console) = ten_of_each(rt, alloc);
    Parts {
        spawner,
        inet: None,
        console,
        ticker: StillClock::new(rt),
        clock: StillClock::new(rt),
        shelf: MapShelf::new(alloc, Vec::new(alloc)),
    }
}

#[test]
fn a_daemon_over_threads_is_replayed(rt: HostRuntime) {
    let gate = StartGate::new(
        rt,
        rt.alloc(),
        move |from: Receiver<DaemonJob<HostRuntime>>| {
            thread::spawn(&rt, move || receive_and_work(&rt, &from)).is_ok()
        },
    );
    let parts = parts(rt, rt.alloc());
    go_over(rt, rt.alloc(), parts, gate, &Supervised);
}
