//! Daemons over worlds, shelves, journals and outputs in memory.

use crate::checks::{check, same};
use crate::courses::{COURSES, Course};
use std::alloc::Global;
use std::process::Abort;
use sv_base::{Bytes, DaemonSignal, Host, Items, Moment, Signal, Text};
use sv_out::MapShelf;
use sv_out::input::Input;
use sv_out::sink::ListSink;
use sv_outside::ScriptWorld;
use sv_supervise::supervise;

/// The header of the journal over `/s.conf`.
const HEADER: &str = "supervisor-journal 1\nhost h\nhere /\npid 1\n\
conf [supervisord]%0Alogfile=NONE%0A\ngo 0\n";

/// The header of the journal over `/parts.conf`, whose two patterns list one file, and whose log files are `/l` of three bytes
/// and `/o`, which is missing.
const PARTS: &str = "supervisor-journal 1\nhost h\nhere /\npid 1\nsize /l 3\n\
conf [include]%0Afiles=/d/*.ini%20/d/a*%0A[supervisord]%0Alogfile=/l%0A\n\
include /d/a.ini [program:a]%0Acommand=/bin/a%0Astdout_logfile=/o%0Astderr_logfile=NONE%0A\n\
go 0\n";

/// The files of the shelf.
static FILES: [(&str, &str); 6] = [
    ("/s.conf", "[supervisord]\nlogfile=NONE\n"),
    ("/bad.conf", "loose\n"),
    (
        "/alone.conf",
        "[include]\nfiles=/none/*\n[supervisord]\nlogfile=NONE\n",
    ),
    (
        "/parts.conf",
        "[include]\nfiles=/d/*.ini /d/a*\n[supervisord]\nlogfile=/l\n",
    ),
    (
        "/d/a.ini",
        "[program:a]\ncommand=/bin/a\nstdout_logfile=/o\nstderr_logfile=NONE\n",
    ),
    ("/l", "abc"),
];

fn host(alloc: Global) -> Host {
    Host {
        name: Text::fixed("h"),
        here: Text::fixed("/"),
        pid: 1,
        environment: Items::new(alloc),
        start: Moment::zero(),
    }
}

fn one_call(rt: &impl Abort, alloc: Global, call: u64) -> Vec<u64> {
    let mut calls = Vec::new(alloc);
    calls.push(call).expect(rt, "memory");
    calls
}

fn add_file(rt: &impl Abort, alloc: Global, shelf: &mut MapShelf, name: &str, text: &str) {
    let bytes = Bytes::from_slice(alloc, text.as_bytes()).expect(rt, "memory");
    let name = Text::from_str(alloc, name).expect(rt, "memory");
    shelf.set(name, bytes).expect(rt, "memory");
}

fn shelf_of(rt: &impl Abort, alloc: Global, failing: u64) -> MapShelf {
    let mut shelf = MapShelf::new(alloc, one_call(rt, alloc, failing));
    for &(name, text) in &FILES {
        add_file(rt, alloc, &mut shelf, name, text);
    }
    shelf
}

fn words_of(rt: &impl Abort, alloc: Global, text: &str) -> Vec<Text> {
    let mut words = Vec::new(alloc);
    for word in text.split(' ') {
        put_word(rt, alloc, &mut words, word);
    }
    words
}

/// Adds a word, if it isn't empty.
fn put_word(rt: &impl Abort, alloc: Global, words: &mut Vec<Text>, word: &str) {
    if !word.is_empty() {
        let word = Text::from_str(alloc, word).expect(rt, "memory");
        words.push(word).expect(rt, "memory");
    }
}

fn input_of(rt: &impl Abort, letter: u8) -> Input {
    let at = Moment::zero();
    match letter {
        b't' => Input::Tick { at },
        b's' => Input::Signal {
            at,
            signal: DaemonSignal::new(Signal::Term).expect(rt, "a signal that the daemon takes"),
        },
        _ => Input::Failed(7),
    }
}

fn script_of(rt: &impl Abort, alloc: Global, text: &str) -> Vec<Input> {
    let mut script = Vec::new(alloc);
    for letter in text.as_bytes() {
        put_input(rt, &mut script, *letter);
    }
    script
}

fn put_input(rt: &impl Abort, script: &mut Vec<Input>, letter: u8) {
    let input = input_of(rt, letter);
    script.push(input).expect(rt, "memory");
}

/// The text with line feeds for `~` and the header for `^`.
fn written_out(rt: &impl Abort, alloc: Global, text: &str) -> String {
    let mut out = String::new(alloc);
    for part in text.chars() {
        put_part(rt, &mut out, part);
    }
    out
}

/// Adds what a character stands for.
fn put_part(rt: &impl Abort, out: &mut String, part: char) {
    match part {
        '~' => out.push('\n').expect(rt, "memory"),
        '^' => out.push_str(HEADER).expect(rt, "memory"),
        part => out.push(part).expect(rt, "memory"),
    }
}

/// What a daemon is called with, and its status once it has ended.
struct Daemon {
    words: Vec<Text>,
    host: Host,
    shelf: MapShelf,
    world: ScriptWorld,
    journal: ListSink,
    out: ListSink,
    status: u8,
}

impl Drop for Daemon {
    fn drop(self) {
        let Self {
            words: _,
            host: _,
            shelf: _,
            world: _,
            journal: _,
            out: _,
            status: _,
        } = self;
    }
}

fn world_of(rt: &impl Abort, alloc: Global, script: &str, failing: u64) -> ScriptWorld {
    let script = script_of(rt, alloc, script);
    ScriptWorld::new(alloc, script, one_call(rt, alloc, failing))
}

fn daemon_of(
    rt: &impl Abort,
    alloc: Global,
    words: &str,
    script: &str,
    failing: [u64; 4],
) -> Daemon {
    let [shelf, next, journal, out] = failing;
    Daemon {
        words: words_of(rt, alloc, words),
        host: host(alloc),
        shelf: shelf_of(rt, alloc, shelf),
        world: world_of(rt, alloc, script, next),
        journal: ListSink::new(alloc, 1_000, one_call(rt, alloc, journal)),
        out: ListSink::new(alloc, 1_000, one_call(rt, alloc, out)),
        status: 0,
    }
}

fn run(alloc: Global, daemon: &mut Daemon) {
    daemon.status = supervise(
        alloc,
        daemon.words.as_slice(),
        &daemon.host,
        &mut daemon.shelf,
        &mut daemon.world,
        &mut daemon.journal,
        &mut daemon.out,
    );
}

/// The bytes are those of this text.
fn is_text(rt: &impl Abort, alloc: Global, bytes: &[u8], expected: &str) {
    let text = String::from_utf8_lossy(alloc, bytes).expect(rt, "ample memory");
    same(rt, text.as_str(), expected);
}

/// The bytes are those of this text as it is written out.
fn is_written(rt: &impl Abort, alloc: Global, bytes: &[u8], expected: &str) {
    let expected = written_out(rt, alloc, expected);
    is_text(rt, alloc, bytes, expected.as_str());
}

/// The daemon has come to what its course says.
fn is_course(rt: &impl Abort, alloc: Global, daemon: &Daemon, course: &Course) {
    let (_, _, _, status, orders, out, journal) = *course;
    is_written(rt, alloc, daemon.out.written(), out);
    check(rt, daemon.status == status);
    is_written(rt, alloc, daemon.journal.written(), journal);
    check(rt, daemon.world.handed().len() == orders);
}

fn course_is(rt: &impl Abort, alloc: Global, course: &Course) {
    let mut daemon = daemon_of(rt, alloc, course.1, course.2, course.0);
    run(alloc, &mut daemon);
    is_course(rt, alloc, &daemon, course);
}

#[test]
fn a_daemon_comes_to_what_its_world_shelf_and_sinks_give(rt: HostRuntime) {
    for course in &COURSES {
        course_is(&rt, rt.alloc(), course);
    }
}

#[test]
fn the_header_tells_of_includes_and_sizes(rt: HostRuntime) {
    let words = "-c /parts.conf --journal";
    let mut daemon = daemon_of(&rt, rt.alloc(), words, "", [0, 0, 0, 0]);
    run(rt.alloc(), &mut daemon);
    is_text(&rt, rt.alloc(), daemon.journal.written(), PARTS);
}
