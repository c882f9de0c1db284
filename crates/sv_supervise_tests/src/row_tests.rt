//! Journals as daemons, whose own journals are replayed: the same orders both times.

use crate::checks::{check_of, same};
use crate::rows::{ROWS, Row};
use std::alloc::Global;
use std::process::Abort;
use sv_base::{Bytes, Host, Items, Moment, Text};
use sv_journal::{read_input, write_order};
use sv_loop::replay;
use sv_out::MapShelf;
use sv_out::input::Input;
use sv_out::order::Order;
use sv_out::sink::ListSink;
use sv_out::source::ListSource;
use sv_outside::ScriptWorld;
use sv_supervise::supervise;

/// What a sink takes at most, in bytes.
const ROOM: usize = 100_000;

fn host(rt: &impl Abort, alloc: Global, start: u64) -> Host {
    Host {
        name: Text::fixed(""),
        here: Text::fixed("."),
        pid: 0,
        environment: Items::new(alloc),
        start: Moment::new(start).expect(rt, "a moment"),
    }
}

fn words(rt: &impl Abort, alloc: Global, words: &[&'static str]) -> Vec<Text> {
    let mut texts = Vec::new(alloc);
    for word in words {
        texts.push(Text::fixed(word)).expect(rt, "memory");
    }
    texts
}

fn shelf(rt: &impl Abort, alloc: Global, conf: &str) -> MapShelf {
    let mut shelf = MapShelf::new(alloc, Vec::new(alloc));
    put_file(rt, alloc, &mut shelf, conf);
    shelf
}

fn put_file(rt: &impl Abort, alloc: Global, shelf: &mut MapShelf, conf: &str) {
    let bytes = Bytes::from_slice(alloc, conf.as_bytes()).expect(rt, "memory");
    shelf
        .set(Text::fixed("/s.conf"), bytes)
        .expect(rt, "memory");
}

/// Adds the input of a line, if it isn't empty.
fn put_input(rt: &impl Abort, alloc: Global, script: &mut Vec<Input>, line: &str) {
    if !line.is_empty() {
        let input = read_input(alloc, line.as_bytes()).expect(rt, "an input's line");
        script.push(input).expect(rt, "memory");
    }
}

fn script(rt: &impl Abort, alloc: Global, lines: &str) -> Vec<Input> {
    let mut script = Vec::new(alloc);
    for line in lines.split('\n') {
        put_input(rt, alloc, &mut script, line);
    }
    script
}

fn put_order(rt: &impl Abort, alloc: Global, text: &mut String, order: &Order) {
    let line = write_order(alloc, order).expect(rt, "memory");
    text.push_str(line.as_str()).expect(rt, "memory");
    text.push('\n').expect(rt, "memory");
}

fn text_of(rt: &impl Abort, alloc: Global, orders: &[Order]) -> String {
    let mut text = String::new(alloc);
    for order in orders {
        put_order(rt, alloc, &mut text, order);
    }
    text
}

/// What a daemon is called with.
struct Parts {
    words: Vec<Text>,
    host: Host,
    shelf: MapShelf,
    world: ScriptWorld,
    journal: ListSink,
    out: ListSink,
}

impl Drop for Parts {
    fn drop(self) {
        let Self {
            words: _,
            host: _,
            shelf: _,
            world: _,
            journal: _,
            out: _,
        } = self;
    }
}

fn parts_of(rt: &impl Abort, alloc: Global, row: &Row) -> Parts {
    Parts {
        words: words(rt, alloc, &["-c", "/s.conf", "--journal"]),
        host: host(rt, alloc, row.start),
        shelf: shelf(rt, alloc, row.conf),
        world: ScriptWorld::new(alloc, script(rt, alloc, row.inputs), Vec::new(alloc)),
        journal: ListSink::new(alloc, ROOM, Vec::new(alloc)),
        out: ListSink::new(alloc, ROOM, Vec::new(alloc)),
    }
}

/// The status of a daemon over these parts.
fn status_of(alloc: Global, parts: &mut Parts) -> u8 {
    supervise(
        alloc,
        parts.words.as_slice(),
        &parts.host,
        &mut parts.shelf,
        &mut parts.world,
        &mut parts.journal,
        &mut parts.out,
    )
}

/// The orders are those of the row.
fn orders_are(rt: &impl Abort, alloc: Global, row: &Row, orders: &[Order]) {
    let handed = text_of(rt, alloc, orders);
    same(rt, handed.as_str(), row.orders);
}

/// What a replay is called with.
struct ReplayParts {
    words: Vec<Text>,
    source: ListSource,
    lines: ListSink,
}

impl Drop for ReplayParts {
    fn drop(self) {
        let Self {
            words: _,
            source: _,
            lines: _,
        } = self;
    }
}

fn source(rt: &impl Abort, alloc: Global, journal: &[u8]) -> ListSource {
    let bytes = Vec::from_slice(alloc, journal).expect(rt, "memory");
    ListSource::new(bytes, 4_096, Vec::new(alloc))
}

fn replay_of(rt: &impl Abort, alloc: Global, journal: &[u8]) -> ReplayParts {
    ReplayParts {
        words: words(rt, alloc, &["run"]),
        source: source(rt, alloc, journal),
        lines: ListSink::new(alloc, ROOM, Vec::new(alloc)),
    }
}

/// The status of a replay of these parts.
fn replayed(alloc: Global, parts: &mut ReplayParts) -> u8 {
    replay(
        alloc,
        parts.words.as_slice(),
        &mut parts.source,
        &mut parts.lines,
    )
}

/// A replay of a journal writes the lines of the row's orders.
fn is_replayed(rt: &impl Abort, alloc: Global, row: &Row, journal: &[u8]) {
    let mut parts = replay_of(rt, alloc, journal);
    check_of(rt, replayed(alloc, &mut parts) == 0, row.name);
    check_of(rt, parts.lines.written() == row.orders.as_bytes(), row.name);
}

/// A daemon ends where its orders say, and hands over its orders; a replay of its journal writes their lines.
fn run(rt: &impl Abort, alloc: Global, row: &Row) {
    let mut parts = parts_of(rt, alloc, row);
    let status = status_of(alloc, &mut parts);
    let ends = row.orders.ends_with("halt\n");
    check_of(rt, status == if ends { 0 } else { 5 }, row.name);
    orders_are(rt, alloc, row, parts.world.handed());
    is_replayed(rt, alloc, row, parts.journal.written());
}

#[test]
fn daemons_do_what_their_journals_say(rt: HostRuntime) {
    for row in &ROWS {
        run(&rt, rt.alloc(), row);
    }
}
