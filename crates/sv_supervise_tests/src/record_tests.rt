//! Headers and lines, worked by hand.

use crate::checks::same;
use std::alloc::Global;
use std::process::Abort;
use sv_base::{Bytes, DaemonSignal, Host, Items, Moment, Signal, Text};
use sv_out::input::Input;
use sv_out::order::Order;
use sv_supervise::journal::{JournalLines, header_text};
use sv_supervise::main_loop::Lines;

/// The journal of a daemon whose host has no environment, and whose one input is TERM.
const SHORT: &str =
    "supervisor-journal 1\nhost h\nhere /\npid 1\nconf [supervisord]%0Alogfile=NONE%0A\ngo 0\n0 signal TERM\n> halt\n";

/// A header with two variables, two sizes of which one is 0, and two includes.
const LONG: &str =
    "supervisor-journal 1\nhost a%20b\nhere /etc\npid 7\nenv A %\nenv B %25\nsize /l 12\nconf %\ninclude /d/a x%0A\ninclude /d/b %\ngo 5\n";

/// What a header is of.
#[derive(Drop)]
struct Beginning {
    host: Host,
    sizes: Vec<(Text, u64)>,
    main: Bytes,
    included: Vec<(Text, Bytes)>,
}

fn bytes(rt: &impl Abort, alloc: Global, text: &str) -> Bytes {
    Bytes::from_slice(alloc, text.as_bytes()).expect(rt, "memory")
}

fn header(rt: &impl Abort, alloc: Global, beginning: &Beginning) -> Vec<u8> {
    header_text(
        alloc,
        &beginning.host,
        beginning.sizes.as_slice(),
        &beginning.main,
        beginning.included.as_slice(),
    )
    .expect(rt, "memory")
}

fn short_host(alloc: Global) -> Host {
    Host {
        name: Text::fixed("h"),
        here: Text::fixed("/"),
        pid: 1,
        environment: Items::new(alloc),
        start: Moment::zero(),
    }
}

fn short_beginning(rt: &impl Abort, alloc: Global) -> Beginning {
    Beginning {
        host: short_host(alloc),
        sizes: Vec::new(alloc),
        main: bytes(rt, alloc, "[supervisord]\nlogfile=NONE\n"),
        included: Vec::new(alloc),
    }
}

fn term(rt: &impl Abort) -> Input {
    Input::Signal {
        at: Moment::zero(),
        signal: DaemonSignal::new(Signal::Term).expect(rt, "a signal that the daemon takes"),
    }
}

fn put_lines(rt: &impl Abort, told: &mut String, lines: JournalLines) {
    let input = term(rt);
    lines.put_input(&input, told).expect(rt, "memory");
    lines.put_order(&Order::Halt, told).expect(rt, "memory");
}

/// The lines of TERM and of the halt, where a journal is kept and where none is.
fn lines(rt: &impl Abort, alloc: Global) -> String {
    let mut told = String::new(alloc);
    put_lines(rt, &mut told, JournalLines::Kept);
    put_lines(rt, &mut told, JournalLines::Quiet);
    told
}

fn put_bytes(rt: &impl Abort, text: &mut Vec<u8>, bytes: &[u8]) {
    text.extend_from_slice(bytes).expect(rt, "memory");
}

fn short_header(rt: &impl Abort, alloc: Global) -> Vec<u8> {
    let beginning = short_beginning(rt, alloc);
    header(rt, alloc, &beginning)
}

fn short(rt: &impl Abort, alloc: Global) -> Vec<u8> {
    let mut text = short_header(rt, alloc);
    let told = lines(rt, alloc);
    put_bytes(rt, &mut text, told.as_str().as_bytes());
    text
}

fn put_variable(
    rt: &impl Abort,
    environment: &mut Items<(Text, Text)>,
    name: &'static str,
    value: &'static str,
) {
    environment
        .push((Text::fixed(name), Text::fixed(value)))
        .expect(rt, "memory");
}

fn environment(rt: &impl Abort, alloc: Global) -> Items<(Text, Text)> {
    let mut environment = Items::new(alloc);
    put_variable(rt, &mut environment, "A", "");
    put_variable(rt, &mut environment, "B", "%");
    environment
}

fn long_host(rt: &impl Abort, alloc: Global) -> Host {
    Host {
        name: Text::fixed("a b"),
        here: Text::fixed("/etc"),
        pid: 7,
        environment: environment(rt, alloc),
        start: Moment::new(5).expect(rt, "a moment"),
    }
}

fn put_size(rt: &impl Abort, sizes: &mut Vec<(Text, u64)>, file: &'static str, size: u64) {
    sizes.push((Text::fixed(file), size)).expect(rt, "memory");
}

fn sizes(rt: &impl Abort, alloc: Global) -> Vec<(Text, u64)> {
    let mut sizes = Vec::new(alloc);
    put_size(rt, &mut sizes, "/k", 0);
    put_size(rt, &mut sizes, "/l", 12);
    sizes
}

fn put_included(
    rt: &impl Abort,
    alloc: Global,
    included: &mut Vec<(Text, Bytes)>,
    file: &'static str,
    text: &str,
) {
    let bytes = bytes(rt, alloc, text);
    included
        .push((Text::fixed(file), bytes))
        .expect(rt, "memory");
}

fn included(rt: &impl Abort, alloc: Global) -> Vec<(Text, Bytes)> {
    let mut included = Vec::new(alloc);
    put_included(rt, alloc, &mut included, "/d/a", "x\n");
    put_included(rt, alloc, &mut included, "/d/b", "");
    included
}

fn long_beginning(rt: &impl Abort, alloc: Global) -> Beginning {
    Beginning {
        host: long_host(rt, alloc),
        sizes: sizes(rt, alloc),
        main: bytes(rt, alloc, ""),
        included: included(rt, alloc),
    }
}

fn long(rt: &impl Abort, alloc: Global) -> Vec<u8> {
    let beginning = long_beginning(rt, alloc);
    header(rt, alloc, &beginning)
}

/// The bytes are those of this text.
fn is_text(rt: &impl Abort, alloc: Global, bytes: &[u8], expected: &str) {
    let text = String::from_utf8_lossy(alloc, bytes).expect(rt, "memory");
    same(rt, text.as_str(), expected);
}

#[test]
fn the_journal_of_a_short_run_is_its_header_and_its_lines(rt: HostRuntime) {
    let bytes = short(&rt, rt.alloc());
    is_text(&rt, rt.alloc(), bytes.as_slice(), SHORT);
}

#[test]
fn a_header_tells_of_the_host_the_sizes_and_the_texts(rt: HostRuntime) {
    let bytes = long(&rt, rt.alloc());
    is_text(&rt, rt.alloc(), bytes.as_slice(), LONG);
}
