//! A daemon over a world, and what its journal says.

use crate::checks::check;
use std::alloc::Global;
use std::process::Abort;
use sv_base::{Bytes, Host, Items, Moment, Text};
use sv_out::MapShelf;
use sv_out::sink::ListSink;
use sv_outside::World;
use sv_supervise::supervise;

/// What a sink takes at most, in bytes.
pub(crate) const ROOM: usize = 10_000_000;

fn host(alloc: Global) -> Host {
    Host {
        name: Text::fixed(""),
        here: Text::fixed("."),
        pid: 0,
        environment: Items::new(alloc),
        start: Moment::new(7).unwrap_or(Moment::zero()),
    }
}

pub(crate) fn words(rt: &impl Abort, alloc: Global, words: &[&'static str]) -> Vec<Text> {
    let mut texts = Vec::new(alloc);
    for word in words {
        texts.push(Text::fixed(word)).expect(rt, "ample memory");
    }
    texts
}

/// Adds the line of an order in a journal.
fn add_order(rt: &impl Abort, text: &mut String, line: &str) {
    if let Some(order) = line.strip_prefix("> ") {
        text.push_str(order).expect(rt, "ample memory");
        text.push('\n').expect(rt, "ample memory");
    }
}

/// The lines of the orders in a journal.
pub(crate) fn orders_of(rt: &impl Abort, alloc: Global, journal: &str) -> String {
    let mut text = String::new(alloc);
    for line in journal.split('\n') {
        add_order(rt, &mut text, line);
    }
    text
}

/// A shelf with this configuration.
fn shelf_of(rt: &impl Abort, alloc: Global, configuration: Bytes) -> MapShelf {
    let mut shelf = MapShelf::new(alloc, Vec::new(alloc));
    shelf
        .set(Text::fixed("/s.conf"), configuration)
        .expect(rt, "ample memory");
    shelf
}

/// The status of a daemon of these words and this shelf over a world.
fn status_of<W: World>(
    alloc: Global,
    words: &[Text],
    shelf: &mut MapShelf,
    world: &mut W,
    journal: &mut ListSink,
) -> u8 {
    let mut out = ListSink::new(alloc, ROOM, Vec::new(alloc));
    supervise(alloc, words, &host(alloc), shelf, world, journal, &mut out)
}

/// Runs a daemon of this shelf over a world, until it has shut down.
fn run<W: World>(
    rt: &impl Abort,
    alloc: Global,
    shelf: &mut MapShelf,
    world: &mut W,
    journal: &mut ListSink,
) {
    let words = words(rt, alloc, &["-c", "/s.conf", "--journal"]);
    let status = status_of(alloc, words.as_slice(), shelf, world, journal);
    check(rt, status == 0);
}

/// Runs a daemon of this configuration over a world, until it has shut down: its journal.
pub(crate) fn journal_of<W: World>(
    rt: &impl Abort,
    alloc: Global,
    configuration: Bytes,
    world: &mut W,
) -> ListSink {
    let mut shelf = shelf_of(rt, alloc, configuration);
    let mut journal = ListSink::new(alloc, ROOM, Vec::new(alloc));
    run(rt, alloc, &mut shelf, world, &mut journal);
    journal
}

/// The text of a journal.
pub(crate) fn text_of<'a>(rt: &impl Abort, journal: &'a ListSink) -> &'a str {
    std::str::from_utf8(journal.written()).expect(rt, "a journal's text")
}

/// The bytes of a configuration.
pub(crate) fn bytes_of(rt: &impl Abort, alloc: Global, text: &str) -> Bytes {
    Bytes::from_slice(alloc, text.as_bytes()).expect(rt, "ample memory")
}
