//! The call of the program, over what it meets outside in memory: which words follow a log.

use crate::checks::{same_bytes, same_number};
use crate::logs::{bytes_of, dial_of};
use crate::sessions::WORDS;
use crate::tests::clock;
use std::alloc::Global;
use std::process::Abort;
use sv_base::{Host, Items, Moment, Text};
use sv_follow::command;
use sv_out::sink::ListSink;
use sv_out::source::ListSource;
use sv_out::{MapShelf, ScriptDial};
use sv_outside::FixedClock;

/// What the program meets outside.
struct Outside {
    shelf: MapShelf,
    dial: ScriptDial,
    input: ListSource,
    clock: FixedClock,
    out: ListSink,
}

impl Drop for Outside {
    fn drop(self) {
        let Self {
            shelf: _,
            dial: _,
            input: _,
            clock: _,
            out: _,
        } = self;
    }
}

/// No file, a server that answers one call with the fault 20, and an input of one line that would follow a log.
fn nothing_said(rt: &impl Abort, alloc: Global) -> Outside {
    let line = Vec::from_slice(alloc, b"tail -f x\n").expect(rt, "ample memory");
    Outside {
        shelf: MapShelf::new(alloc, Vec::new(alloc)),
        dial: dial_of(rt, alloc, "!20", 100_000, 0, 0),
        input: ListSource::new(line, 100_000, Vec::new(alloc)),
        clock: clock(rt, alloc),
        out: ListSink::new(alloc, 100_000, Vec::new(alloc)),
    }
}

fn put_word(rt: &impl Abort, alloc: Global, words: &mut Vec<Text>, word: &str) {
    let word = Text::from_str(alloc, word).expect(rt, "ample memory");
    words.push(word).expect(rt, "ample memory");
}

fn words_of(rt: &impl Abort, alloc: Global, text: &str) -> Vec<Text> {
    let mut words = Vec::new(alloc);
    for word in text.split(' ') {
        put_word(rt, alloc, &mut words, word);
    }
    words
}

fn host(alloc: Global) -> Host {
    Host {
        name: Text::fixed("box"),
        here: Text::fixed("/"),
        pid: 1,
        environment: Items::new(alloc),
        start: Moment::zero(),
    }
}

/// The status of the program with these words.
fn called(rt: &impl Abort, alloc: Global, words: &str, outside: &mut Outside) -> u8 {
    let words = words_of(rt, alloc, words);
    let host = host(alloc);
    command(
        alloc,
        words.as_slice(),
        &host,
        &mut outside.shelf,
        &mut outside.dial,
        &mut outside.input,
        &mut outside.clock,
        &mut outside.out,
    )
}

/// Adds the stream whose log a request follows.
fn put_stream(rt: &impl Abort, said: &mut String, sent: &str) {
    if let Some((_, rest)) = sent.split_once("tailProcess") {
        if let Some((stream, _)) = rest.split_once("Log") {
            said.push_str(stream).expect(rt, "ample memory");
        }
    }
}

fn put_request(rt: &impl Abort, alloc: Global, said: &mut String, sent: &[u8]) {
    let sent = String::from_utf8_lossy(alloc, sent).expect(rt, "ample memory");
    put_stream(rt, said, sent.as_str());
}

/// What was printed, and behind a bar the stream whose log was followed.
fn said_of(rt: &impl Abort, alloc: Global, outside: &Outside) -> String {
    let mut said = String::from_utf8_lossy(alloc, outside.out.written()).expect(rt, "ample memory");
    said.push('|').expect(rt, "ample memory");
    for exchange in outside.dial.exchanges() {
        put_request(rt, alloc, &mut said, exchange.sent.as_slice());
    }
    said
}

fn said_is(rt: &impl Abort, alloc: Global, row: &str, outside: &Outside, text: &str) {
    let said = said_of(rt, alloc, outside);
    let wanted = bytes_of(rt, alloc, text);
    same_bytes(rt, row, said.as_str().as_bytes(), wanted.as_slice());
}

/// The words come to this status and print this text.
fn words_come_to(rt: &impl Abort, alloc: Global, words: &str, status: u8, text: &str) {
    let mut outside = nothing_said(rt, alloc);
    let answer = called(rt, alloc, words, &mut outside);
    same_number(rt, words, answer as usize, status as usize);
    said_is(rt, alloc, words, &outside, text);
}

#[test]
fn words_that_follow_a_log(rt: HostRuntime) {
    for &(words, status, text) in &WORDS {
        words_come_to(&rt, rt.alloc(), words, status, text);
    }
}
