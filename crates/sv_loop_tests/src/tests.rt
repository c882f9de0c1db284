//! The words of the top call, journals cut after each byte, and journals at their limits.

ghost use Rattle.std.specs.Prelude.{None};

use crate::checks::check;
use std::alloc::Global;
use std::process::Abort;
use sv_base::text::Text;
use sv_loop::{JOURNAL_LIMIT, replay};
use sv_out::failed::Failed;
use sv_out::sink::{ListSink, Sink};
use sv_out::source::{ListSource, Source};

fn words(rt: &impl Abort, alloc: Global, word: &'static str) -> Vec<Text> {
    let mut words = Vec::new(alloc);
    words.push(Text::fixed(word)).expect(rt, "memory");
    words
}

fn source(rt: &impl Abort, alloc: Global, journal: &[u8], most: usize, failing: u64) -> ListSource {
    let bytes = Vec::from_slice(alloc, journal).expect(rt, "memory");
    let mut calls = Vec::new(alloc);
    calls.push(failing).expect(rt, "memory");
    ListSource::new(bytes, most.max(1), calls)
}

fn sink(rt: &impl Abort, alloc: Global, failing: u64) -> ListSink {
    let mut calls = Vec::new(alloc);
    calls.push(failing).expect(rt, "memory");
    ListSink::new(alloc, 1_000_000, calls)
}

fn refuse(
    rt: &impl Abort,
    alloc: Global,
    words: &[Text],
    failing: u64,
    status: u8,
    written: &[u8],
) {
    let mut source = source(rt, alloc, b"", 1, 0);
    let mut sink = sink(rt, alloc, failing);
    check(rt, replay(alloc, words, &mut source, &mut sink) == status);
    check(rt, sink.written() == written);
}

pub(crate) const USAGE: &[u8] = b"Error: usage: sv_replay run or sv_replay gen N\n";

/// A journal cut after each byte: whole after the line feed of `go` or of a later line, else at fault.
fn cut(rt: &impl Abort, alloc: Global, journal: &[u8], at: usize, go: usize) {
    if at > journal.len() {
        return;
    }
    let (front, _) = journal.split_at(at);
    let words = words(rt, alloc, "run");
    let mut source = source(rt, alloc, front, 4_096, 0);
    let mut sink = sink(rt, alloc, 0);
    let whole = at >= go && front.ends_with(b"\n");
    let status = replay(alloc, words.as_slice(), &mut source, &mut sink);
    assert_eq!(rt; status, if whole { 0 } else { 5 }, "cut after {at} bytes");
}

const STOPPED: &str =
    "supervisor-journal 0\nprogram x 1 3 false 0 TERM 2\ngo 0\n0 tick\npid 9\n1000 tick\n1500 stop x\n3499 tick\n3500 tick\n5500 tick\n5600 exit 1 signal 9\n";

#[test]
fn words_and_cuts(rt: HostRuntime) {
    let none: [Text; 0] = [];
    refuse(&rt, rt.alloc(), &none, 0, 2, USAGE);
    let other = words(&rt, rt.alloc(), "ran");
    refuse(&rt, rt.alloc(), other.as_slice(), 0, 2, USAGE);
    refuse(&rt, rt.alloc(), other.as_slice(), 1, 4, b"");
    for at in 0..200 {
        cut(&rt, rt.alloc(), STOPPED.as_bytes(), at, 55);
    }
}

/// A source that holds no list: a title, then a line of so many bytes, then lines of 1,048,576 bytes, so many bytes in
/// all.
#[derive(Drop)]
struct LongLines {
    at: usize,
    first: usize,
    all: usize,
}

const TITLE: &[u8] = b"supervisor-journal 0\nprogram x 0 0 false 0 TERM 0\ngo 0\n0 tick\npid 1\n";

const LENGTH: usize = 1_048_576;

fn byte_of_line(at: usize, length: usize) -> u8 {
    if at.saturating_add(1) == length {
        b'\n'
    } else {
        b"9 start ".get(at).copied().unwrap_or(b'a')
    }
}

impl LongLines {
    fn byte(&self) -> u8 {
        if self.at < TITLE.len() {
            return TITLE.get(self.at).copied().unwrap_or(0);
        }
        let behind = self.at.saturating_sub(TITLE.len());
        if behind < self.first {
            byte_of_line(behind, self.first)
        } else {
            byte_of_line(behind.saturating_sub(self.first) % LENGTH, LENGTH)
        }
    }
}

impl Source for LongLines {
    ghost left = { λ _. None };

    ghost faults = { λ _. 0 };

    fn read(&mut self, into: &mut [u8]) -> Result<usize, Failed> {
        let mut count: usize = 0;
        for byte in into.iter_mut() {
            if self.at >= self.all {
                break;
            }
            *byte = self.byte();
            self.at = self.at.saturating_add(1);
            count = count.saturating_add(1);
        }
        Ok(count.min(into.len()))
    }
}

fn fill(rt: &impl Abort, alloc: Global, first: usize, all: usize, status: u8, last: &[u8]) {
    let mut source = LongLines { at: 0, first, all };
    let words = words(rt, alloc, "run");
    let mut sink = sink(rt, alloc, 0);
    check(
        rt,
        replay(alloc, words.as_slice(), &mut source, &mut sink) == status,
    );
    check(rt, sink.written().ends_with(last));
}

const FIRST: usize = LENGTH - 68;

#[test]
fn a_journal_of_the_most_bytes(rt: HostRuntime) {
    fill(
        &rt,
        rt.alloc(),
        FIRST,
        JOURNAL_LIMIT,
        0,
        b"STARTING RUNNING\n",
    );
}

#[test]
fn a_journal_of_one_byte_more(rt: HostRuntime) {
    fill(
        &rt,
        rt.alloc(),
        FIRST,
        JOURNAL_LIMIT + 1,
        8,
        b"RUNNING\nfault 8\n",
    );
}

#[test]
fn a_line_feed_past_the_limit(rt: HostRuntime) {
    fill(
        &rt,
        rt.alloc(),
        FIRST + 1,
        JOURNAL_LIMIT + 1,
        8,
        b"RUNNING\nfault 8\n",
    );
}

#[test]
fn lines_at_their_limit(rt: HostRuntime) {
    let line = 4_194_304;
    fill(
        &rt,
        rt.alloc(),
        line + 1,
        line + 69,
        0,
        b"STARTING RUNNING\n",
    );
    fill(
        &rt,
        rt.alloc(),
        line + 2,
        line + 70,
        5,
        b"PROCESS_NAME x\nfault 5 line 6\n",
    );
    fill(
        &rt,
        rt.alloc(),
        line + 9,
        line + 69,
        5,
        b"PROCESS_NAME x\nfault 5 line 6\n",
    );
}
