//! The watch, what accepts links, and the ticker.

use crate::checks::check;
use crate::telling::{Lane, bytes_of, calls_of, holds, lane_of, letter, notes_of};
use std::alloc::Global;
use std::collections::VecDeque;
use std::process::Abort;
use std::sync::Wait;
use sv_base::{ExitSignal, How, Moment, Place, Run, Side, Text};
use sv_jobs::{Note, accept_links, ticker, watch};
use sv_lane::{Poster, Taker};
use sv_out::{Link, Script, ScriptLink};
use sv_outside::{FixedClock, PumpEnd, ScriptListen, ScriptWaiter};

/// How a watch ended, and the notes that it posted.
fn watched<R: Abort + Wait>(rt: &R, alloc: Global, waiter: &mut ScriptWaiter) -> (PumpEnd, String) {
    let mut notes = lane_of(rt, alloc);
    let came = watch(rt, waiter, Run(7), &mut notes.poster);
    (came, notes_of(rt, alloc, &mut notes))
}

/// A watch ends so, with these notes.
fn is_watched<R: Abort + Wait>(
    rt: &R,
    alloc: Global,
    waiter: &mut ScriptWaiter,
    expected: &str,
    end: &str,
) {
    let (came, notes) = watched(rt, alloc, waiter);
    let notes = notes.as_str();
    let is_told = letter(came) == end && notes == expected;
    holds(rt, is_told, expected, notes);
}

fn watch_one<R: Abort + Wait>(
    rt: &R,
    alloc: Global,
    how: How,
    failing: &[u64],
    expected: &str,
    end: &str,
) {
    let mut waiter = ScriptWaiter::new(how, calls_of(rt, alloc, failing));
    is_watched(rt, alloc, &mut waiter, expected, end);
}

#[test]
fn a_watch_posts_one_exit(rt: HostRuntime) {
    let killed = ExitSignal::new(9).expect(&rt, "a signal");
    watch_one(&rt, rt.alloc(), How::Code(0), &[], "0", "E");
    watch_one(&rt, rt.alloc(), How::Code(3), &[2], "3", "E");
    watch_one(&rt, rt.alloc(), How::Code(3), &[1], "255", "F");
    watch_one(&rt, rt.alloc(), How::Signal(killed), &[], "signal-9", "E");
}

/// A link that gives this text.
fn link_of(rt: &impl Abort, alloc: Global, text: &str) -> ScriptLink {
    let script = Script::new(bytes_of(rt, alloc, text), 9, Vec::new(alloc));
    ScriptLink::new(alloc, Place::Unix(Text::fixed("/s")), script)
}

/// The links of these texts.
fn links_of(rt: &impl Abort, alloc: Global, texts: &[&str]) -> VecDeque<ScriptLink> {
    let mut links = VecDeque::new(alloc);
    for text in texts {
        links
            .push_back(link_of(rt, alloc, text))
            .expect(rt, "ample memory");
    }
    links
}

/// The accepts that are to fail; the notes of four accepts of the links a, b and c.
const ACCEPTS: [(&[u64], &str); 7] = [
    (&[], "o o o"),
    (&[1], "o o o"),
    (&[2], "o o o"),
    (&[3], "o o o"),
    (&[4], "o o o"),
    (&[1, 2], "o o"),
    (&[1, 2, 3], "o"),
];

/// The notes of four accepts, whose links are posted here.
fn heard<R: Abort + Wait>(
    rt: &R,
    alloc: Global,
    listen: &mut ScriptListen,
    links: &mut Poster<ScriptLink>,
) -> String {
    let mut notes = lane_of(rt, alloc);
    accept_links(rt, listen, Side::Inet, 4, &mut notes.poster, links);
    notes_of(rt, alloc, &mut notes)
}

/// Whether a link gives this byte at first.
fn gives(link: &mut ScriptLink, byte: u8) -> bool {
    let mut buffer = [0u8; 2];
    link.read(&mut buffer).is_ok() && buffer[0] == byte
}

/// The next links, so many of them, give `a`, `b` and `c`.
fn links_give<R: Abort + Wait>(rt: &R, links: &mut Taker<ScriptLink>, given: u64) {
    for (count, byte) in [b'a', b'b', b'c'].iter().enumerate() {
        if count as u64 >= given {
            break;
        }
        assert!(rt; gives(&mut links.take(rt), *byte), "{count}");
    }
}

/// Four accepts post these notes.
fn is_accepted<R: Abort + Wait>(
    rt: &R,
    alloc: Global,
    listen: &mut ScriptListen,
    links: &mut Poster<ScriptLink>,
    expected: &str,
) {
    let notes = heard(rt, alloc, listen, links);
    let notes = notes.as_str();
    let is_told = notes == expected && listen.given().wrapping_add(listen.faults()) == 4;
    holds(rt, is_told, expected, notes);
}

/// Four accepts of the links post these notes, and the links are posted too.
fn are_accepted<R: Abort + Wait>(rt: &R, alloc: Global, listen: &mut ScriptListen, expected: &str) {
    let mut links = lane_of(rt, alloc);
    is_accepted(rt, alloc, listen, &mut links.poster, expected);
    links_give(rt, &mut links.taker, listen.given());
}

/// What accepts the links a, b and c, and fails at these accepts.
fn listen_of(rt: &impl Abort, alloc: Global, failing: &[u64]) -> ScriptListen {
    ScriptListen::new(
        links_of(rt, alloc, &["a", "b", "c"]),
        calls_of(rt, alloc, failing),
    )
}

#[test]
fn each_accepted_link_is_posted_with_its_open(rt: HostRuntime) {
    for (failing, expected) in &ACCEPTS {
        let mut listen = listen_of(&rt, rt.alloc(), failing);
        are_accepted(&rt, rt.alloc(), &mut listen, expected);
    }
}

/// A clock with room for three pauses.
fn clock_of(rt: &impl Abort, alloc: Global) -> FixedClock {
    FixedClock::new(alloc, Moment::zero(), VecDeque::new(alloc), 3).expect(rt, "ample memory")
}

/// Three ticks were posted, and no other note before this one.
fn are_ticks<R: Abort + Wait>(rt: &R, notes: &mut Lane<Note>) {
    notes.poster.post(rt, Note::NoMemory);
    for _ in 0..3 {
        check(rt, matches!(&notes.taker.take(rt), Note::Tick));
    }
    check(rt, matches!(&notes.taker.take(rt), Note::NoMemory));
}

/// A ticker posts three ticks by this clock.
fn ticks<R: Abort + Wait>(rt: &R, alloc: Global, clock: &mut FixedClock) {
    let mut notes = lane_of(rt, alloc);
    ticker(rt, clock, 3, &mut notes.poster);
    are_ticks(rt, &mut notes);
}

#[test]
fn a_ticker_pauses_before_each_tick(rt: HostRuntime) {
    let mut clock = clock_of(&rt, rt.alloc());
    ticks(&rt, rt.alloc(), &mut clock);
    check(
        &rt,
        clock.pauses().expect(&rt, "all told") == [1_000, 1_000, 1_000].as_slice(),
    );
}
