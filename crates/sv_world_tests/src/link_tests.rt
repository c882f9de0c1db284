//! What serves a link, over a link in memory.

use crate::checks::{check, check_of};
use crate::telling::{Course, bytes_of, calls_of, holds, is_told, lane_of, notes_of};
use std::alloc::Global;
use std::collections::VecDeque;
use std::process::Abort;
use std::sync::Wait;
use sv_base::{Bytes, LinkId, Place, Text};
use sv_jobs::{LinkWord, Note, serve_link};
use sv_lane::{Poster, Taker};
use sv_out::{Dial, Exchange, Link, Script, ScriptDial, ScriptLink};
use sv_outside::PumpEnd;

/// The bytes of the link, the most bytes of a call, the calls that are to fail; the words, `+` being a More and a dot a Close; the
/// notes, what was sent and what was heard with a bar between them, and how it ended.
const LINKS: [(&str, usize, &[u64], &str, &str, &str, &str); 12] = [
    ("abcd", 3, &[], "+ hi + .", "abc s d .", "hi|abcd", "E"),
    ("abcd", 3, &[1], "+ hi + .", ".", "|", "F"),
    ("abcd", 3, &[2], "+ hi + .", "abc .", "|abc", "F"),
    ("abcd", 3, &[3], "+ hi + .", "abc s .", "hi|abc", "F"),
    ("abcd", 3, &[4], "+ hi + .", "abc s d .", "hi|abcd", "E"),
    ("abcd", 3, &[], "+ + + +", "abc d .", "|abcd", "E"),
    ("abcd", 1, &[], "+ hi .", "a s .", "hi|a", "E"),
    ("abcd", 1, &[2], "+ hi .", "a .", "|a", "F"),
    ("abcd", 1, &[3], "+ hi .", "a .", "h|a", "F"),
    ("", 9, &[], "hi you .", "s s .", "hiyou|", "E"),
    ("", 9, &[], ".", ".", "|", "E"),
    ("", 9, &[], "+", ".", "|", "E"),
];

/// The word that a text stands for.
fn word_of(rt: &impl Abort, alloc: Global, text: &str) -> LinkWord {
    match text {
        "+" => LinkWord::More,
        "." => LinkWord::Close,
        text => LinkWord::Send(Bytes::from_vec(bytes_of(rt, alloc, text))),
    }
}

/// Posts the words.
fn post_words<R: Abort + Wait>(rt: &R, alloc: Global, poster: &mut Poster<LinkWord>, words: &str) {
    for word in words.split(' ') {
        poster.post(rt, word_of(rt, alloc, word));
    }
}

fn push_bytes(rt: &impl Abort, text: &mut String, bytes: &[u8]) {
    let part = std::str::from_utf8(bytes).unwrap_or("");
    text.push_str(part).expect(rt, "ample memory");
}

/// What was sent in these exchanges and what was heard, with a bar between them.
fn told(rt: &impl Abort, alloc: Global, exchanges: &[Exchange]) -> String {
    let mut text = String::new(alloc);
    for exchange in exchanges {
        push_bytes(rt, &mut text, exchange.sent.as_slice());
        text.push('|').expect(rt, "ample memory");
        push_bytes(rt, &mut text, exchange.heard.as_slice());
    }
    text
}

/// What dialled this link, which is closed.
fn dial_of(rt: &impl Abort, alloc: Global, link: ScriptLink) -> ScriptDial {
    let mut dial = ScriptDial::new(alloc, VecDeque::new(alloc), Vec::new(alloc));
    dial.close(alloc, link).expect(rt, "ample memory");
    dial
}

/// Whether this was sent over a link and heard, with a bar between them.
fn is_exchanged(rt: &impl Abort, alloc: Global, link: ScriptLink, exchanged: &str) -> bool {
    let dial = dial_of(rt, alloc, link);
    told(rt, alloc, dial.exchanges()).as_str() == exchanged
}

/// How the serving of a link ended that was told these words.
fn served<R: Abort + Wait>(
    rt: &R,
    alloc: Global,
    link: &mut ScriptLink,
    words: &str,
    notes: &mut Poster<Note>,
) -> PumpEnd {
    let mut lane = lane_of(rt, alloc);
    post_words(rt, alloc, &mut lane.poster, words);
    serve_link(rt, alloc, link, LinkId(7), notes, &mut lane.taker)
}

/// How the serving of a link ended, and the notes that it posted.
fn heard<R: Abort + Wait>(
    rt: &R,
    alloc: Global,
    link: &mut ScriptLink,
    words: &str,
) -> (PumpEnd, String) {
    let mut notes = lane_of(rt, alloc);
    let came = served(rt, alloc, link, words, &mut notes.poster);
    (came, notes_of(rt, alloc, &mut notes))
}

/// A script of these bytes that gives and takes so many in a call, and fails at these calls.
fn script_of(rt: &impl Abort, alloc: Global, bytes: &str, most: usize, failing: &[u64]) -> Script {
    assert!(rt; 1 <= most);
    Script::new(
        bytes_of(rt, alloc, bytes),
        most,
        calls_of(rt, alloc, failing),
    )
}

/// A link of this script.
fn link_of(alloc: Global, script: Script) -> ScriptLink {
    ScriptLink::new(alloc, Place::Unix(Text::fixed("/s")), script)
}

/// The serving of this link, which was told these words, is as it is told: how it ended.
fn is_served<R: Abort + Wait>(
    rt: &R,
    alloc: Global,
    link: &mut ScriptLink,
    words: &str,
    course: &Course<'_>,
) -> PumpEnd {
    let (came, notes) = heard(rt, alloc, link, words);
    let notes = notes.as_str();
    let is_told = is_told(course, came, link.faults(), notes, "? .");
    holds(rt, is_told, words, notes);
    came
}

/// The serving of a link of this script, which was told these words, is as it is told, and exchanges this.
fn serves<R: Abort + Wait>(
    rt: &R,
    alloc: Global,
    script: Script,
    words: &str,
    course: &Course<'_>,
    exchanged: &str,
) {
    let mut link = link_of(alloc, script);
    let came = is_served(rt, alloc, &mut link, words, course);
    let is_exchanged = is_exchanged(rt, alloc, link, exchanged);
    check_of(rt, is_exchanged || came == PumpEnd::OutOfMemory, words);
}

#[test]
fn a_link_is_served_word_by_word(rt: HostRuntime) {
    for (bytes, most, failing, words, notes, exchanged, end) in &LINKS {
        let script = script_of(&rt, rt.alloc(), bytes, *most, failing);
        let course = Course { notes, end };
        serves(&rt, rt.alloc(), script, words, &course, exchanged);
    }
}

/// A link that gives 200000 bytes.
fn large_link(rt: &impl Abort, alloc: Global) -> ScriptLink {
    let bytes = Vec::from_elem(alloc, b'x', 200_000).expect(rt, "ample memory");
    link_of(alloc, Script::new(bytes, 65_536, Vec::new(alloc)))
}

/// Whether this note is a piece of so many bytes.
fn is_piece(note: &Note, expected: usize) -> bool {
    match note {
        Note::Piece(LinkId(7), piece) => piece.as_slice().len() == expected,
        _ => false,
    }
}

/// The pieces grow, and then comes the end.
fn pieces_grow<R: Abort + Wait>(rt: &R, taker: &mut Taker<Note>) {
    for expected in &[4_096, 8_192, 16_384, 32_768, 65_536, 65_536, 7_488] {
        assert!(rt; is_piece(&taker.take(rt), *expected), "{expected}");
    }
    check(rt, matches!(&taker.take(rt), Note::LinkEnd(LinkId(7))));
}

/// How the serving of a link of 200000 bytes ended.
fn served_large<R: Abort + Wait>(rt: &R, alloc: Global, notes: &mut Poster<Note>) -> PumpEnd {
    let mut link = large_link(rt, alloc);
    served(rt, alloc, &mut link, "+ + + + + + + .", notes)
}

#[test]
fn pieces_of_a_link_grow_while_reads_fill_them(rt: HostRuntime) {
    let mut notes = lane_of(&rt, rt.alloc());
    let came = served_large(&rt, rt.alloc(), &mut notes.poster);
    check(&rt, came == PumpEnd::Ended);
    pieces_grow(&rt, &mut notes.taker);
}
