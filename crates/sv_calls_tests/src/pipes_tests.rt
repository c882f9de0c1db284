//! Talks, worked by hand from the manual's protocol.

use crate::checks::{check, same};
use crate::parts::piece_of;
use std::alloc::Global;
use std::process::Abort;
use sv_pipes::{ListenerTalk, TalkState, Token};

// Each line is a talk, in steps that `|` divides. `^` sends an event. Every other step is a piece, in which `~` stands
// for a line feed, then `>` and what is told: `R` for Ready, `=` with the bytes for a result, `!` for Wrong, and at
// last the first letter of the state.
const TALKS: &str = "\
READY~>RR|^|RESULT 2~OK>=OKA|READY~>RR
READY~>RR|^|RESULT 2~OKREADY~>=OKRR
READY~>RR|^|RESULT 4~FAIL>=FAILA
READY~>RR|^|RESULT 0~>=A|READY~>RR
READY~>RR|^|RESULT 0000002~OK>=OKA
READY~>RR|^|RESULT 1~~>=~A
READY~>RR|^|RESULT 1048576~>B
READY~>RR|^|RESULT >B|1>B|0>B|4>B|8>B|5>B|7>B|7>!U|~READY~>U
READY~>RR|^|RESULT 000000>B|0>B|1>!U
READY~>RR|^|RESULT 9999999>!U
READY~>RR|^|RESULT ~>!U
READY~>RR|^|RESULT x>!U
READY~>RR|^|RESULT 2~O>B|K>=OKA
READY~>RR|^|RESULT 2~OKRESULT>=OK!U
READY~>RR|^|READY~>!U
READY~RESULT 2~OK>R!U|READY~>U
READY~>RR|~>!U|READY~>U
READYREADY~>!U|READY~>U
READY >!U
READ>A|Y>A|~>RR
RESULT 2~OK>!U
ready~>!U
>A
";

// Talks, in which `^` sends an event and `~` stands for a line feed, and how many of their bytes aren't decided yet.
const HELD: [(&str, u64); 15] = [
    ("", 0),
    ("READ", 4),
    ("READY", 5),
    ("READY~", 0),
    ("READY~^", 0),
    ("READY~^RESULT", 6),
    ("READY~^RESULT ", 7),
    ("READY~^RESULT 12", 9),
    ("READY~^RESULT 12~", 10),
    ("READY~^RESULT 12~hello", 15),
    ("READY~^RESULT 0000002~O", 16),
    ("READY~^RESULT 2~OK", 0),
    ("READY~^RESULT 0~", 0),
    ("READY~^RESULT 2~OKREA", 3),
    ("READY~^RESUME", 0),
];

// A talk of 23 bytes, in which an event is sent after the sixth.
const TALK: &str = "READY\nRESULT 2\nOKREADY\n";

/// Adds a result to a text.
fn tell_result(rt: &impl Abort, told: &mut String, body: &[u8]) {
    told.push('=').expect(rt, "ample memory");
    for byte in body {
        let letter = match *byte {
            b'\n' => '~',
            other => char::from(other),
        };
        told.push(letter).expect(rt, "ample memory");
    }
}

/// Adds what is told to a text.
fn tell(rt: &impl Abort, told: &mut String, tokens: &[Token]) {
    for token in tokens {
        match token {
            Token::Ready => told.push('R').expect(rt, "ample memory"),
            Token::Wrong => told.push('!').expect(rt, "ample memory"),
            Token::Result(body) => tell_result(rt, told, body.as_slice()),
        }
    }
}

fn letter(state: TalkState) -> char {
    match state {
        TalkState::Acknowledged => 'A',
        TalkState::Ready => 'R',
        TalkState::Busy => 'B',
        TalkState::Unknown => 'U',
    }
}

fn bytes_of(rt: &impl Abort, alloc: Global, text: &str) -> Vec<u8> {
    let mut bytes = Vec::new(alloc);
    for byte in text.as_bytes() {
        bytes
            .push(if *byte == b'~' { b'\n' } else { *byte })
            .expect(rt, "ample memory");
    }
    bytes
}

fn feed(rt: &impl Abort, alloc: Global, talk: &mut ListenerTalk, piece: &[u8], told: &mut String) {
    let tokens = talk.feed(alloc, piece).expect(rt, "ample memory");
    tell(rt, told, tokens.as_slice());
}

fn send(rt: &impl Abort, talk: &mut ListenerTalk) {
    assert!(rt; talk.state() == TalkState::Ready);
    talk.sent();
}

/// Gives a piece, and adds what it tells.
fn give(rt: &impl Abort, alloc: Global, talk: &mut ListenerTalk, text: &str, told: &mut String) {
    let piece = bytes_of(rt, alloc, text);
    feed(rt, alloc, talk, piece.as_slice(), told);
}

fn play_piece(rt: &impl Abort, alloc: Global, talk: &mut ListenerTalk, step: &str) {
    let (piece, expected) = step.split_once('>').expect(rt, "a piece and what is told");
    let mut told = String::new(alloc);
    give(rt, alloc, talk, piece, &mut told);
    told.push(letter(talk.state())).expect(rt, "ample memory");
    same(rt, told.as_str(), expected);
}

fn play(rt: &impl Abort, alloc: Global, line: &str) {
    let mut talk = ListenerTalk::new(alloc);
    for step in line.split('|') {
        if step == "^" {
            send(rt, &mut talk);
        } else {
            play_piece(rt, alloc, &mut talk, step);
        }
    }
}

/// Gives a piece, whatever it tells.
fn only_give(rt: &impl Abort, alloc: Global, talk: &mut ListenerTalk, text: &str) {
    let mut told = String::new(alloc);
    give(rt, alloc, talk, text, &mut told);
}

/// So many bytes of this talk aren't decided yet.
fn check_held(rt: &impl Abort, alloc: Global, text: &str, expected: u64) {
    let mut talk = ListenerTalk::new(alloc);
    let mut has_begun = false;
    for piece in text.split('^') {
        if has_begun {
            send(rt, &mut talk);
        }
        has_begun = true;
        only_give(rt, alloc, &mut talk, piece);
    }
    check(rt, talk.held() == expected);
}

/// Gives the worked talk, cut after so many bytes, and where the event is sent.
fn give_cut(
    rt: &impl Abort,
    alloc: Global,
    talk: &mut ListenerTalk,
    cuts: (usize, usize),
    told: &mut String,
) {
    let mut from = 0usize;
    for to in 1..24usize {
        if to == cuts.0 || to == cuts.1 || to == 6 || to == 23 {
            feed(rt, alloc, talk, piece_of(rt, TALK, from, to), told);
            from = to;
        }
        if to == 6 {
            send(rt, talk);
        }
    }
}

fn play_cut(rt: &impl Abort, alloc: Global, first: usize, second: usize) {
    let mut talk = ListenerTalk::new(alloc);
    let mut told = String::new(alloc);
    give_cut(rt, alloc, &mut talk, (first, second), &mut told);
    check(rt, talk.state() == TalkState::Ready);
    check(rt, told.as_str() == "R=OKR");
}

/// So many bytes as a piece can have.
fn longest_piece(rt: &impl Abort, alloc: Global) -> Vec<u8> {
    let mut piece = Vec::new(alloc);
    for _ in 0..65_536 {
        piece.push(b'x').expect(rt, "ample memory");
    }
    piece
}

/// Gives all but the last byte of the longest result.
fn feed_longest(rt: &impl Abort, alloc: Global, talk: &mut ListenerTalk, told: &mut String) {
    let mut piece = longest_piece(rt, alloc);
    for _ in 0..15 {
        check(rt, talk.state() == TalkState::Busy);
        feed(rt, alloc, talk, piece.as_slice(), told);
    }
    check(rt, piece.pop() == Some(b'x'));
    feed(rt, alloc, talk, piece.as_slice(), told);
}

/// A talk that is about to give the longest result.
fn before_longest(rt: &impl Abort, alloc: Global, talk: &mut ListenerTalk, told: &mut String) {
    feed(rt, alloc, talk, b"READY\n", told);
    send(rt, talk);
    feed(rt, alloc, talk, b"RESULT 1048576\n", told);
    check(rt, talk.held() == 15);
}

fn longest_result(rt: &impl Abort, alloc: Global) {
    let mut talk = ListenerTalk::new(alloc);
    let mut told = String::new(alloc);
    before_longest(rt, alloc, &mut talk, &mut told);
    feed_longest(rt, alloc, &mut talk, &mut told);
    check(rt, talk.held() == 1_048_590);
    check(rt, talk.state() == TalkState::Busy);
    feed(rt, alloc, &mut talk, b"x", &mut told);
    check(rt, talk.state() == TalkState::Acknowledged);
    check(rt, talk.held() == 0);
    check(rt, told.as_str().len() == 1_048_578);
}

#[test]
fn talks(rt: HostRuntime) {
    for line in TALKS.lines() {
        play(&rt, rt.alloc(), line);
    }
    for first in 0..24 {
        for second in 0..24 {
            play_cut(&rt, rt.alloc(), first, second);
        }
    }
    longest_result(&rt, rt.alloc());
}

#[test]
fn undecided_bytes(rt: HostRuntime) {
    for row in &HELD {
        check_held(&rt, rt.alloc(), row.0, row.1);
    }
}
