//! Captured streams, worked by hand.

use crate::checks::check;
use crate::parts::{APART, JOINED, behind_parts, piece_of};
use std::alloc::Global;
use std::process::Abort;
use sv_pipes::{Capture, Part};

// Each line is a captured stream: the limit, then steps that `|` divides, each a piece and the parts that it decides.
// In a piece `[` stands for the whole mark BEGIN, and `]` for END. The piece `.` closes the capture. A part is `L` with
// the bytes for the log or `M` with a message, and `;`.
const STREAMS: &str = "\
10|ab<!--XSUPERVISOR:BE=>Lab;|GIN-->hello=>|]cd<=>Mhello;Lcd;|.=>L<;
10|=>|.=>
10|a=>La;|b=>Lb;|.=>
10|a[b]c[d]e=>La;Mb;Lc;Md;Le;
10|[]=>M;
10|[][]=>M;M;
10|[b=>|.=>
10|[b<!--X=>|.=>
3|[hello]=>Mllo;
3|[he=>|llo]=>Mllo;
0|[abc]=>M;
10|]=>L<!--XSUPERVISOR:END-->;
10|[[]=>MR:BEGIN-->;
10|[a<!--XSUPERVISOR:EN=>|x]=>MRVISOR:ENx;
10|<[x]=>L<;Mx;
10|<!--XSUPERVISOR:[x]y=>L<!--XSUPERVISOR:;Mx;Ly;
10|<!-=>|-X=>|Y=>L<!--XY;
10|a<!--XSUPERVISOR:BEGIN--=>La;|.=>L<!--XSUPERVISOR:BEGIN--;
10|<!--xsupervisor:begin-->=>L<!--xsupervisor:begin-->;
";

// Streams whose messages have at most 10 bytes, with marks as above, and how many of their bytes aren't decided yet.
const HELD: [(&str, u64); 12] = [
    ("", 0),
    ("ab", 0),
    ("ab<", 1),
    ("ab<!--XSUPERVISOR:BEGIN--", 23),
    ("ab<!--XSUPERVISOR:END--", 0),
    ("ab[", 0),
    ("ab[hello", 5),
    ("ab[hello world!", 10),
    ("ab[he<!--", 6),
    ("ab[hello world!<!--XSUPERVISOR:END--", 31),
    ("ab[hello world!]", 0),
    ("ab[hello]cd<!", 2),
];

// A stream of 56 bytes.
const STREAM: &str = "ab<!--XSUPERVISOR:BEGIN-->hello<!--XSUPERVISOR:END-->cd<";

fn bytes_of(rt: &impl Abort, alloc: Global, text: &str) -> Vec<u8> {
    let mut bytes = Vec::new(alloc);
    for byte in text.as_bytes() {
        let written: &[u8] = match *byte {
            b'[' => b"<!--XSUPERVISOR:BEGIN-->",
            b']' => b"<!--XSUPERVISOR:END-->",
            _ => &[],
        };
        if written.is_empty() {
            bytes.push(*byte).expect(rt, "ample memory");
        } else {
            bytes.extend_from_slice(written).expect(rt, "ample memory");
        }
    }
    bytes
}

fn limit_of(text: &str) -> u64 {
    match text {
        "10" => 10,
        "3" => 3,
        _ => 0,
    }
}

fn answer(rt: &impl Abort, alloc: Global, capture: &mut Capture, piece: &str) -> Vec<Part> {
    if piece == "." {
        capture.close(alloc).expect(rt, "ample memory")
    } else {
        let piece = bytes_of(rt, alloc, piece);
        capture
            .feed(alloc, piece.as_slice())
            .expect(rt, "ample memory")
    }
}

fn play_step(rt: &impl Abort, alloc: Global, capture: &mut Capture, step: &str) {
    let (piece, expected) = step.split_once("=>").expect(rt, "a piece and its parts");
    let parts = answer(rt, alloc, capture, piece);
    let left = behind_parts(rt, expected, parts.as_slice(), APART);
    assert!(rt; left.is_empty(), "{left} isn't told");
}

fn play(rt: &impl Abort, alloc: Global, line: &str) {
    let (limit, steps) = line.split_once('|').expect(rt, "a limit and steps");
    let mut capture = Capture::new(alloc, limit_of(limit)).expect(rt, "ample memory");
    for step in steps.split('|') {
        play_step(rt, alloc, &mut capture, step);
    }
}

/// Gives a piece of the worked stream: what is left to tell.
fn fed<'a>(
    rt: &impl Abort,
    alloc: Global,
    capture: &mut Capture,
    piece: &[u8],
    left: &'a str,
) -> &'a str {
    let parts = capture.feed(alloc, piece).expect(rt, "ample memory");
    behind_parts(rt, left, parts.as_slice(), JOINED)
}

/// Ends the worked stream: what is left to tell.
fn closed<'a>(rt: &impl Abort, alloc: Global, capture: &mut Capture, left: &'a str) -> &'a str {
    let parts = capture.close(alloc).expect(rt, "ample memory");
    behind_parts(rt, left, parts.as_slice(), JOINED)
}

/// The worked stream, cut after so many bytes.
fn play_cut(rt: &impl Abort, alloc: Global, first: usize, second: usize) {
    let mut capture = Capture::new(alloc, 10).expect(rt, "ample memory");
    let mut left = "ab(hello)cd<";
    let mut from = 0usize;
    for to in 1..57usize {
        if to == first || to == second || to == 56 {
            left = fed(
                rt,
                alloc,
                &mut capture,
                piece_of(rt, STREAM, from, to),
                left,
            );
            from = to;
        }
    }
    left = closed(rt, alloc, &mut capture, left);
    assert!(rt; left.is_empty(), "cut behind {first} and {second}");
}

/// Gives a text as one piece, whatever it decides.
fn give(rt: &impl Abort, alloc: Global, capture: &mut Capture, text: &str) {
    let piece = bytes_of(rt, alloc, text);
    capture
        .feed(alloc, piece.as_slice())
        .expect(rt, "ample memory");
}

/// So many bytes of this stream aren't decided yet.
fn check_held(rt: &impl Abort, alloc: Global, text: &str, expected: u64) {
    let mut capture = Capture::new(alloc, 10).expect(rt, "ample memory");
    give(rt, alloc, &mut capture, text);
    check(rt, capture.held() == expected);
}

#[test]
fn undecided_bytes(rt: HostRuntime) {
    for row in &HELD {
        check_held(&rt, rt.alloc(), row.0, row.1);
    }
}

#[test]
fn captured_streams(rt: HostRuntime) {
    for line in STREAMS.lines() {
        play(&rt, rt.alloc(), line);
    }
    for first in 0..57 {
        for second in 0..57 {
            play_cut(&rt, rt.alloc(), first, second);
        }
    }
}
