//! Outcomes with the lines and the statuses that are told of them.

use crate::checks::same;
use std::alloc::Global;
use std::process::Abort;
use sv_base::Text;
use sv_out::sink::ListSink;
use sv_supervise::Outcome;

/// An outcome as a letter, its status, and its line.
static OUTCOMES: [(u8, u8, &str); 11] = [
    (b'0', 0, ""),
    (
        b'u',
        2,
        "Error: usage: supervisord -c FILE [--journal] [-n]\n",
    ),
    (b'f', 2, "Error: no file /s.conf\n"),
    (b'r', 2, "Error: conf 1 Ini 2 BadLine 1\n"),
    (b'3', 3, ""),
    (b'4', 4, "Error: the world failed\n"),
    (b'5', 5, "Error: the input ended\n"),
    (b'6', 6, "Error: too many inputs\n"),
    (b'7', 7, ""),
    (b'8', 8, "Error: cannot read /d/*.ini\n"),
    (b'9', 9, "Error: misplaced input 18446744073709551615\n"),
];

fn outcome_of(letter: u8) -> Outcome {
    match letter {
        b'0' => Outcome::Halted,
        b'u' => Outcome::Usage,
        b'f' => Outcome::NoFile(Text::fixed("/s.conf")),
        b'r' => Outcome::Refused(Text::fixed("1 Ini 2 BadLine 1")),
        b'3' => Outcome::NoMemory,
        b'4' => Outcome::WorldFailed,
        b'5' => Outcome::InputEnded,
        b'6' => Outcome::Full,
        b'7' => Outcome::Unwritten,
        b'8' => Outcome::Unreadable(Text::fixed("/d/*.ini")),
        _ => Outcome::Misplaced(u64::MAX),
    }
}

/// A sink that takes 7 bytes at a time, and whose call of this number fails.
fn sink(rt: &impl Abort, alloc: Global, call: u64) -> ListSink {
    let mut failing = Vec::new(alloc);
    failing.push(call).expect(rt, "memory");
    ListSink::new(alloc, 7, failing)
}

/// The status that is told of an outcome.
fn status_told(alloc: Global, letter: u8, out: &mut ListSink) -> u8 {
    let outcome = outcome_of(letter);
    outcome.tell(alloc, out)
}

fn is_text(rt: &impl Abort, alloc: Global, bytes: &[u8], expected: &str) {
    let text = String::from_utf8_lossy(alloc, bytes).expect(rt, "memory");
    same(rt, text.as_str(), expected);
}

fn leaves(rt: &impl Abort, alloc: Global, letter: u8, status: u8, line: &str) {
    let mut out = sink(rt, alloc, 0);
    let told = status_told(alloc, letter, &mut out);
    assert!(rt; told == status, "{letter}");
    is_text(rt, alloc, out.written(), line);
}

#[test]
fn each_outcome_leaves_its_line(rt: HostRuntime) {
    for &(letter, status, line) in &OUTCOMES {
        leaves(&rt, rt.alloc(), letter, status, line);
    }
}

/// Where the second write fails, so much is written, and this status is told.
fn fails(rt: &impl Abort, alloc: Global, letter: u8, status: u8, length: usize) {
    let mut out = sink(rt, alloc, 2);
    let told = status_told(alloc, letter, &mut out);
    assert!(rt; told == status, "{letter}");
    assert!(rt; out.written().len() == length, "{letter}");
}

#[test]
fn a_line_that_cannot_be_written_gives_7(rt: HostRuntime) {
    for &(letter, status, line) in &OUTCOMES {
        if line.is_empty() {
            fails(&rt, rt.alloc(), letter, status, 0);
        } else {
            fails(&rt, rt.alloc(), letter, 7, 7);
        }
    }
}
