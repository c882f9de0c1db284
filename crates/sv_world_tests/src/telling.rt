//! Lanes for the tests, and notes as texts.

use std::alloc::Global;
use std::process::Abort;
use std::sync::Wait;
use sv_base::{How, Side, Signal};
use sv_jobs::Note;
use sv_lane::{Poster, Taker, lane};
use sv_out::source::ListSource;
use sv_outside::PumpEnd;

/// The taker of a lane and its one poster.
#[derive(Drop)]
pub(crate) struct Lane<T: Drop> {
    pub(crate) taker: Taker<T>,
    pub(crate) poster: Poster<T>,
}

/// A lane with one seat.
pub(crate) fn lane_of<T: Drop>(rt: &impl Abort, alloc: Global) -> Lane<T> {
    let (taker, mut seats) = lane(alloc, 64).expect(rt, "ample memory");
    let poster = seats.seat().expect(rt, "ample memory");
    Lane { taker, poster }
}

/// The bytes of a text.
pub(crate) fn bytes_of(rt: &impl Abort, alloc: Global, text: &str) -> Vec<u8> {
    Vec::from_slice(alloc, text.as_bytes()).expect(rt, "ample memory")
}

/// The numbers of these calls.
pub(crate) fn calls_of(rt: &impl Abort, alloc: Global, failing: &[u64]) -> Vec<u64> {
    Vec::from_slice(alloc, failing).expect(rt, "ample memory")
}

/// A source of this text that gives so many bytes in a read, and fails at these reads.
pub(crate) fn source_of(
    rt: &impl Abort,
    alloc: Global,
    text: &str,
    most: usize,
    failing: &[u64],
) -> ListSource {
    assert!(rt; 1 <= most);
    ListSource::new(
        bytes_of(rt, alloc, text),
        most,
        calls_of(rt, alloc, failing),
    )
}

/// A letter for the end of a job.
pub(crate) fn letter(end: PumpEnd) -> &'static str {
    match end {
        PumpEnd::Ended => "E",
        PumpEnd::Failed => "F",
        PumpEnd::OutOfMemory => "M",
    }
}

/// The notes that were posted, each as a word: a piece as it stands, `.` for the end of a stream or a link, `s` for a
/// whole write, `o` for an open, the number or the name of what ended a process, and what the console asks for.
pub(crate) fn notes_of<R: Abort + Wait>(rt: &R, alloc: Global, notes: &mut Lane<Note>) -> String {
    notes.poster.post(rt, Note::Tick);
    let mut text = String::new(alloc);
    add_notes(rt, alloc, &mut text, &mut notes.taker);
    text
}

/// Adds the notes up to a tick.
fn add_notes<R: Abort + Wait>(rt: &R, alloc: Global, text: &mut String, taker: &mut Taker<Note>) {
    for _ in 0..64 {
        if !is_added(rt, alloc, text, &taker.take(rt)) {
            return;
        }
    }
}

/// Adds a note, unless it is a tick: whether it did.
fn is_added(rt: &impl Abort, alloc: Global, text: &mut String, note: &Note) -> bool {
    if let Note::Tick = note {
        return false;
    }
    if !text.as_str().is_empty() {
        push(rt, text, " ");
    }
    add_note(rt, alloc, text, note);
    true
}

fn push(rt: &impl Abort, text: &mut String, word: &str) {
    text.push_str(word).expect(rt, "ample memory");
}

/// Adds a number behind a word.
fn push_number(rt: &impl Abort, alloc: Global, text: &mut String, word: &str, number: u32) {
    let number = format!(in alloc; "{word}{number}").expect(rt, "ample memory");
    push(rt, text, number.as_str());
}

/// Adds the text of a piece.
fn push_piece(rt: &impl Abort, alloc: Global, text: &mut String, piece: &[u8]) {
    let piece = String::from_utf8_lossy(alloc, piece).expect(rt, "ample memory");
    push(rt, text, piece.as_str());
}

/// Adds a name behind a word.
fn push_name(rt: &impl Abort, text: &mut String, word: &str, name: &str) {
    push(rt, text, word);
    push(rt, text, name);
}

fn add_note(rt: &impl Abort, alloc: Global, text: &mut String, note: &Note) {
    match note {
        Note::Tick => push(rt, text, "tick"),
        Note::Exit(_, How::Code(code)) => push_number(rt, alloc, text, "", u32::from(*code)),
        Note::Exit(_, How::Signal(signal)) => push_number(rt, alloc, text, "signal-", signal.get()),
        Note::Out(_, _, piece) | Note::Piece(_, piece) => {
            push_piece(rt, alloc, text, piece.as_slice())
        }
        Note::OutEnd(_, _) | Note::LinkEnd(_) | Note::StdinEnd(_) => push(rt, text, "."),
        Note::Open(Side::Inet) => push(rt, text, "o"),
        Note::Open(Side::Unix) => push(rt, text, "u"),
        Note::Signal(signal) => push_name(rt, text, "!", signal.get().name()),
        Note::Start(name) => push_name(rt, text, "+", name.as_str()),
        Note::Stop(name) => push_name(rt, text, "-", name.as_str()),
        Note::Wrote(_) | Note::Sent(_) => push(rt, text, "s"),
        Note::NoMemory => push(rt, text, "?"),
    }
}

/// What a line says of a job: the notes that it posts, and how it ends.
#[derive(Drop)]
pub(crate) struct Course<'a> {
    pub(crate) notes: &'a str,
    pub(crate) end: &'a str,
}

/// Whether a job that ended so, at so many faults, with these notes, is as its line says; where memory was refused, whether its notes
/// end so.
pub(crate) fn is_told(
    course: &Course<'_>,
    came: PumpEnd,
    faults: u64,
    notes: &str,
    refused: &str,
) -> bool {
    match came {
        PumpEnd::OutOfMemory => notes.ends_with(refused),
        _ => is_course(course, came, faults, notes),
    }
}

/// Whether a job that ended so, at so many faults, with these notes, is as its line says.
pub(crate) fn is_course(course: &Course<'_>, came: PumpEnd, faults: u64, notes: &str) -> bool {
    letter(came) == course.end
        && notes == course.notes
        && (faults == 1) == (came == PumpEnd::Failed)
}

/// A line is as it was told; else the test ends, and says which notes there were.
pub(crate) fn holds(rt: &impl Abort, is_told: bool, line: &str, notes: &str) {
    assert!(rt; is_told, "{line}: {notes}");
}
