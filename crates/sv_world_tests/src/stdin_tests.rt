//! What writes a standard input, over a sink in memory.

use crate::checks::check_of;
use crate::telling::{Course, bytes_of, calls_of, holds, is_course, lane_of, notes_of};
use std::alloc::Global;
use std::process::Abort;
use std::sync::Wait;
use sv_base::{Bytes, Run};
use sv_jobs::{Note, StdinWord, write_stdin};
use sv_lane::Poster;
use sv_out::sink::ListSink;
use sv_outside::PumpEnd;

/// The words, a dot being a Close; the most bytes of a write, the writes that are to fail; the notes, what was written, and how it
/// ended.
const WRITES: [(&str, usize, &[u64], &str, &str, &str); 8] = [
    ("ab cde .", 2, &[], "s s .", "abcde", "E"),
    ("ab cde .", 2, &[1], ".", "", "F"),
    ("ab cde .", 2, &[2], "s .", "ab", "F"),
    ("ab cde .", 2, &[3], "s .", "abcd", "F"),
    ("ab cde .", 2, &[4], "s s .", "abcde", "E"),
    (".", 9, &[], ".", "", "E"),
    ("a . b .", 9, &[], "s .", "a", "E"),
    ("a b c .", 1, &[3], "s s .", "ab", "F"),
];

/// The word that a text stands for.
fn word_of(rt: &impl Abort, alloc: Global, text: &str) -> StdinWord {
    match text {
        "." => StdinWord::Close,
        text => StdinWord::Write(Bytes::from_vec(bytes_of(rt, alloc, text))),
    }
}

/// Posts the words.
fn post_words<R: Abort + Wait>(rt: &R, alloc: Global, poster: &mut Poster<StdinWord>, words: &str) {
    for word in words.split(' ') {
        poster.post(rt, word_of(rt, alloc, word));
    }
}

/// How the writing of these words ended.
fn wrote<R: Abort + Wait>(
    rt: &R,
    alloc: Global,
    sink: &mut ListSink,
    words: &str,
    notes: &mut Poster<Note>,
) -> PumpEnd {
    let mut lane = lane_of(rt, alloc);
    post_words(rt, alloc, &mut lane.poster, words);
    write_stdin(rt, sink, Run(7), notes, &mut lane.taker)
}

/// How the writing of these words ended, and the notes that it posted.
fn heard<R: Abort + Wait>(
    rt: &R,
    alloc: Global,
    sink: &mut ListSink,
    words: &str,
) -> (PumpEnd, String) {
    let mut notes = lane_of(rt, alloc);
    let came = wrote(rt, alloc, sink, words, &mut notes.poster);
    (came, notes_of(rt, alloc, &mut notes))
}

/// A sink that takes so many bytes in a write, and fails at these writes.
fn sink_of(rt: &impl Abort, alloc: Global, most: usize, failing: &[u64]) -> ListSink {
    assert!(rt; 1 <= most);
    ListSink::new(alloc, most, calls_of(rt, alloc, failing))
}

/// The writing of these words to this sink is as it is told.
fn is_heard<R: Abort + Wait>(
    rt: &R,
    alloc: Global,
    sink: &mut ListSink,
    words: &str,
    course: &Course<'_>,
) {
    let (came, notes) = heard(rt, alloc, sink, words);
    let notes = notes.as_str();
    holds(
        rt,
        is_course(course, came, sink.faults(), notes),
        words,
        notes,
    );
}

/// The writing of these words to this sink is as it is told, and writes this.
fn is_written<R: Abort + Wait>(
    rt: &R,
    alloc: Global,
    sink: &mut ListSink,
    words: &str,
    course: &Course<'_>,
    written: &str,
) {
    is_heard(rt, alloc, sink, words, course);
    check_of(rt, sink.written() == written.as_bytes(), words);
}

#[test]
fn a_standard_input_is_written_word_by_word(rt: HostRuntime) {
    for (words, most, failing, notes, written, end) in &WRITES {
        let mut sink = sink_of(&rt, rt.alloc(), *most, failing);
        let course = Course { notes, end };
        is_written(&rt, rt.alloc(), &mut sink, words, &course, written);
    }
}
