//! The pump, over a source in memory.

use crate::checks::check;
use crate::telling::{Course, holds, is_told, lane_of, notes_of, source_of};
use std::alloc::Global;
use std::process::Abort;
use std::sync::Wait;
use sv_base::{Run, Stream};
use sv_jobs::{Note, pump};
use sv_lane::{Poster, Taker};
use sv_out::source::ListSource;
use sv_outside::PumpEnd;

/// The bytes; the most bytes of a read, the reads that are to fail; the notes, and how it ended.
const PUMPS: [(&str, usize, &[u64], &str, &str); 11] = [
    ("abcdefgh", 3, &[], "abc def gh .", "E"),
    ("abcdefgh", 3, &[1], ".", "F"),
    ("abcdefgh", 3, &[2], "abc .", "F"),
    ("abcdefgh", 3, &[3], "abc def .", "F"),
    ("abcdefgh", 3, &[4], "abc def gh .", "F"),
    ("abcdefgh", 3, &[5], "abc def gh .", "E"),
    ("abc", 1, &[], "a b c .", "E"),
    ("abc", 1, &[2], "a .", "F"),
    ("abcdefgh", 9, &[], "abcdefgh .", "E"),
    ("", 9, &[], ".", "E"),
    ("", 9, &[1], ".", "F"),
];

/// How a pump ended, and the notes that it posted.
fn pumped<R: Abort + Wait>(rt: &R, alloc: Global, source: &mut ListSource) -> (PumpEnd, String) {
    let mut notes = lane_of(rt, alloc);
    let came = pump(rt, alloc, source, Run(7), Stream::Err, &mut notes.poster);
    (came, notes_of(rt, alloc, &mut notes))
}

/// A pump of this source is as it is told.
fn is_pumped<R: Abort + Wait>(
    rt: &R,
    alloc: Global,
    source: &mut ListSource,
    course: &Course<'_>,
    bytes: &str,
) {
    let (came, notes) = pumped(rt, alloc, source);
    let notes = notes.as_str();
    let is_told = is_told(course, came, source.faults(), notes, "? .");
    holds(rt, is_told, bytes, notes);
}

/// A pump of these bytes, of which a read gives so many, and these reads fail, is as it is told.
fn pump_is<R: Abort + Wait>(
    rt: &R,
    alloc: Global,
    bytes: &str,
    most: usize,
    failing: &[u64],
    course: &Course<'_>,
) {
    let mut source = source_of(rt, alloc, bytes, most, failing);
    is_pumped(rt, alloc, &mut source, course, bytes);
}

#[test]
fn a_pump_posts_each_piece_and_the_end(rt: HostRuntime) {
    for (bytes, most, failing, notes, end) in &PUMPS {
        let course = Course { notes, end };
        pump_is(&rt, rt.alloc(), bytes, *most, failing, &course);
    }
}

/// A source of 200000 bytes.
fn large_source(rt: &impl Abort, alloc: Global) -> ListSource {
    let bytes = Vec::from_elem(alloc, b'x', 200_000).expect(rt, "ample memory");
    ListSource::new(bytes, 65_536, Vec::new(alloc))
}

/// Whether this note is a piece of so many bytes.
fn is_piece(note: &Note, expected: usize) -> bool {
    match note {
        Note::Out(Run(7), Stream::Out, piece) => piece.as_slice().len() == expected,
        _ => false,
    }
}

/// The pieces grow, and then comes the end.
fn pieces_grow<R: Abort + Wait>(rt: &R, taker: &mut Taker<Note>) {
    for expected in &[4_096, 8_192, 16_384, 32_768, 65_536, 65_536, 7_488] {
        assert!(rt; is_piece(&taker.take(rt), *expected), "{expected}");
    }
    check(
        rt,
        matches!(&taker.take(rt), Note::OutEnd(Run(7), Stream::Out)),
    );
}

/// How a pump of 200000 bytes ended.
fn pumped_large<R: Abort + Wait>(rt: &R, alloc: Global, notes: &mut Poster<Note>) -> PumpEnd {
    pump(
        rt,
        alloc,
        &mut large_source(rt, alloc),
        Run(7),
        Stream::Out,
        notes,
    )
}

#[test]
fn pieces_grow_while_reads_fill_them(rt: HostRuntime) {
    let mut notes = lane_of(&rt, rt.alloc());
    let came = pumped_large(&rt, rt.alloc(), &mut notes.poster);
    check(&rt, came == PumpEnd::Ended);
    pieces_grow(&rt, &mut notes.taker);
}
