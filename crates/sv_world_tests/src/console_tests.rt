//! The console, over a source in memory.

use crate::checks::check;
use crate::telling::{Course, bytes_of, holds, is_told, lane_of, notes_of, source_of};
use std::alloc::Global;
use std::process::Abort;
use std::sync::Wait;
use sv_jobs::console;
use sv_out::source::ListSource;
use sv_outside::PumpEnd;

/// The input; the most bytes of a read, the reads that are to fail; the notes, and how it ended.
const INPUTS: [(&str, usize, &[u64], &str, &str); 15] = [
    ("signal TERM\n", 9, &[], "!TERM", "E"),
    ("signal TERM\n", 1, &[], "!TERM", "E"),
    ("signal TERM", 9, &[], "", "E"),
    (
        "start web\nstop web:one\nsignal USR2\n",
        9,
        &[],
        "+web -web:one !USR2",
        "E",
    ),
    ("start web\nstop web:one\nsignal USR2\n", 9, &[1], "", "F"),
    ("start web\nstop web:one\nsignal USR2\n", 9, &[2], "", "F"),
    (
        "start web\nstop web:one\nsignal USR2\n",
        9,
        &[3],
        "+web",
        "F",
    ),
    (
        "start web\nstop web:one\nsignal USR2\n",
        9,
        &[4],
        "+web -web:one",
        "F",
    ),
    (
        "signal INT\nsignal QUIT\nsignal KILL\nsignal USR1\n",
        9,
        &[],
        "!INT !QUIT !KILL !USR1",
        "E",
    ),
    (
        "signal HUP\nsignal term\nsignal SIGTERM\nsignal 15\nsignal \nsignal\nsignal  TERM\n",
        9,
        &[],
        "",
        "E",
    ),
    (
        "start \nstop \nstart\n start a\nStart a\nbegin a\n\n",
        9,
        &[],
        "",
        "E",
    ),
    ("start a b\nstop  a\n", 9, &[], "+a b - a", "E"),
    ("start a\n\nstop b", 9, &[], "+a", "E"),
    ("", 9, &[], "", "E"),
    ("", 9, &[1], "", "F"),
];

/// How a console ended, and the notes that it posted.
fn heard<R: Abort + Wait>(rt: &R, alloc: Global, source: &mut ListSource) -> (PumpEnd, String) {
    let mut notes = lane_of(rt, alloc);
    let came = console(rt, alloc, source, &mut notes.poster);
    (came, notes_of(rt, alloc, &mut notes))
}

/// A console over this source is as it is told.
fn is_heard<R: Abort + Wait>(
    rt: &R,
    alloc: Global,
    source: &mut ListSource,
    course: &Course<'_>,
    input: &str,
) {
    let (came, notes) = heard(rt, alloc, source);
    let notes = notes.as_str();
    let is_told = is_told(course, came, source.faults(), notes, "?");
    holds(rt, is_told, input, notes);
}

/// A console over this input, of which a read gives so many bytes, and these reads fail, is as it is told.
fn console_is<R: Abort + Wait>(
    rt: &R,
    alloc: Global,
    input: &str,
    most: usize,
    failing: &[u64],
    course: &Course<'_>,
) {
    let mut source = source_of(rt, alloc, input, most, failing);
    is_heard(rt, alloc, &mut source, course, input);
}

#[test]
fn a_console_posts_what_its_lines_ask_for(rt: HostRuntime) {
    for (input, most, failing, notes, end) in &INPUTS {
        let course = Course { notes, end };
        console_is(&rt, rt.alloc(), input, *most, failing, &course);
    }
}

/// A line `start` with a name of so many bytes, and behind it a further line.
fn long_input(rt: &impl Abort, alloc: Global, count: usize) -> Vec<u8> {
    let mut bytes = bytes_of(rt, alloc, "start ");
    add_name(rt, alloc, &mut bytes, count);
    bytes
        .extend_from_slice(b"\nstop a\n")
        .expect(rt, "ample memory");
    bytes
}

/// Adds a name of so many bytes.
fn add_name(rt: &impl Abort, alloc: Global, bytes: &mut Vec<u8>, count: usize) {
    let name = Vec::from_elem(alloc, b'x', count).expect(rt, "ample memory");
    bytes
        .extend_from_slice(name.as_slice())
        .expect(rt, "ample memory");
}

/// A source of a name of so many bytes.
fn long_source(rt: &impl Abort, alloc: Global, count: usize, most: usize) -> ListSource {
    assert!(rt; 1 <= most);
    ListSource::new(long_input(rt, alloc, count), most, Vec::new(alloc))
}

/// A console over this source ends with notes of so many bytes.
fn is_long<R: Abort + Wait>(rt: &R, alloc: Global, source: &mut ListSource, notes: usize) -> bool {
    let (came, text) = heard(rt, alloc, source);
    came == PumpEnd::Ended && text.as_str().len() == notes
}

/// A name of so many bytes gives notes of so many.
fn long_line<R: Abort + Wait>(rt: &R, alloc: Global, count: usize, most: usize, notes: usize) {
    let mut source = long_source(rt, alloc, count, most);
    assert!(rt; is_long(rt, alloc, &mut source, notes), "{count} {most}");
}

#[test]
fn a_line_has_at_most_4096_bytes(rt: HostRuntime) {
    for (count, most, notes) in &[
        (4_090, 1, 4_094),
        (4_090, 65_536, 4_094),
        (4_091, 1, 2),
        (4_091, 65_536, 2),
        (20_000, 65_536, 2),
    ] {
        long_line(&rt, rt.alloc(), *count, *most, *notes);
    }
}

/// Two lines, of which the first is no text.
fn no_text(rt: &impl Abort, alloc: Global) -> Vec<u8> {
    Vec::from_slice(alloc, b"start a\xFF\nstart c\n".as_slice()).expect(rt, "ample memory")
}

/// A console over this source posts the second line alone.
fn is_passed_over<R: Abort + Wait>(rt: &R, alloc: Global, source: &mut ListSource) {
    let (came, text) = heard(rt, alloc, source);
    check(rt, came == PumpEnd::Ended && text.as_str() == "+c");
}

#[test]
fn a_line_that_is_no_text_is_passed_over(rt: HostRuntime) {
    let alloc = rt.alloc();
    let mut source = ListSource::new(no_text(&rt, alloc), 9, Vec::new(alloc));
    is_passed_over(&rt, alloc, &mut source);
}
