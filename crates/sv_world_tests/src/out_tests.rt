//! The lists in memory, worked by hand: which calls fail, and how much each call gives or takes.

use std::alloc::Global;
use std::process::Abort;
use sv_out::sink::{ListSink, Sink};
use sv_out::source::{ListSource, Source};

/// The most bytes of a read, the reads that are to fail, and then the room of each read and what it gives, `!` being a failure. The
/// source has the bytes `abcdefghi`.
const SOURCES: [(usize, &[u64], &[(usize, &str)]); 7] = [
    (
        3,
        &[],
        &[
            (2, "ab"),
            (9, "cde"),
            (9, "fgh"),
            (0, ""),
            (9, "i"),
            (9, ""),
        ],
    ),
    (9, &[], &[(9, "abcdefghi"), (9, "")]),
    (1, &[], &[(9, "a"), (9, "b")]),
    (3, &[1], &[(9, "!"), (9, "abc")]),
    (3, &[2], &[(9, "abc"), (9, "!"), (9, "def")]),
    (3, &[1, 3], &[(9, "!"), (9, "abc"), (9, "!"), (9, "def")]),
    (
        3,
        &[9],
        &[(9, "abc"), (9, "def"), (9, "ghi"), (9, ""), (9, "")],
    ),
];

/// The most bytes of a write, the writes that are to fail, and then the piece of each write and what is taken of it, `!` being a
/// failure.
const SINKS: [(usize, &[u64], &[(&str, &str)]); 7] = [
    (3, &[], &[("ab", "ab"), ("cdef", "cde"), ("g", "g")]),
    (9, &[], &[("abcdefghi", "abcdefghi")]),
    (1, &[], &[("ab", "a"), ("ab", "a")]),
    (3, &[1], &[("ab", "!"), ("ab", "ab")]),
    (3, &[2], &[("abcd", "abc"), ("d", "!"), ("d", "d")]),
    (
        3,
        &[1, 3],
        &[("a", "!"), ("b", "b"), ("c", "!"), ("d", "d")],
    ),
    (3, &[4], &[("a", "a"), ("b", "b"), ("c", "c"), ("d", "!")]),
];

fn calls_of(rt: &impl Abort, alloc: Global, failing: &[u64]) -> Vec<u64> {
    Vec::from_slice(alloc, failing).expect(rt, "ample memory")
}

/// The bytes `abcdefghi`.
fn bytes_of(rt: &impl Abort, alloc: Global) -> Vec<u8> {
    Vec::from_slice(alloc, b"abcdefghi").expect(rt, "ample memory")
}

/// A source of nine bytes that gives so many in a read, and fails at these reads.
fn source_of(rt: &impl Abort, alloc: Global, most: usize, failing: &[u64]) -> ListSource {
    assert!(rt; 1 <= most);
    ListSource::new(bytes_of(rt, alloc), most, calls_of(rt, alloc, failing))
}

/// Whether a read with this room gives these bytes, or fails where they are `!`.
fn gives(rt: &impl Abort, source: &mut ListSource, room: usize, expected: &str) -> bool {
    let mut buffer = [0u8; 9];
    assert!(rt; room <= 9);
    match source.read(&mut buffer[..room]) {
        Ok(count) => &buffer[..count] == expected.as_bytes(),
        Err(_) => expected == "!",
    }
}

/// The reads give what is expected of them.
fn are_read(rt: &impl Abort, source: &mut ListSource, reads: &[(usize, &str)]) {
    let mut failed = 0u64;
    for (room, expected) in reads {
        failed = failed.saturating_add(u64::from(*expected == "!"));
        assert!(rt; gives(rt, source, *room, expected), "{room} {expected}");
        assert!(rt; source.faults() == failed, "{room} {expected}");
    }
}

/// The reads of a source that gives so many bytes in a read, and fails at these reads, give what is expected of them.
fn reads_give(
    rt: &impl Abort,
    alloc: Global,
    most: usize,
    failing: &[u64],
    reads: &[(usize, &str)],
) {
    let mut source = source_of(rt, alloc, most, failing);
    are_read(rt, &mut source, reads);
}

/// A sink that takes so many bytes in a write, and fails at these writes.
fn sink_of(rt: &impl Abort, alloc: Global, most: usize, failing: &[u64]) -> ListSink {
    assert!(rt; 1 <= most);
    ListSink::new(alloc, most, calls_of(rt, alloc, failing))
}

/// How many bytes are taken with this answer, where it is no failure.
fn count_of(expected: &str) -> Option<usize> {
    if expected == "!" {
        None
    } else {
        Some(expected.len())
    }
}

/// Adds what is taken with this answer, where it is no failure.
fn add_taken(rt: &impl Abort, taken: &mut String, expected: &str) {
    if expected != "!" {
        taken.push_str(expected).expect(rt, "ample memory");
    }
}

/// The writes take what is expected of them, which is kept beside the sink.
fn are_written(rt: &impl Abort, sink: &mut ListSink, taken: &mut String, writes: &[(&str, &str)]) {
    let mut failed = 0u64;
    for (piece, expected) in writes {
        failed = failed.saturating_add(u64::from(*expected == "!"));
        let count = sink.write(piece.as_bytes()).ok();
        add_taken(rt, taken, expected);
        assert!(rt; count == count_of(expected), "{piece} {expected}");
        assert!(rt; sink.faults() == failed, "{piece} {expected}");
        assert!(rt;
            sink.written() == taken.as_str().as_bytes(),
            "{piece} {expected}"
        );
    }
}

/// The writes to a sink that takes so many bytes in a write, and fails at these writes, take what is expected of them.
fn writes_take(
    rt: &impl Abort,
    alloc: Global,
    most: usize,
    failing: &[u64],
    writes: &[(&str, &str)],
) {
    let mut sink = sink_of(rt, alloc, most, failing);
    are_written(rt, &mut sink, &mut String::new(alloc), writes);
}

#[test]
fn lists_fail_at_their_calls(rt: HostRuntime) {
    for (most, failing, reads) in &SOURCES {
        reads_give(&rt, rt.alloc(), *most, failing, reads);
    }
    for (most, failing, writes) in &SINKS {
        writes_take(&rt, rt.alloc(), *most, failing, writes);
    }
}
