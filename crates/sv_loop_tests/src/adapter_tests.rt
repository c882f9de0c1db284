//! A journal of more than a mebibyte through the adapters of standard input and output, over a reader and a writer that
//! give and take a few bytes at a time.

use crate::checks::check;
use std::alloc::Global;
use std::io;
use std::io::{Read, Write};
use std::process::Abort;
use sv_base::text::Text;
use sv_loop::replay;
use sv_os::{ReadSource, WriteSink};

/// Bytes that are read, at most so many at a time.
#[derive(Drop)]
struct ShortReads {
    bytes: Vec<u8>,
    at: usize,
    most: usize,
}

impl Read for ShortReads {
    fn read(&mut self, buf: &mut [u8]) -> io::Result<usize> {
        let rest = self.bytes.get(self.at..).unwrap_or(&[]);
        let count = buf.len().min(rest.len()).min(self.most);
        buf[..count].copy_from_slice(&rest[..count]);
        self.at = self.at.saturating_add(count);
        Ok(count)
    }
}

/// What was written, of which at most so many bytes are taken at a time.
#[derive(Drop)]
struct ShortWrites {
    bytes: Vec<u8>,
    most: usize,
}

impl Write for ShortWrites {
    fn write(&mut self, buf: &[u8]) -> io::Result<usize> {
        let count = buf.len().min(self.most);
        self.bytes.extend_from_slice(&buf[..count])?;
        Ok(count)
    }

    fn flush(&mut self) -> io::Result<()> {
        Ok(())
    }
}

/// A process that runs, with a log that never turns.
const HEADER: &str =
    "supervisor-journal 1\nhost h\nhere /\npid 1\nconf [supervisord]%0Alogfile=NONE%0A[program:x]%0Acommand=x%0Astdout_logfile=/o%0Astderr_logfile=NONE%0Astdout_logfile_maxbytes=0%0A\ngo 0\n0 tick\npid 12\n";

const FIRST_ORDERS: &str =
    "state x x STOPPED STARTING\nspawn 1 x x % % % 1 x 3 SUPERVISOR_ENABLED 1 SUPERVISOR_GROUP_NAME x SUPERVISOR_PROCESS_NAME x\n";

/// How many bytes the process writes at a time, and how often.
const PIECE: usize = 65_521;

const PIECES: usize = 17;

/// The letters of a piece: those next to one another differ, and two pieces begin with different ones.
fn put_letters(rt: &impl Abort, text: &mut Vec<u8>, piece: usize) {
    for at in 0..PIECE {
        text.push(b"abcdefghijklmnopqrstuvwxyzABC"[at.wrapping_add(piece) % 29])
            .expect(rt, "memory");
    }
    text.push(b'\n').expect(rt, "memory");
}

/// A text that begins so, and then has a line of each piece, after this prefix.
fn text_of(rt: &impl Abort, alloc: Global, first: &str, prefix: &str) -> Vec<u8> {
    let mut text = Vec::from_slice(alloc, first.as_bytes()).expect(rt, "memory");
    for piece in 0..PIECES {
        text.extend_from_slice(prefix.as_bytes())
            .expect(rt, "memory");
        put_letters(rt, &mut text, piece);
    }
    text
}

/// A journal of more than a mebibyte, read at most so many bytes at a time.
fn reads_of(rt: &impl Abort, alloc: Global, most: usize) -> ShortReads {
    let bytes = text_of(rt, alloc, HEADER, "1 out 1 ");
    check(rt, bytes.len() > 1_048_576);
    ShortReads { bytes, at: 0, most }
}

fn words_of(rt: &impl Abort, alloc: Global) -> Vec<Text> {
    let mut words = Vec::new(alloc);
    words.push(Text::fixed("run")).expect(rt, "memory");
    words
}

/// The text that the journal's replay writes, with at most so many bytes read, and written, at a time.
fn replayed(rt: &impl Abort, alloc: Global, reads: usize, writes: usize) -> Vec<u8> {
    let words = words_of(rt, alloc);
    let mut source = ReadSource::new(reads_of(rt, alloc, reads));
    let mut written = ShortWrites {
        bytes: Vec::new(alloc),
        most: writes,
    };
    let mut sink = WriteSink::new(&mut written);
    let status = replay(alloc, words.as_slice(), &mut source, &mut sink);
    drop(sink);
    check(rt, status == 0);
    written.bytes
}

/// What the process writes is appended to its log.
fn plays(rt: &impl Abort, alloc: Global, reads: usize, writes: usize) {
    let written = replayed(rt, alloc, reads, writes);
    let wanted = text_of(rt, alloc, FIRST_ORDERS, "append /o ");
    check(rt, written.as_slice() == wanted.as_slice());
}

#[test]
fn a_mebibyte_in_whole_pieces(rt: HostRuntime) {
    plays(&rt, rt.alloc(), 1_000_000, 1_000_000);
}

#[test]
fn a_mebibyte_with_shorter_reads_and_writes(rt: HostRuntime) {
    plays(&rt, rt.alloc(), 5_000, 3_000);
}

#[test]
fn a_mebibyte_a_few_bytes_at_a_time(rt: HostRuntime) {
    plays(&rt, rt.alloc(), 7, 5);
}
