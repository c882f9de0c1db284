//! Jobs in threads of their own.

use crate::checks::check;
use crate::telling::{Lane, bytes_of, lane_of};
use std::alloc::Global;
use std::process::Abort;
use std::sync::Wait;
use std::thread;
use std::thread::{JoinHandle, Threads};
use sv_base::{Bytes, Run, Stream};
use sv_jobs::{Note, StdinWord, pump, write_stdin};
use sv_lane::{Poster, Seats, Taker, lane};
use sv_out::sink::ListSink;
use sv_out::source::ListSource;
use sv_outside::PumpEnd;

/// A source of so many of this byte, which gives one at a time where it is slow.
fn source_of(rt: &impl Abort, alloc: Global, byte: u8, count: usize, is_slow: bool) -> ListSource {
    let bytes = Vec::from_elem(alloc, byte, count).expect(rt, "memory");
    ListSource::new(bytes, if is_slow { 1 } else { 65_536 }, Vec::new(alloc))
}

/// A pump of a source in a thread of its own.
fn start_pump<R: Abort + Threads + Wait + Copy + Send + 'static>(
    rt: R,
    alloc: Global,
    source: ListSource,
    stream: Stream,
    seats: &mut Seats<Note>,
) -> JoinHandle<PumpEnd> {
    let mut source = source;
    let mut seat = seats.seat().expect(&rt, "memory");
    thread::spawn(&rt, move || {
        pump(&rt, alloc, &mut source, Run(1), stream, &mut seat)
    })
    .expect(&rt, "memory")
}

/// A writer of these words in a thread of its own.
fn start_writer<R: Abort + Threads + Wait + Copy + Send + 'static>(
    rt: R,
    alloc: Global,
    words: Taker<StdinWord>,
    seats: &mut Seats<Note>,
) -> JoinHandle<PumpEnd> {
    let mut words = words;
    let mut seat = seats.seat().expect(&rt, "memory");
    let mut sink = ListSink::new(alloc, 3, Vec::new(alloc));
    thread::spawn(&rt, move || {
        write_stdin(&rt, &mut sink, Run(1), &mut seat, &mut words)
    })
    .expect(&rt, "memory")
}

/// Two pumps and a writer, each in a thread of its own, and the poster of the writer's words.
#[derive(Drop)]
struct Jobs {
    out: JoinHandle<PumpEnd>,
    err: JoinHandle<PumpEnd>,
    stdin: JoinHandle<PumpEnd>,
    words: Poster<StdinWord>,
}

/// A pump of a thousand bytes, one at a time, in a thread of its own.
fn start_out<R: Abort + Threads + Wait + Copy + Send + 'static>(
    rt: R,
    alloc: Global,
    seats: &mut Seats<Note>,
) -> JoinHandle<PumpEnd> {
    let source = source_of(&rt, alloc, b'o', 1_000, true);
    start_pump(rt, alloc, source, Stream::Out, seats)
}

/// A pump of a hundred thousand bytes in a thread of its own.
fn start_err<R: Abort + Threads + Wait + Copy + Send + 'static>(
    rt: R,
    alloc: Global,
    seats: &mut Seats<Note>,
) -> JoinHandle<PumpEnd> {
    let source = source_of(&rt, alloc, b'e', 100_000, false);
    start_pump(rt, alloc, source, Stream::Err, seats)
}

fn start_jobs<R: Abort + Threads + Wait + Copy + Send + 'static>(
    rt: R,
    alloc: Global,
    seats: &mut Seats<Note>,
) -> Jobs {
    let Lane { taker, poster } = lane_of(&rt, alloc);
    Jobs {
        out: start_out(rt, alloc, seats),
        err: start_err(rt, alloc, seats),
        stdin: start_writer(rt, alloc, taker, seats),
        words: poster,
    }
}

/// Has `in` written, and the standard input closed.
fn post_words<R: Abort + Wait>(rt: &R, alloc: Global, words: &mut Poster<StdinWord>) {
    words.post(
        rt,
        StdinWord::Write(Bytes::from_vec(bytes_of(rt, alloc, "in"))),
    );
    words.post(rt, StdinWord::Close);
}

/// What was heard of the jobs.
#[derive(Drop)]
struct Heard {
    out_bytes: usize,
    err_bytes: usize,
    wrote: u8,
    ends: u8,
}

/// Counts a note.
fn count(rt: &impl Abort, heard: &mut Heard, note: &Note) {
    match note {
        Note::Out(_, Stream::Out, piece) => {
            heard.out_bytes = heard.out_bytes.wrapping_add(piece.as_slice().len())
        }
        Note::Out(_, Stream::Err, piece) => {
            heard.err_bytes = heard.err_bytes.wrapping_add(piece.as_slice().len())
        }
        Note::Wrote(_) => heard.wrote = heard.wrote.wrapping_add(1),
        Note::OutEnd(_, _) | Note::StdinEnd(_) => heard.ends = heard.ends.wrapping_add(1),
        _ => panic!(rt; "another note"),
    }
}

/// Hears all bytes of both streams, a whole write and three ends.
fn hear_jobs<R: Abort + Wait>(rt: &R, notes: &mut Taker<Note>) {
    let mut heard = Heard {
        out_bytes: 0,
        err_bytes: 0,
        wrote: 0,
        ends: 0,
    };
    for _ in 0..2_000 {
        if heard.ends == 3 {
            break;
        }
        count(rt, &mut heard, &notes.take(rt));
    }
    check(rt, heard.out_bytes == 1_000 && heard.err_bytes == 100_000);
    check(rt, heard.wrote == 1 && heard.ends == 3);
}

/// A job ends.
fn ends<R: Abort + Threads>(rt: &R, job: JoinHandle<PumpEnd>) {
    check(rt, job.join(rt) == PumpEnd::Ended);
}

/// All three jobs end.
fn join_jobs<R: Abort + Threads>(rt: &R, jobs: Jobs) {
    ends(rt, jobs.out);
    ends(rt, jobs.err);
    ends(rt, jobs.stdin);
}

#[test]
fn two_pumps_and_a_writer_beside_the_loop(rt: HostRuntime) {
    let (mut notes, mut seats) = lane(rt.alloc(), 4).expect(&rt, "memory");
    let mut jobs = start_jobs(rt, rt.alloc(), &mut seats);
    post_words(&rt, rt.alloc(), &mut jobs.words);
    hear_jobs(&rt, &mut notes);
    join_jobs(&rt, jobs);
}
