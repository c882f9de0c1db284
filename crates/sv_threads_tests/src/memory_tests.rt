//! Notes that memory was refused to a job, before each other note.
ghost use Rattle.std.specs.Prelude.{None};

use crate::checks::check;
use crate::course::{Course, go_over};
use crate::parts::{TestJob, heard, parts_of};
use std::alloc::Global;
use std::process::Abort;
use std::sync::Wait;
use sv_base::{DaemonSignal, How, LinkId, Piece, Run, Signal, Stream, Text};
use sv_jobs::{AnyJob, Note};
use sv_lane::Poster;
use sv_outside::{Gate, NextFault, World};

/// A gate that runs no job. At the seat of the console it posts each kind of note but that of a link that was opened,
/// each after one that memory was refused.
#[derive(Drop)]
struct RefusingGate<R: Drop> {
    rt: R,
}

impl<R: Wait + Abort + std::time::Clock + Drop> Gate<TestJob<R>> for RefusingGate<R> {
    ghost ready = { λ g. Unit {0} };

    ghost kept = { λ g. None };

    ghost faults = { λ g. 0 };

    fn start(&mut self, job: TestJob<R>) -> Result<(), TestJob<R>> {
        let mut job = job;
        post_at_console(&self.rt, &mut job);
        Ok(())
    }
}

/// Posts all notes, where a job is that of the console.
fn post_at_console<R: Wait + Abort + std::time::Clock + Drop>(rt: &R, job: &mut TestJob<R>) {
    if let AnyJob::Console(console) = job {
        post_all(rt, console.alloc, &mut console.poster);
    }
}

/// Posts a note after one that memory was refused.
fn post_refused<R: Wait>(rt: &R, poster: &mut Poster<Note>, note: Note) {
    poster.post(rt, Note::NoMemory);
    poster.post(rt, note);
}

/// A piece of two bytes.
fn piece(rt: &impl Abort, alloc: Global) -> Piece {
    let bytes = Vec::from_slice(alloc, b"ab").expect(rt, "ample memory");
    Piece::new(bytes).expect(rt, "two bytes")
}

/// Posts a note of each kind: those that are inputs, and then those that are none.
fn post_all<R: Wait + Abort>(rt: &R, alloc: Global, poster: &mut Poster<Note>) {
    post_refused(rt, poster, Note::Tick);
    post_refused(rt, poster, Note::Exit(Run(1), How::Code(0)));
    let bytes = piece(rt, alloc);
    post_refused(rt, poster, Note::Out(Run(1), Stream::Out, bytes));
    post_refused(rt, poster, Note::OutEnd(Run(1), Stream::Out));
    let bytes = piece(rt, alloc);
    post_refused(rt, poster, Note::Piece(LinkId(1), bytes));
    post_refused(rt, poster, Note::LinkEnd(LinkId(1)));
    let signal = DaemonSignal::new(Signal::Term).expect(rt, "no HUP");
    post_refused(rt, poster, Note::Signal(signal));
    post_refused(rt, poster, Note::Start(Text::fixed("one")));
    post_refused(rt, poster, Note::Stop(Text::fixed("one")));
    post_refused(rt, poster, Note::Wrote(Run(1)));
    post_refused(rt, poster, Note::StdinEnd(Run(1)));
    post_refused(rt, poster, Note::Sent(LinkId(1)));
    post_refused(rt, poster, Note::Tick);
}

/// What is done: each time memory is refused first, and then comes the input; nothing is lost.
struct Refused;

impl Course for Refused {
    fn over<W: World>(&self, rt: &impl Abort, alloc: Global, world: &mut W) {
        for letter in "txoePLsab".chars() {
            check(rt, is_refused(alloc, world));
            check(rt, heard(rt, alloc, world) == letter);
        }
        for _ in 0..4 {
            check(rt, is_refused(alloc, world));
        }
        check(rt, heard(rt, alloc, world) == 't');
    }
}

/// Whether memory is refused where the next input is asked for.
fn is_refused<W: World>(alloc: Global, world: &mut W) -> bool {
    matches!(world.next(alloc), Err(NextFault::OutOfMemory))
}

#[test]
fn no_input_is_lost_where_memory_was_refused(rt: HostRuntime) {
    let parts = parts_of(rt, rt.alloc(), &[], None, "");
    go_over(rt, rt.alloc(), parts, RefusingGate { rt }, &Refused);
}
