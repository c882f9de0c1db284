//! How notes become inputs, and what they change on the loop's side.
ghost use Rattle.std.specs.Prelude.{◌≡◌, IfOk, OnErr};
ghost use Rattle.sv_lane.specs.Ends.{taken};
ghost use Rattle.sv_threads.specs.Hearing.{Hears, HearsNote, KeepsLinks, Refuses, Settles};
ghost use Rattle.sv_threads.specs.Hearing.{SettlesTaken, count_after_call};
ghost use Rattle.sv_threads.specs.Opening.{IsSilent};

use crate::opening::open;
use crate::world::Accepted;
use std::alloc::AllocError;
use std::sync::Wait;
use sv_jobs::Note;
use sv_lane::Taker;
use sv_out::input::Input;
use sv_outside::Clock;
use sv_parts::links::LiveLinks;
use sv_parts::runs::LiveRuns;

/// Waits for the next note that is an input, and stamps it with the clock's moment. The notes before it change only what
/// is known of runs and links. At a note that memory was refused to a job, memory is refused here.
pub(crate) fn hear<P: Drop, K: Drop, C: Clock, R: Wait>(
    rt: &R,
    notes: &mut Taker<Note>,
    clock: &mut C,
    accepted: &mut Accepted<K>,
    runs: &mut LiveRuns<P>,
    links: &mut LiveLinks<K>,
) -> Result<Input, AllocError>
    ensures hears { IfOk result (Hears (C.next clock.old) links.old.count
        (taken notes.old) (taken notes.new)) }
    ensures refuses { OnErr result (Refuses links.old.count (taken notes.old) (taken notes.new)) }
    ensures known { SettlesTaken (taken notes.old) (taken notes.new)
        runs.old runs.new links.old links.new }
    ensures count { links.new.count ≡ count_after_call result links.old.count }
    ensures spawner { runs.new.spawner ≡ runs.old.spawner }
{
    for _ in rt.forever() {
        let note = notes.take(rt);
        settle(rt, runs, links, &note);
        match input_of(rt, clock, accepted, links, note)? {
            Some(input) => return Ok(input),
            None => {}
        }
    }
    unreachable!()
}

/// What a note changes of what is known of runs and links.
fn settle<P: Drop, K: Drop, R: Wait>(
    rt: &R,
    runs: &mut LiveRuns<P>,
    links: &mut LiveLinks<K>,
    note: &Note,
)
    ensures settles { Settles note.now runs.old runs.new links.old links.new }
    ensures spawner { runs.new.spawner ≡ runs.old.spawner }
    ensures count { links.new.count ≡ links.old.count }
{
    match note {
        Note::Exit(run, _) => {
            let _closed = runs.exited(rt, *run);
        }
        Note::Wrote(run) => runs.wrote(*run),
        Note::StdinEnd(run) => runs.stdin_ended(*run),
        Note::Sent(link) => links.sent(*link),
        Note::LinkEnd(link) => links.ended(*link),
        Note::Tick
        | Note::Out(_, _, _)
        | Note::OutEnd(_, _)
        | Note::Open(_)
        | Note::Piece(_, _)
        | Note::Signal(_)
        | Note::Start(_)
        | Note::Stop(_)
        | Note::NoMemory => {}
    }
}

/// A note as an input, at the clock's moment; `None` for one that tells no input.
fn input_of<K: Drop, C: Clock, R: Wait>(
    rt: &R,
    clock: &mut C,
    accepted: &mut Accepted<K>,
    links: &mut LiveLinks<K>,
    note: Note,
) -> Result<Option<Input>, AllocError>
    ensures hears { HearsNote note (C.next clock.old) links.old.count result }
    ensures clock { IsSilent result → clock.new ≡ clock.old }
    ensures links { KeepsLinks result links.old links.new }
{
    Ok(Some(match note {
        Note::Tick => Input::Tick { at: clock.now() },
        Note::Exit(run, how) => Input::Exit {
            at: clock.now(),
            run,
            how,
        },
        Note::Out(run, stream, bytes) => Input::Out {
            at: clock.now(),
            run,
            stream,
            bytes,
        },
        Note::OutEnd(run, stream) => Input::OutEnd {
            at: clock.now(),
            run,
            stream,
        },
        Note::Open(side) => return open(rt, clock, accepted, links, side),
        Note::Piece(link, bytes) => Input::Piece {
            at: clock.now(),
            link,
            bytes,
        },
        Note::LinkEnd(link) => Input::LinkEnd {
            at: clock.now(),
            link,
        },
        Note::Signal(signal) => Input::Signal {
            at: clock.now(),
            signal,
        },
        Note::Start(name) => Input::Start {
            at: clock.now(),
            name,
        },
        Note::Stop(name) => Input::Stop {
            at: clock.now(),
            name,
        },
        Note::Wrote(_) | Note::StdinEnd(_) | Note::Sent(_) => return Ok(None),
        Note::NoMemory => return Err(AllocError),
    }))
}
