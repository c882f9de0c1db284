//! The pump: it brings what a run writes to one of its output streams.
ghost use Rattle.std.specs.Prelude.{◌≡◌};
ghost use Rattle.std.specs.Io.KnownBytes.{IsAtEnd};
ghost use Rattle.sv_jobs.specs.Pumping.{Pumped, Pumping};
ghost use Rattle.sv_lane.specs.Ends.{IsSameSeat, posted};
ghost use Rattle.sv_out.specs.Faults.{RisesWhere};

use crate::ending::post_end;
use crate::notes::Note;
use crate::reading::{ReadResult, read_piece};
use crate::room::Room;
use std::alloc::Global;
use std::sync::Wait;
use sv_base::{Run, Stream};
use sv_lane::Poster;
use sv_out::source::Source;
use sv_outside::PumpEnd;

/// Posts each piece of the source, and then the end of the stream, also after a failure or where memory was refused; the
/// refusal is told just before that. Answers `Ended` where the source is at its end, and `Failed` only where its count of
/// faults rose. It may wait for the source and for the lane, and then it may never return.
#[inline(never)]
pub fn pump<S: Source, R: Wait>(
    rt: &R,
    alloc: Global,
    source: &mut S,
    run: Run,
    stream: Stream,
    poster: &mut Poster<Note>,
) -> PumpEnd
    ensures pumped { Pumped run stream result (S.left source.old) (S.left source.new)
        (posted poster.old) (posted poster.new) }
    ensures cause { RisesWhere (S.faults source.old) (S.faults source.new)
        (result ≡ PumpEnd.Failed) }
    ensures seat { IsSameSeat poster.old poster.new }
{
    let end = pump_pieces(rt, alloc, source, run, stream, poster);
    post_end(rt, poster, end, Note::OutEnd(run, stream));
    end
}

/// Posts each piece of the source.
fn pump_pieces<S: Source, R: Wait>(
    rt: &R,
    alloc: Global,
    source: &mut S,
    run: Run,
    stream: Stream,
    poster: &mut Poster<Note>,
) -> PumpEnd
    ensures pumping { Pumping run stream (S.left source.old) (S.left source.new)
        (posted poster.old) (posted poster.new) }
    ensures end { result ≡ PumpEnd.Ended → IsAtEnd (S.left source.new) }
    ensures cause { RisesWhere (S.faults source.old) (S.faults source.new)
        (result ≡ PumpEnd.Failed) }
    ensures seat { IsSameSeat poster.old poster.new }
{
    let mut room = Room::first();
    for _ in rt.forever() {
        match read_piece(alloc, source, &mut room) {
            ReadResult::Piece(piece) => poster.post(rt, Note::Out(run, stream, piece)),
            ReadResult::End => return PumpEnd::Ended,
            ReadResult::Failed => return PumpEnd::Failed,
            ReadResult::OutOfMemory => return PumpEnd::OutOfMemory,
        }
    }
    unreachable!()
}
