//! What writes a run's standard input.
ghost use Rattle.std.specs.Prelude.{◌≡◌};
ghost use Rattle.sv_jobs.specs.StdinWriting.{Wrote, Writing};
ghost use Rattle.sv_lane.specs.Ends.{IsSameSeat, IsSameTaker, posted, taken};
ghost use Rattle.sv_out.specs.Faults.{RisesWhere};

use crate::notes::{Note, StdinWord};
use std::sync::Wait;
use sv_base::Run;
use sv_lane::{Poster, Taker};
use sv_out::sink::{Sink, write_all};
use sv_outside::PumpEnd;

/// Writes the bytes of each word that it takes, and posts that they were written; at a Close it ends, with `Ended`. A
/// failed write ends it with `Failed`, only where the sink's count of faults rose. Its last note tells that nothing more
/// is written. It takes no memory.
#[inline(never)]
pub fn write_stdin<K: Sink, R: Wait>(
    rt: &R,
    sink: &mut K,
    run: Run,
    poster: &mut Poster<Note>,
    taker: &mut Taker<StdinWord>,
) -> PumpEnd
    ensures wrote { Wrote run result (K.written sink.old) (K.written sink.new)
        (taken taker.old) (taken taker.new) (posted poster.old) (posted poster.new) }
    ensures cause { RisesWhere (K.faults sink.old) (K.faults sink.new) (result ≡ PumpEnd.Failed) }
    ensures seat { IsSameSeat poster.old poster.new }
    ensures taker { IsSameTaker taker.old taker.new }
{
    let end = write_words(rt, sink, run, poster, taker);
    poster.post(rt, Note::StdinEnd(run));
    end
}

/// Writes the words up to the last.
fn write_words<K: Sink, R: Wait>(
    rt: &R,
    sink: &mut K,
    run: Run,
    poster: &mut Poster<Note>,
    taker: &mut Taker<StdinWord>,
) -> PumpEnd
    ensures writing { Writing run result (K.written sink.old) (K.written sink.new)
        (taken taker.old) (taken taker.new) (posted poster.old) (posted poster.new) }
    ensures cause { RisesWhere (K.faults sink.old) (K.faults sink.new) (result ≡ PumpEnd.Failed) }
    ensures seat { IsSameSeat poster.old poster.new }
    ensures taker { IsSameTaker taker.old taker.new }
{
    for _ in rt.forever() {
        let StdinWord::Write(bytes) = taker.take(rt) else {
            return PumpEnd::Ended;
        };
        let Ok(()) = write_all(sink, bytes.as_slice()) else {
            return PumpEnd::Failed;
        };
        poster.post(rt, Note::Wrote(run));
    }
    unreachable!()
}
