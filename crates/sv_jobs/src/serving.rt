//! What reads and writes one link.
ghost use Rattle.std.specs.Prelude.{◌≡◌};
ghost use Rattle.sv_jobs.specs.Serving.{Served, Serving};
ghost use Rattle.sv_lane.specs.Ends.{IsSameSeat, IsSameTaker, posted, taken};
ghost use Rattle.sv_out.specs.Faults.{RisesWhere};

use crate::ending::post_end;
use crate::notes::{LinkWord, Note};
use crate::reading::{ReadResult, hear_piece};
use crate::room::Room;
use std::alloc::Global;
use std::sync::Wait;
use sv_base::LinkId;
use sv_lane::{Poster, Taker};
use sv_out::{Link, send_all};
use sv_outside::PumpEnd;

/// Works off the words that it takes: at More it reads one piece and posts it, at Send it writes the bytes and posts that
/// they were sent. At a Close and at the end of the input it ends with `Ended`, at a failure with `Failed`, only where
/// the link's count of faults rose, and where memory was refused with `OutOfMemory`. Its last note is that the link is
/// over; a refusal is told just before that.
#[inline(never)]
pub fn serve_link<K: Link, R: Wait>(
    rt: &R,
    alloc: Global,
    link: &mut K,
    number: LinkId,
    poster: &mut Poster<Note>,
    taker: &mut Taker<LinkWord>,
) -> PumpEnd
    ensures served { Served number result (K.told link.old) (K.told link.new)
        (taken taker.old) (taken taker.new) (posted poster.old) (posted poster.new) }
    ensures cause { RisesWhere (K.faults link.old) (K.faults link.new) (result ≡ PumpEnd.Failed) }
    ensures seat { IsSameSeat poster.old poster.new }
    ensures taker { IsSameTaker taker.old taker.new }
{
    let end = serve_words(rt, alloc, link, number, poster, taker);
    post_end(rt, poster, end, Note::LinkEnd(number));
    end
}

/// Works off the words up to the last.
fn serve_words<K: Link, R: Wait>(
    rt: &R,
    alloc: Global,
    link: &mut K,
    number: LinkId,
    poster: &mut Poster<Note>,
    taker: &mut Taker<LinkWord>,
) -> PumpEnd
    ensures serving { Serving number result (K.told link.old) (K.told link.new)
        (taken taker.old) (taken taker.new) (posted poster.old) (posted poster.new) }
    ensures cause { RisesWhere (K.faults link.old) (K.faults link.new) (result ≡ PumpEnd.Failed) }
    ensures seat { IsSameSeat poster.old poster.new }
    ensures taker { IsSameTaker taker.old taker.new }
{
    let mut room = Room::first();
    for _ in rt.forever() {
        match taker.take(rt) {
            LinkWord::Close => return PumpEnd::Ended,
            LinkWord::Send(bytes) => {
                let Ok(()) = send_all(link, bytes.as_slice()) else {
                    return PumpEnd::Failed;
                };
                poster.post(rt, Note::Sent(number));
            }
            LinkWord::More => match hear_piece(alloc, link, &mut room) {
                ReadResult::Piece(piece) => poster.post(rt, Note::Piece(number, piece)),
                ReadResult::End => return PumpEnd::Ended,
                ReadResult::Failed => return PumpEnd::Failed,
                ReadResult::OutOfMemory => return PumpEnd::OutOfMemory,
            },
        }
    }
    unreachable!()
}
