//! The watch: it brings the end of a run's process.
ghost use Rattle.std.specs.Prelude.{◌≡◌, ◌++◌, ◌∷◌, []};
ghost use Rattle.sv_jobs.specs.Watching.{Watched};
ghost use Rattle.sv_lane.specs.Ends.{IsSameSeat, posted};
ghost use Rattle.sv_out.specs.Faults.{RisesWhere};

use crate::notes::Note;
use std::sync::Wait;
use sv_base::{How, Run};
use sv_lane::Poster;
use sv_outside::{PumpEnd, Waiter};

/// Waits for the end of a process and posts it; where the waiter failed, an exit with the code 255. Answers `Failed`
/// exactly then, and so only where the waiter's count of faults rose. It takes no memory.
#[inline(never)]
pub fn watch<W: Waiter, R: Wait>(
    rt: &R,
    waiter: &mut W,
    run: Run,
    poster: &mut Poster<Note>,
) -> PumpEnd
    ensures watched { Watched W.answers run result waiter.old waiter.new (posted poster.old)
        (posted poster.new) }
    ensures cause { RisesWhere (W.faults waiter.old) (W.faults waiter.new)
        (result ≡ PumpEnd.Failed) }
    ensures seat { IsSameSeat poster.old poster.new }
{
    match waiter.wait() {
        Ok(how) => {
            poster.post(rt, Note::Exit(run, how));
            PumpEnd::Ended
        }
        Err(_) => {
            poster.post(rt, Note::Exit(run, How::Code(255)));
            PumpEnd::Failed
        }
    }
}
