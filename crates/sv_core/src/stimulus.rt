//! Step 2 of a turn.
ghost use Rattle.std.specs.Prelude.{◌≡◌, IfOk, IsTrue};
ghost use Rattle.sv_core.specs.Frames.{MovesOn, Stops};
ghost use Rattle.sv_core.specs.StandsFor.{is_sound, paused};
ghost use Rattle.sv_core.specs.Turn.{applies};

use crate::machine::Machine;
use crate::part::Cause;
use crate::place::Paused;
use std::alloc::AllocError;
use sv_base::state::Mood;
use sv_children::News;

impl Machine {
    /// Step 2 of a turn, up to a question: what began the turn is applied. While the daemon ends, the console starts
    /// nothing.
    #[tactic(auto, unfolding(crate::specs::StandsFor::paused))]
    pub(crate) fn apply(&mut self, cause: Cause) -> Result<Option<Paused>, AllocError>
        requires { IsTrue (is_sound self.old.links cause) }
        ensures kept { MovesOn self.old self.new }
        ensures applies { IfOk result (λ left.
            Stops (applies cause) (paused left) self.old self.new) }
    {
        match cause {
            Cause::Tick => Ok(None),
            Cause::Opened(link, side) => {
                self.open_link(link, side)?;
                Ok(None)
            }
            Cause::Brought(link, piece) => {
                self.links.feed(self.alloc, link, piece.as_slice())?;
                Ok(None)
            }
            Cause::LinkEnd(link) => {
                self.links.end(link);
                Ok(None)
            }
            Cause::Exit(run, how) => {
                self.exit(run, how)?;
                Ok(None)
            }
            Cause::Heard(run, stream, piece) => {
                self.hear_on(stream, run, &piece)?;
                Ok(None)
            }
            Cause::PipeEnd(run, stream) => {
                self.end_pipe(run, stream)?;
                Ok(None)
            }
            Cause::Start(name) if self.course.mood == Mood::Running => {
                let span = self.children.meant(&name);
                self.sweep_over(News::Start, span.from, span.to)
            }
            Cause::Start(_) => Ok(None),
            Cause::Stop(name) => {
                let span = self.children.meant(&name);
                self.stop_all(span)?;
                Ok(None)
            }
            Cause::Signal(signal) => {
                self.heed(&signal)?;
                Ok(None)
            }
        }
    }
}
