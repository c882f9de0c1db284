//! A turn: its nine steps in order, up to a question, and what followed its input.
ghost use Rattle.std.specs.Prelude.{◌≡◌, ◌-◌, IsTrue, List, None, OnOk, Some};
ghost use Rattle.sv_core.specs.Frames.{GoesOn, Makes};
ghost use Rattle.sv_core.specs.Left.{serving_answered};
ghost use Rattle.sv_core.specs.Failure.{refusal_of};
ghost use Rattle.sv_core.specs.StandsFor.{At, Shows, is_sound, question_of, rest};
ghost use Rattle.sv_core.specs.Turn.{turn, come, after_links, after_pass, after_stimulus, rewinds};
ghost use Rattle.sv_core.specs.Turn.{applies, passes, world_of};
ghost use Rattle.sv_core.specs.Sweeps.{Turn, sweeps};
ghost use Rattle.sv_core.specs.Moves.{answered};
ghost use Rattle.sv_core.specs.World.{World};
ghost use Rattle.sv_out.specs.declared.order.Order.{Order};

use crate::failure::Failure;
use crate::machine::Machine;
use crate::part::{Cause, Followed, Reply, refusal_of};
use crate::place::{Paused, Serving, Suspended, question_of};
use std::alloc::AllocError;
use sv_base::moment::Moment;
use sv_base::state::Mood;
use sv_children::News;

impl Machine {
    /// A turn begins: steps 0 to 2, up to a question, and then the others.
    pub(crate) fn begin(&mut self, at: Moment, cause: Cause) -> Result<(), AllocError>
        requires { IsTrue (is_sound self.old.links cause) }
        ensures kept { GoesOn self.old self.new }
        ensures turn { OnOk result ((older : List Order) (w : World) → Shows self.old older w
            → At self.new older (turn cause at (world_of (rest self.old.hand.place w)))
            (rest self.new.hand.place)) }
    {
        self.announce()?;
        self.rewind(at);
        match cause {
            Cause::Tick => {
                self.after_stimulus()?;
                Ok(())
            }
            cause => {
                self.stimulate(cause)?;
                Ok(())
            }
        }
    }

    /// Step 2, up to a question, and then the others.
    #[inline(never)]
    fn stimulate(&mut self, cause: Cause) -> Result<(), AllocError>
        requires { IsTrue (is_sound self.old.links cause) }
        ensures kept { GoesOn self.old self.new }
        ensures turn { OnOk result ((older : List Order) (w : World) → Shows self.old older w
            → At self.new older (applies cause w after_stimulus) (rest self.new.hand.place)) }
    {
        match self.apply(cause)? {
            Some(paused) => {
                self.hand.place = Some(Suspended::Stimulus(paused));
                Ok(())
            }
            None => {
                self.after_stimulus()?;
                Ok(())
            }
        }
    }

    /// Steps 3 and 4, up to a question, and then the others.
    pub(crate) fn after_stimulus(&mut self) -> Result<(), AllocError>
        ensures kept { GoesOn self.old self.new }
        ensures rest { OnOk result ((older : List Order) (w : World) → Shows self.old older w
            → At self.new older (after_stimulus w) (rest self.new.hand.place)) }
    {
        self.tick()?;
        if self.rests() {
            return Ok(());
        }
        let all = self.children.len();
        match self.sweep_over(News::Time, 0, all)? {
            Some(paused) => {
                self.hand.place = Some(Suspended::Pass(paused));
                Ok(())
            }
            None => {
                self.after_pass()?;
                Ok(())
            }
        }
    }

    /// Whether nothing is left to do in this turn, as far as that can be seen without looking at a child: no question stands,
    /// the daemon doesn't end, no link is open, no event waits, and no child has woken.
    fn rests(&self) -> bool
        ensures place { IsTrue result → self.now.hand.place ≡ None }
        ensures rests { IsTrue result → (older : List Order) (w : World) → Shows self.now older w
            → passes w after_pass ≡ Turn.Done w }
    {
        if self.hand.place.is_some() || self.course.mood != Mood::Running {
            return false;
        }
        if !self.links.are_idle() || self.pools.some_wait() {
            return false;
        }
        self.children.all_sleep(self.hand.moment)
    }

    /// Step 5, the links, up to a question, and then the others.
    #[inline(never)]
    pub(crate) fn after_pass(&mut self) -> Result<(), AllocError>
        ensures kept { GoesOn self.old self.new }
        ensures rest { OnOk result ((older : List Order) (w : World) → Shows self.old older w
            → At self.new older (after_pass w) (rest self.new.hand.place)) }
    {
        match self.serve_links()? {
            Some(serving) => {
                self.hand.place = Some(Suspended::Links(serving));
                Ok(())
            }
            None => {
                self.after_links()?;
                Ok(())
            }
        }
    }

    /// Steps 6 to 8: the stop plan, the pools, and the halt.
    pub(crate) fn after_links(&mut self) -> Result<(), AllocError>
        ensures kept { GoesOn self.old self.new }
        ensures rest { OnOk result ((older : List Order) (w : World) → Shows self.old older w
            → At self.new older (after_links w) (rest self.new.hand.place)) }
    {
        self.follow_plan()?;
        self.hand_out()?;
        self.halt()?;
        self.hand.place = None;
        Ok(())
    }

    /// Something followed the input of the turn in hand.
    pub(crate) fn follow(&mut self, followed: Followed) -> Result<(), AllocError>
        ensures kept { GoesOn self.old self.new }
        ensures turn { OnOk result ((older : List Order) (w : World) → Shows self.old older w
            → At self.new older (come (rest self.old.hand.place w) followed)
            (rest self.new.hand.place)) }
    {
        match followed {
            Followed::Answered(reply) => {
                self.go_on_with(reply)?;
                Ok(())
            }
            Followed::Failed(failure) => {
                self.suffer(failure)?;
                Ok(())
            }
        }
    }

    /// The refusal of the question that stands, if one stands.
    fn refusal(&self) -> Reply
        ensures { result ≡ refusal_of (question_of self.now.hand.place) }
    {
        refusal_of(question_of(&self.hand.place))
    }

    /// An order couldn't be carried out.
    fn suffer(&mut self, failure: Failure) -> Result<(), AllocError>
        ensures kept { GoesOn self.old self.new }
        ensures turn { OnOk result ((older : List Order) (w : World) → Shows self.old older w
            → At self.new older (come (rest self.old.hand.place w) (Followed.Failed failure))
            (rest self.new.hand.place)) }
    {
        match failure {
            Failure::RefusesQuestion => {
                let refusal = self.refusal();
                self.go_on_with(refusal)?;
                Ok(())
            }
            Failure::LosesStdin(run) => {
                self.lose_stdin(run)?;
                Ok(())
            }
            Failure::LosesLink(link) => {
                self.links.lose(link);
                Ok(())
            }
            Failure::ChangesNothing | Failure::NeverFails => Ok(()),
        }
    }

    /// The turn in hand goes on with the answer of its question, if one stands.
    fn go_on_with(&mut self, reply: Reply) -> Result<(), AllocError>
        ensures kept { GoesOn self.old self.new }
        ensures turn { OnOk result ((older : List Order) (w : World) → Shows self.old older w
            → At self.new older (come (rest self.old.hand.place w) (Followed.Answered reply))
            (rest self.new.hand.place)) }
    {
        match self.hand.place.take() {
            None => Ok(()),
            Some(place) => {
                self.go_on_from(place, reply)?;
                Ok(())
            }
        }
    }

    /// The turn goes on from where it was left, with the answer of its question.
    fn go_on_from(&mut self, place: Suspended, reply: Reply) -> Result<(), AllocError>
        ensures kept { GoesOn self.old self.new }
        ensures turn { OnOk result ((older : List Order) (w : World) → Shows self.old older w
            → At self.new older (come (rest (Some place) w) (Followed.Answered reply))
            (rest self.new.hand.place)) }
    {
        match place {
            Suspended::Stimulus(paused) => {
                self.go_on_in_stimulus(paused, reply)?;
                Ok(())
            }
            Suspended::Pass(paused) => {
                self.go_on_in_pass(paused, reply)?;
                Ok(())
            }
            Suspended::Links(serving) => {
                self.go_on_in_links(serving, reply)?;
                Ok(())
            }
        }
    }

    /// Step 2 goes on with the answer of its question, and then the others.
    fn go_on_in_stimulus(&mut self, paused: Paused, reply: Reply) -> Result<(), AllocError>
        ensures kept { GoesOn self.old self.new }
        ensures turn { OnOk result ((older : List Order) (w : World) → Shows self.old older w
            → let asked = paused.stop.asked in
            At self.new older (sweeps paused.news (paused.to - paused.stop.next) paused.stop.next
            (answered asked.child asked.run reply w) after_stimulus) (rest self.new.hand.place)) }
    {
        self.answer(paused.stop.asked, reply)?;
        match self.sweep_over(paused.news, paused.stop.next, paused.to)? {
            Some(paused) => {
                self.hand.place = Some(Suspended::Stimulus(paused));
                Ok(())
            }
            None => {
                self.after_stimulus()?;
                Ok(())
            }
        }
    }

    /// Step 4 goes on with the answer of its question, and then the others.
    fn go_on_in_pass(&mut self, paused: Paused, reply: Reply) -> Result<(), AllocError>
        ensures kept { GoesOn self.old self.new }
        ensures turn { OnOk result ((older : List Order) (w : World) → Shows self.old older w
            → let asked = paused.stop.asked in
            At self.new older (sweeps paused.news (paused.to - paused.stop.next) paused.stop.next
            (answered asked.child asked.run reply w) after_pass) (rest self.new.hand.place)) }
    {
        self.answer(paused.stop.asked, reply)?;
        match self.sweep_over(paused.news, paused.stop.next, paused.to)? {
            Some(paused) => {
                self.hand.place = Some(Suspended::Pass(paused));
                Ok(())
            }
            None => {
                self.after_pass()?;
                Ok(())
            }
        }
    }

    /// Step 5 goes on with the answer of its question, and then the others.
    fn go_on_in_links(&mut self, left: Serving, reply: Reply) -> Result<(), AllocError>
        ensures kept { GoesOn self.old self.new }
        ensures turn { OnOk result ((older : List Order) (w : World) → Shows self.old older w
            → At self.new older (serving_answered left reply w after_links)
            (rest self.new.hand.place)) }
    {
        match self.go_on_serving(left, reply)? {
            Some(serving) => {
                self.hand.place = Some(Suspended::Links(serving));
                Ok(())
            }
            None => {
                self.after_links()?;
                Ok(())
            }
        }
    }

    /// Step 1: the turn's moment has come.
    fn rewind(&mut self, at: Moment)
        ensures kept { self.new ≡ record self.old {
          children = self.new.children;
          hand = record self.old.hand { moment = self.new.hand.moment };
        } }
        ensures rewound { Makes (rewinds at) self.old self.new }
    {
        self.children.rewind(at);
        self.hand.moment = at;
    }
}
