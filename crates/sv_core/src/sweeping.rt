//! News on their way over children, up to a question.
ghost use Rattle.std.specs.Prelude.{◌≡◌, ◌≤◌, ◌-◌, ℕ, List, MatchOption, None, IfOk, OnOk};
ghost use Rattle.sv_children.specs.Crew.{member_at};
ghost use Rattle.sv_children.specs.News.{deed_of, step_of, stimulus_of, stimulus_told};
ghost use Rattle.sv_core.specs.Frames.{GivesOrders, HearsListeners, Makes, MovesChildren};
ghost use Rattle.sv_core.specs.Frames.{StartsRuns, Stops};
ghost use Rattle.sv_core.specs.Moves.{answered, begins_as, begins_output, comes, is_listener_of};
ghost use Rattle.sv_core.specs.Moves.{kills, reported, says};
ghost use Rattle.sv_core.specs.StandsFor.{Shows, paused, stopped, swept};
ghost use Rattle.sv_core.specs.Sweeps.{IsMet, PassBy, carries_out, spawns, does, does_noted, meets};
ghost use Rattle.sv_core.specs.Sweeps.{sweeps};
ghost use Rattle.sv_core.specs.World.{World};
ghost use Rattle.sv_children.specs.Lines.EdgeLines.{how_of};
ghost use Rattle.sv_out.specs.declared.order.Order.{Order};

use crate::machine::Machine;
use crate::part::{Reply, started_as, told_of};
use crate::place::{Asked, Pause, Paused};
use std::alloc::AllocError;
use sv_base::ids::Run;
use sv_base::signal::Signal;
use sv_base::state::How;
use sv_base::text::Text;
use sv_child::step::{ChildDeed, Step};
use sv_children::lines::{how_of, killing_at, spawned_at};
use sv_children::{News, Told, pid_at};
use sv_out::order::Order;

/// The last number of a run.
pub(crate) const LAST_RUN: u64 = 4_294_967_295;

impl Machine {
    /// Reports the edges that a child took, if it took a step, with their events, and answers what is to be done for it.
    /// Its process had this number before.
    fn report(
        &mut self,
        how: Option<How>,
        child: usize,
        pid: u32,
        step: Option<Step>,
    ) -> Result<Option<ChildDeed>, AllocError>
        ensures kept { GivesOrders self.old self.new }
        ensures reports { OnOk result (Makes (reported how child pid step) self.old self.new) }
        ensures deed { IfOk result (λ deed. deed ≡ deed_of step) }
    {
        match step {
            None => Ok(None),
            Some(step) => {
                self.go_edges(&how, child, pid, &step.edges)?;
                Ok(step.deed)
            }
        }
    }

    /// News come to the child of a place, which takes its step. Answers what is then to be done for it.
    pub(crate) fn bring(
        &mut self,
        news: &News,
        child: usize,
    ) -> Result<Option<ChildDeed>, AllocError>
        ensures kept { MovesChildren self.old self.new }
        ensures moves { OnOk result
            (Makes (comes (how_of news.now) (stimulus_of news.now) child) self.old self.new) }
        ensures deed { IfOk result (λ deed. (older : List Order) (w : World)
            → Shows self.old older w
            → deed ≡ deed_of (step_of (says (stimulus_of news.now) child w))) }
    {
        let pid = pid_at(&self.children, child);
        let step = self
            .children
            .bring(child, news, self.course.mood, self.hand.moment);
        let deed = self.report(how_of(news), child, pid, step)?;
        Ok(deed)
    }

    /// The spawn of a child is answered.
    pub(crate) fn answer(&mut self, asked: Asked, reply: Reply) -> Result<(), AllocError>
        ensures kept { StartsRuns self.old self.new }
        ensures answered { OnOk result
            (Makes (answered asked.child asked.run reply) self.old self.new) }
    {
        let started = started_as(&reply);
        self.tell_child(asked, told_of(reply))?;
        self.begin_run(asked, started)?;
        Ok(())
    }

    /// A child is told of its spawn.
    fn tell_child(&mut self, asked: Asked, told: Told) -> Result<(), AllocError>
        ensures kept { MovesChildren self.old self.new }
        ensures told { OnOk result
            (Makes (comes None (stimulus_told asked.run told) asked.child) self.old self.new) }
    {
        let pid = pid_at(&self.children, asked.child);
        let step = self
            .children
            .answer(asked.child, asked.run, told, self.hand.moment);
        self.report(None, asked.child, pid, step)?;
        Ok(())
    }

    /// Whether the process of a place is a listener.
    fn is_listener(&self, child: usize) -> bool
        ensures { result ≡ is_listener_of (member_at self.now.children child) }
    {
        match self.children.member(child) {
            None => false,
            Some(member) => member.group.pool.is_some(),
        }
    }

    /// The output of a run begins, as the configuration says of its process.
    fn begin_output(&mut self, asked: Asked, pid: u32) -> Result<(), AllocError>
        ensures kept { self.new ≡ record self.old { streams = self.new.streams } }
        ensures begins { OnOk result
            (Makes (begins_output asked.child asked.run pid) self.old self.new) }
    {
        match self.children.member(asked.child) {
            None => Ok(()),
            Some(member) => {
                self.streams.begin(
                    self.alloc,
                    asked.run,
                    asked.child,
                    pid,
                    member.spec.redirect_stderr,
                    u64::from(member.spec.stdout.capture.get()),
                    u64::from(member.spec.stderr.capture.get()),
                )?;
                Ok(())
            }
        }
    }

    /// The run of a process begins, where the number of its process was told, and the main log gets its line.
    fn begin_run(&mut self, asked: Asked, started: Option<u32>) -> Result<(), AllocError>
        ensures kept { HearsListeners self.old self.new }
        ensures begins { OnOk result
            (Makes (begins_as asked.child asked.run started) self.old self.new) }
    {
        match started {
            None => Ok(()),
            Some(pid) => {
                let is_listener = self.is_listener(asked.child);
                let line = spawned_at(self.alloc, &self.children, asked.child, pid)?;
                self.runs
                    .begin(self.alloc, asked.run, asked.child, pid, is_listener)?;
                self.begin_output(asked, pid)?;
                self.note_if(line)?;
                Ok(())
            }
        }
    }

    /// The run of a child is sent a signal.
    pub(crate) fn kill(
        &mut self,
        child: usize,
        signal: Signal,
        group: bool,
    ) -> Result<(), AllocError>
        ensures kept { GivesOrders self.old self.new }
        ensures kills { OnOk result (Makes (kills child signal group) self.old self.new) }
    {
        self.children
            .kill(child, signal, group, &mut self.hand.given)?;
        Ok(())
    }

    /// Orders the spawn of a child, which is a question; where no number is left for a run, the spawn fails.
    fn spawn(&mut self, child: usize) -> Result<Option<Asked>, AllocError>
        ensures kept { StartsRuns self.old self.new }
        ensures spawns { IfOk result (λ asked.
            Stops (spawns child) (stopped asked) self.old self.new) }
    {
        if self.numbers.next_run > LAST_RUN {
            let nobody = Asked { child, run: Run(0) };
            self.answer(nobody, Reply::Refused(Text::fixed("failed")))?;
            return Ok(None);
        }
        let run = Run(self.numbers.next_run as u32);
        match self.children.spawn_order(child, run)? {
            None => Ok(None),
            Some(spawning) => {
                self.hand.given.push(Order::Spawn(spawning))?;
                self.numbers.next_run += 1;
                Ok(Some(Asked { child, run }))
            }
        }
    }

    /// Does what is to be done for a child after its step.
    fn act(&mut self, child: usize, deed: Option<ChildDeed>) -> Result<Option<Asked>, AllocError>
        ensures kept { StartsRuns self.old self.new }
        ensures does { IfOk result (λ asked.
            Stops (does deed child) (stopped asked) self.old self.new) }
    {
        match deed {
            None => Ok(None),
            Some(deed) => {
                let asked = self.carry_out(child, deed)?;
                Ok(asked)
            }
        }
    }

    /// A signal is sent, or the spawn is ordered.
    fn carry_out(&mut self, child: usize, deed: ChildDeed) -> Result<Option<Asked>, AllocError>
        ensures kept { StartsRuns self.old self.new }
        ensures does { IfOk result (λ asked.
            Stops (carries_out deed child) (stopped asked) self.old self.new) }
    {
        match deed {
            ChildDeed::Kill(signal, group) => {
                self.kill(child, signal, group)?;
                Ok(None)
            }
            ChildDeed::Spawn => {
                let asked = self.spawn(child)?;
                Ok(asked)
            }
        }
    }

    /// News come to the child of a place, and what is then to be done for it is done.
    fn meet(&mut self, news: &News, child: usize) -> Result<Option<Asked>, AllocError>
        ensures kept { StartsRuns self.old self.new }
        ensures meets { IfOk result (λ asked.
            Stops (meets news.now child) (stopped asked) self.old self.new) }
    {
        let deed = self.bring(news, child)?;
        let asked = self.act_noted(news, child, deed)?;
        Ok(asked)
    }

    /// Does what is to be done for a child after its step, with its line in the main log before it.
    fn act_noted(
        &mut self,
        news: &News,
        child: usize,
        deed: Option<ChildDeed>,
    ) -> Result<Option<Asked>, AllocError>
        ensures kept { StartsRuns self.old self.new }
        ensures does { IfOk result (λ asked.
            Stops (does_noted news.now deed child) (stopped asked) self.old self.new) }
    {
        let line = killing_at(self.alloc, news, deed, &self.children, child)?;
        self.note_if(line)?;
        let asked = self.act(child, deed)?;
        Ok(asked)
    }

    /// The first place from this one on that the news don't pass by: time passes by each child that hasn't woken.
    #[tactic(auto, using(crate::proofs::Unmoved::time_passes, crate::proofs::Unmoved::passed_none))]
    fn next_place(&mut self, news: &News, from: usize) -> Option<usize>
        ensures kept { self.new ≡ self.old }
        ensures next { MatchOption result
            ((to : ℕ) → PassBy news.now self.old.hand.moment self.old.children from to)
            (λ place. (from ≤ place)
            × PassBy news.now self.old.hand.moment self.old.children from place) }
    {
        match news {
            News::Time => self.children.next_awake(from, self.hand.moment),
            _ => Some(from),
        }
    }

    /// The first place from the one to before the other that the news don't pass by.
    #[tactic(auto, using(crate::proofs::Unmoved::passed_before))]
    fn next_met(&mut self, news: &News, from: usize, to: usize) -> Option<usize>
        ensures kept { self.new ≡ self.old }
        ensures next { MatchOption result
            (PassBy news.now self.old.hand.moment self.old.children from to)
            (λ place. IsMet news.now self.old.hand.moment self.old.children from to place) }
    {
        match self.next_place(news, from) {
            None => None,
            Some(place) if place >= to => None,
            Some(place) => Some(place),
        }
    }

    /// News go over the places from the one to before the other, up to a question. Those that they pass by aren't looked at.
    fn sweep(&mut self, news: &News, from: usize, to: usize) -> Result<Option<Pause>, AllocError>
        ensures kept { StartsRuns self.old self.new }
        ensures sweeps { IfOk result (λ stop.
            Stops (sweeps news.now (to - from) from) (swept news.now to stop) self.old self.new) }
    {
        let mut next = from;
        while let Some(place) = self.next_met(news, next, to) {
            next = place + 1;
            match self.meet(news, place)? {
                Some(asked) => return Ok(Some(Pause { next, asked })),
                None => {}
            }
        }
        Ok(None)
    }

    /// News go over these places; where a question stops them, what is left of their way.
    #[inline(never)]
    pub(crate) fn sweep_over(
        &mut self,
        news: News,
        from: usize,
        to: usize,
    ) -> Result<Option<Paused>, AllocError>
        ensures kept { StartsRuns self.old self.new }
        ensures sweeps { IfOk result (λ left.
            Stops (sweeps news (to - from) from) (paused left) self.old self.new) }
    {
        match self.sweep(&news, from, to)? {
            Some(stop) => Ok(Some(Paused { news, to, stop })),
            None => Ok(None),
        }
    }
}
