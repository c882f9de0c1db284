//! What becomes an event: steps 0 and 3 of a turn, and the edges that children take.
ghost use Rattle.std.specs.Prelude.{◌≡◌, IfOk, OnOk};
ghost use Rattle.sv_child.specs.declared.step.Edge.{Edge};
ghost use Rattle.sv_core.specs.Events.{announces, offers, offers_change, offers_if, offers_tick};
ghost use Rattle.sv_core.specs.Events.{ticks};
ghost use Rattle.sv_core.specs.Frames.{ChangesCourse, GivesOrders, Makes};
ghost use Rattle.sv_core.specs.Moves.{goes_edge, goes_edge_if, goes_edges};

use crate::machine::Machine;
use std::alloc::AllocError;
use sv_base::kind::Kind;
use sv_base::state::How;
use sv_child::step::Edge;
use sv_children::lines::line_at;
use sv_children::{fact_at, kind_of};
use sv_events::Fact;

impl Machine {
    /// Offers an event of this type to each pool; what they drop for it is reported.
    #[inline(never)]
    pub(crate) fn offer(&mut self, kind: Kind, fact: &Fact) -> Result<(), AllocError>
        ensures kept { GivesOrders self.old self.new }
        ensures offers { OnOk result (Makes (offers kind fact.now) self.old self.new) }
    {
        let mut reports = Vec::new(self.alloc);
        self.pools.offer(self.alloc, kind, fact, &mut reports)?;
        self.tell_drops(reports)?;
        Ok(())
    }

    /// Offers it, if there is something to tell.
    pub(crate) fn offer_if(&mut self, kind: Kind, fact: Option<Fact>) -> Result<(), AllocError>
        ensures kept { GivesOrders self.old self.new }
        ensures offers { OnOk result (Makes (offers_if kind fact) self.old self.new) }
    {
        match fact {
            None => Ok(()),
            Some(fact) => {
                self.offer(kind, &fact)?;
                Ok(())
            }
        }
    }

    /// The daemon says that it runs, or is about to stop.
    #[inline(never)]
    pub(crate) fn offer_change(&mut self, kind: Kind) -> Result<(), AllocError>
        ensures kept { GivesOrders self.old self.new }
        ensures offers { OnOk result (Makes (offers_change kind) self.old self.new) }
    {
        self.offer(kind, &Fact::Supervisor)?;
        Ok(())
    }

    /// A period's clock ticks, if it comes to another slice.
    #[inline(never)]
    fn offer_tick(&mut self, kind: Kind, when: Option<u64>) -> Result<(), AllocError>
        ensures kept { GivesOrders self.old self.new }
        ensures offers { OnOk result (Makes (offers_tick kind when) self.old self.new) }
    {
        match when {
            None => Ok(()),
            Some(when) => {
                self.offer(kind, &Fact::Tick { when })?;
                Ok(())
            }
        }
    }

    /// An edge that a child took is reported, then its line written, and then its event offered; its process ended so, where
    /// an exit was the cause, and had this number before.
    fn go_edge(
        &mut self,
        how: Option<How>,
        child: usize,
        pid: u32,
        edge: Edge,
    ) -> Result<(), AllocError>
        ensures kept { GivesOrders self.old self.new }
        ensures goes { OnOk result (Makes (goes_edge how child pid edge) self.old self.new) }
    {
        self.children
            .report(child, &[Some(edge)], &mut self.hand.given)?;
        let line = line_at(self.alloc, &self.children, child, how, edge)?;
        let fact = fact_at(&self.children, child, pid, edge)?;
        self.note_if(line)?;
        self.offer_if(kind_of(edge.to), fact)?;
        Ok(())
    }

    /// If it took one.
    fn go_edge_if(
        &mut self,
        how: Option<How>,
        child: usize,
        pid: u32,
        edge: Option<Edge>,
    ) -> Result<(), AllocError>
        ensures kept { GivesOrders self.old self.new }
        ensures goes { OnOk result (Makes (goes_edge_if how child pid edge) self.old self.new) }
    {
        match edge {
            None => Ok(()),
            Some(edge) => {
                self.go_edge(how, child, pid, edge)?;
                Ok(())
            }
        }
    }

    /// And so edge by edge.
    pub(crate) fn go_edges(
        &mut self,
        how: &Option<How>,
        child: usize,
        pid: u32,
        edges: &[Option<Edge>],
    ) -> Result<(), AllocError>
        ensures kept { GivesOrders self.old self.new }
        ensures goes { OnOk result
            (Makes (goes_edges how.now child pid edges.now) self.old self.new) }
    {
        for edge in edges {
            self.go_edge_if(*how, child, pid, *edge)?;
        }
        Ok(())
    }

    /// Step 0: in the first turn, the event that the daemon runs.
    pub(crate) fn announce(&mut self) -> Result<(), AllocError>
        ensures kept { ChangesCourse self.old self.new }
        ensures announced { OnOk result (Makes announces self.old self.new) }
    {
        if self.course.announced {
            return Ok(());
        }
        self.course.announced = true;
        self.offer_change(Kind::SupervisorStateChangeRunning)?;
        Ok(())
    }

    /// Step 3: the ticks of the clock since it was last looked at.
    pub(crate) fn tick(&mut self) -> Result<(), AllocError>
        ensures kept { self.new ≡ record self.old {
          clock = self.new.clock;
          pools = self.new.pools;
          sizes = self.new.sizes;
          hand = record self.old.hand { given = self.new.hand.given };
        } }
        ensures ticked { OnOk result (Makes ticks self.old self.new) }
    {
        if self.clock.moves_within(self.hand.moment) {
            return Ok(());
        }
        let due = self.clock.at(self.hand.moment);
        self.offer_tick(Kind::Tick5, due[0])?;
        self.offer_tick(Kind::Tick60, due[1])?;
        self.offer_tick(Kind::Tick3600, due[2])?;
        Ok(())
    }
}
