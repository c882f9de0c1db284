//! Stopping: children that are side by side; step 6 of a turn, the stop plan, and the signals that begin it; and step 8,
//! the halt.
ghost use Rattle.std.specs.Prelude.{◌≡◌, OnOk};
ghost use Rattle.sv_base.specs.declared.signal.Signal.{Signal};
ghost use Rattle.sv_core.specs.Frames.{ChangesCourse, EndsCourse, GivesOrders, Makes};
ghost use Rattle.sv_core.specs.Frames.{MovesChildren, MovesPlan};
ghost use Rattle.sv_children.specs.Spans.{are_at_rest};
ghost use Rattle.sv_core.specs.Shutdown.{is_ending, begins_shutdown, heeds, tells_group};
ghost use Rattle.sv_core.specs.Shutdown.{follows_plan, halts};
ghost use Rattle.sv_core.specs.Stops.{signals, stops, stops_all};
ghost use Rattle.sv_groups.specs.StartOrder.{span_of};

use crate::machine::Machine;
use std::alloc::AllocError;
use sv_base::kind::Kind;
use sv_base::signal::{DaemonSignal, Signal};
use sv_base::state::Mood;
use sv_child::step::ChildDeed;
use sv_children::News;
use sv_groups::{Span, next_to_stop};
use sv_out::order::Order;

fn is_ending(signal: Signal) -> bool
    ensures { result ≡ is_ending signal }
{
    match signal {
        Signal::Term | Signal::Int | Signal::Quit => true,
        _ => false,
    }
}

impl Machine {
    /// Sends the signal of a stop.
    fn signal(&mut self, child: usize, deed: Option<ChildDeed>) -> Result<(), AllocError>
        ensures kept { GivesOrders self.old self.new }
        ensures signals { OnOk result (Makes (signals deed child) self.old self.new) }
    {
        match deed {
            Some(ChildDeed::Kill(signal, group)) => self.kill(child, signal, group),
            Some(ChildDeed::Spawn) | None => Ok(()),
        }
    }

    /// Stops the child of one place.
    pub(crate) fn stop(&mut self, child: usize) -> Result<(), AllocError>
        ensures kept { MovesChildren self.old self.new }
        ensures stops { OnOk result (Makes (stops child) self.old self.new) }
    {
        let deed = self.bring(&News::Stop, child)?;
        self.signal(child, deed)?;
        Ok(())
    }

    /// Stops the children of a span, from the last of the start order to the first.
    pub(crate) fn stop_all(&mut self, span: Span) -> Result<(), AllocError>
        ensures kept { MovesChildren self.old self.new }
        ensures stops { OnOk result (Makes (stops_all span) self.old self.new) }
    {
        let mut left = span.to.saturating_sub(span.from);
        while left > 0 {
            left -= 1;
            self.stop(span.from + left)?;
        }
        Ok(())
    }

    /// The shutdown begins, unless it has: the daemon says that it is about to stop.
    pub(crate) fn begin_shutdown(&mut self) -> Result<(), AllocError>
        ensures kept { ChangesCourse self.old self.new }
        ensures begins { OnOk result (Makes begins_shutdown self.old self.new) }
    {
        if self.course.mood == Mood::Running {
            self.course.mood = Mood::Shutdown;
            self.offer_change(Kind::SupervisorStateChangeStopping)?;
        }
        Ok(())
    }

    /// A signal came: one that ends the daemon begins its shutdown.
    pub(crate) fn heed(&mut self, signal: &DaemonSignal) -> Result<(), AllocError>
        ensures kept { ChangesCourse self.old self.new }
        ensures heeds { OnOk result (Makes (heeds signal.now) self.old self.new) }
    {
        if is_ending(signal.get()) {
            self.begin_shutdown()?;
        }
        Ok(())
    }

    /// Whether the group of this place is at rest; what isn't there is.
    fn has_come_to_rest(&self, group: usize) -> bool
        ensures { result
            ≡ are_at_rest (span_of group self.now.children.roster) self.now.children.all }
    {
        self.children.are_at_rest(self.children.group(group))
    }

    /// A group that isn't at rest is told to stop, once.
    fn tell_group(&mut self, group: usize) -> Result<(), AllocError>
        ensures kept { MovesPlan self.old self.new }
        ensures left { self.new.course.left ≡ self.old.course.left }
        ensures tells { OnOk result (Makes (tells_group group) self.old self.new) }
    {
        if self.course.is_told {
            return Ok(());
        }
        if self.has_come_to_rest(group) {
            return Ok(());
        }
        let own = self.children.group(group);
        self.course.is_told = true;
        self.stop_all(own)?;
        Ok(())
    }

    /// Step 6 of a turn: while the daemon ends, its groups are stopped one after the other, the last one first.
    pub(crate) fn follow_plan(&mut self) -> Result<(), AllocError>
        ensures kept { MovesPlan self.old self.new }
        ensures follows { OnOk result (Makes follows_plan self.old self.new) }
    {
        if self.course.mood == Mood::Running {
            return Ok(());
        }
        while self.course.left > 0 {
            let last = next_to_stop(self.course.left);
            self.tell_group(last)?;
            if !self.has_come_to_rest(last) {
                return Ok(());
            }
            self.course.left = last;
            self.course.is_told = false;
        }
        Ok(())
    }

    /// Step 8 of a turn: where the daemon ends and no group is left, the links that are open get Close, and it halts.
    pub(crate) fn halt(&mut self) -> Result<(), AllocError>
        ensures kept { EndsCourse self.old self.new }
        ensures halts { OnOk result (Makes halts self.old self.new) }
    {
        if self.course.mood != Mood::Running && self.course.left == 0 {
            self.close_links()?;
            self.hand.given.push(Order::Halt)?;
            self.course.halted = true;
        }
        Ok(())
    }
}
