//! Step 7 of a turn, the pools hand out.
ghost use Rattle.std.specs.Prelude.{◌≡◌, List, OnOk, slice_get};
ghost use Rattle.sv_core.specs.Frames.{HearsListeners, Makes};
ghost use Rattle.sv_core.specs.HandingOut.{hands_out, hands_to, is_up, ready_of, ready_one};
ghost use Rattle.sv_core.specs.HandingOut.{sends_to};
ghost use Rattle.sv_core.specs.StandsFor.{Shows};
ghost use Rattle.sv_core.specs.World.{World};
ghost use Rattle.sv_out.specs.declared.order.Order.{Order};

use crate::listening::id_of;
use crate::machine::Machine;
use std::alloc::AllocError;
use sv_base::ids::Run;
use sv_base::state::State;

/// Whether a process of this state is up.
fn is_up(state: State) -> bool
    ensures { result ≡ is_up state }
{
    matches!(state, State::Running)
}

impl Machine {
    /// The run, where its listener is READY.
    fn ready_one(&self, run: Option<Run>) -> Option<Run>
        ensures { (older : List Order) (w : World) → Shows self.now older w
            → result ≡ ready_one run w.runs }
    {
        match run {
            Some(run) if self.runs.is_ready(run) => Some(run),
            _ => None,
        }
    }

    /// The run of the child of a place that may get an event.
    fn ready_at(&self, child: usize) -> Option<Run>
        ensures { (older : List Order) (w : World) → Shows self.now older w
            → result ≡ ready_of (slice_get w.children.all child) w.runs }
    {
        match self.children.as_slice().get(child) {
            None => None,
            Some(child) => {
                if is_up(child.state) {
                    self.ready_one(child.run)
                } else {
                    None
                }
            }
        }
    }

    /// An event is sent to this run of the listener of a place, if one waits for it.
    fn send_to(&mut self, run: Option<Run>, child: usize) -> Result<(), AllocError>
        ensures kept { HearsListeners self.old self.new }
        ensures sends { OnOk result (Makes (sends_to run child) self.old self.new) }
    {
        match run {
            None => Ok(()),
            Some(run) => {
                let is_sent = self.pools.hand_to(
                    self.alloc,
                    self.config.identifier.as_str(),
                    id_of(child),
                    run,
                    &mut self.hand.given,
                )?;
                if is_sent {
                    self.runs.sent(run);
                }
                Ok(())
            }
        }
    }

    /// To the listener of a place.
    fn hand_to(&mut self, child: usize) -> Result<(), AllocError>
        ensures kept { HearsListeners self.old self.new }
        ensures hands { OnOk result (Makes (hands_to child) self.old self.new) }
    {
        let run = self.ready_at(child);
        self.send_to(run, child)?;
        Ok(())
    }

    /// Step 7: to the listener of each place, in start order, if an event waits in some pool.
    pub(crate) fn hand_out(&mut self) -> Result<(), AllocError>
        ensures kept { HearsListeners self.old self.new }
        ensures hands { OnOk result (Makes hands_out self.old self.new) }
    {
        if !self.pools.some_wait() {
            return Ok(());
        }
        for child in 0..self.children.len() {
            self.hand_to(child)?;
        }
        Ok(())
    }
}
