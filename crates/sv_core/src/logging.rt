//! What is written to log files, and what full pools drop with its line in the main log.
ghost use Rattle.std.specs.Prelude.{◌≡◌, IfOk, OnOk};
ghost use Rattle.sv_core.specs.Frames.{GivesOrders, Makes};
ghost use Rattle.sv_core.specs.Logging.{drop_line, logs_if, notes, notes_if, tells_drop};
ghost use Rattle.sv_core.specs.Logging.{tells_drops};

use crate::machine::Machine;
use std::alloc::{AllocError, Global};
use sv_base::bytes::Bytes;
use sv_children::lines::{Line, overflowed, written};
use sv_out::order::Order;

/// The line of a report that a full pool dropped an event.
fn drop_line(alloc: Global, report: &Order) -> Result<Option<Line>, AllocError>
    ensures { IfOk result (λ line. line ≡ drop_line report.now) }
{
    match report {
        Order::Dropped { pool, serial, .. } => {
            let line = overflowed(alloc, pool, *serial)?;
            Ok(Some(line))
        }
        _ => Ok(None),
    }
}

impl Machine {
    /// The main log gets these bytes, if they are there.
    fn log_main(&mut self, bytes: Option<Bytes>) -> Result<(), AllocError>
        ensures kept { GivesOrders self.old self.new }
        ensures logs { OnOk result (Makes (logs_if self.old.config.main bytes) self.old self.new) }
    {
        match bytes {
            None => Ok(()),
            Some(bytes) => {
                self.sizes.append(
                    self.alloc,
                    &self.config.main,
                    bytes.as_slice(),
                    &mut self.hand.given,
                )?;
                Ok(())
            }
        }
    }

    /// The main log gets a line, unless it is below the level that is written.
    fn note(&mut self, line: &Line) -> Result<(), AllocError>
        ensures kept { GivesOrders self.old self.new }
        ensures notes { OnOk result (Makes (notes line.now) self.old self.new) }
    {
        let bytes = written(self.alloc, self.config.level, self.hand.moment, line)?;
        self.log_main(bytes)?;
        Ok(())
    }

    /// If there is one.
    pub(crate) fn note_if(&mut self, line: Option<Line>) -> Result<(), AllocError>
        ensures kept { GivesOrders self.old self.new }
        ensures notes { OnOk result (Makes (notes_if line) self.old self.new) }
    {
        match line {
            None => Ok(()),
            Some(line) => {
                self.note(&line)?;
                Ok(())
            }
        }
    }

    /// A report of what a full pool dropped is given, and its line written to the main log.
    fn tell_drop(&mut self, report: Order) -> Result<(), AllocError>
        ensures kept { GivesOrders self.old self.new }
        ensures tells { OnOk result (Makes (tells_drop report) self.old self.new) }
    {
        let line = drop_line(self.alloc, &report)?;
        self.hand.given.push(report)?;
        self.note_if(line)?;
        Ok(())
    }

    /// And so one after the other.
    pub(crate) fn tell_drops(&mut self, reports: Vec<Order>) -> Result<(), AllocError>
        ensures kept { GivesOrders self.old self.new }
        ensures tells { OnOk result (Makes (tells_drops reports.items) self.old self.new) }
    {
        for report in reports {
            self.tell_drop(report)?;
        }
        Ok(())
    }
}
