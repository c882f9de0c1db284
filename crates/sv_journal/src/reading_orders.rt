//! Reading a whole order line.
ghost use Rattle.std.specs.Prelude.{◌≡◌, ◌≤◌, length, IfOk, IfErr};
ghost use Rattle.sv_out.specs.declared.order.Order.{Order};
ghost use Rattle.sv_journal.specs.Limits.{line_limit};
ghost use Rattle.sv_journal.specs.JournalLine.{order_line};
ghost use Rattle.sv_journal.specs.Orders.{FitsOrder};
ghost use Rattle.sv_journal.specs.Outcome.{IsOrNoMemory, IsFaultOf};
ghost use Rattle.sv_journal.specs.OrderReading.{order_at};

use crate::fault::LineFault;
use crate::order_line::order;
use crate::read::{LINE_LIMIT, column};
use crate::stop::Stop;
use std::alloc::Global;
use sv_out::order::Order;

/// Reads an order line, without its line feed and without the mark that stands before it in a daemon's journal: the one
/// order that has this line. Refuses exactly the lines that no order has, and those of more than 4,194,304 bytes.
#[tactic(auto, using(crate::proofs::OrderLaws::order_takes, crate::proofs::OrderLaws::order_fits))]
pub fn read_order(alloc: Global, line: &[u8]) -> Result<Order, LineFault>
    ensures found { IfOk result (λ o. line.now ≡ order_line o) }
    ensures fits { IfOk result (λ o. FitsOrder o) }
    ensures short { IfOk result (λ o. length line.now ≤ line_limit) }
    ensures column { IfErr result (λ fault. IsFaultOf FitsOrder order_line line.now fault) }
    ensures only { (o : Order) → FitsOrder o → line.now ≡ order_line o
        → length line.now ≤ line_limit → IsOrNoMemory result o }
{
    match order(alloc, line) {
        Ok(order) if line.len() <= LINE_LIMIT => Ok(order),
        Ok(_) => Err(LineFault::BadLine(LINE_LIMIT)),
        Err(Stop::At(left)) => Err(LineFault::BadLine(column(line, left))),
        Err(Stop::OutOfMemory) => Err(LineFault::OutOfMemory),
    }
}
