//! Laws: what is written is read.
ghost use Rattle.std.specs.Prelude.{◌≡◌, ◌≤◌, length, Ok};
ghost use Rattle.sv_journal.specs.JournalLine.{input_line, order_line, header_line};
ghost use Rattle.sv_journal.specs.Limits.{line_limit};
ghost use Rattle.sv_journal.specs.OrderReading.{order_at};
ghost use Rattle.sv_journal.specs.Outcome.{IsOrNoMemory};
ghost use Rattle.sv_journal.specs.ReadingLines.{input_at, header_at};

use crate::fault::LineFault;
use crate::fits::{header_fits, input_fits, order_fits};
use crate::header::Header;
use crate::read::{read_header, read_input};
use crate::reading_orders::read_order;
use crate::write::{write_input, write_order};
use crate::writing_headers::write_header;
use std::alloc::Global;
use sv_out::input::Input;
use sv_out::order::Order;

/// A law over the grammar: the line of each input is read as that input.
#[tactic(auto, using(crate::proofs::InputLaws::input_again))]
pub fn each_input_is_what_its_line_means(input: &Input)
    ensures { input_at (input_line input.now) ≡ Ok input.now }
{
    input_fits(input)
}

/// A law over the grammar: the line of each order is read as that order.
#[tactic(auto, using(crate::proofs::OrderLaws::order_again))]
pub fn each_order_is_what_its_line_means(order: &Order)
    ensures { order_at (order_line order.now) ≡ Ok order.now }
{
    order_fits(order)
}

/// A law over the grammar: the line of each header is read as that header.
#[tactic(auto, using(crate::proofs::HeaderLaws::header_again))]
pub fn each_header_is_what_its_line_means(header: &Header)
    ensures { header_at (header_line header.now) ≡ Ok header.now }
{
    header_fits(header)
}

/// A law: an input that is written and then read is the same one, as far as its line fits into a line's limit.
pub fn each_input_is_read_again(alloc: Global, input: &Input) -> Result<Input, LineFault>
    ensures { length (input_line input.now) ≤ line_limit → IsOrNoMemory result input.now }
{
    match write_input(alloc, input) {
        Ok(line) => read_input(alloc, line.as_str().as_bytes()),
        Err(_) => Err(LineFault::OutOfMemory),
    }
}

/// A law: an order that is written and then read is the same one, as far as its line fits into a line's limit.
pub fn each_order_is_read_again(alloc: Global, order: &Order) -> Result<Order, LineFault>
    ensures { length (order_line order.now) ≤ line_limit → IsOrNoMemory result order.now }
{
    match write_order(alloc, order) {
        Ok(line) => read_order(alloc, line.as_str().as_bytes()),
        Err(_) => Err(LineFault::OutOfMemory),
    }
}

/// A law: a header that is written and then read is the same one, as far as its line fits into a line's limit.
pub fn each_header_is_read_again(alloc: Global, header: &Header) -> Result<Header, LineFault>
    ensures { length (header_line header.now) ≤ line_limit → IsOrNoMemory result header.now }
{
    match write_header(alloc, header) {
        Ok(line) => read_header(alloc, line.as_str().as_bytes()),
        Err(_) => Err(LineFault::OutOfMemory),
    }
}
