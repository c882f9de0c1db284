//! The text of orders, and its writing.
ghost use Rattle.std.specs.Prelude.{◌≡◌, ◌≤◌, IfOk, OnOk, IfErr, OnErr, Err};
ghost use Rattle.std.specs.Io.KnownBytes.{Appends};
ghost use Rattle.sv_judge.specs.JournalPlaces.{order_text};
ghost use Rattle.sv_loop.specs.Reading.{Unwrote};
ghost use Rattle.sv_out.specs.Faults.{Rose};

use crate::run::End;
use std::alloc::{AllocError, Global};
use sv_journal::write::write_order;
use sv_out::order::Order;
use sv_out::sink::{Sink, write_all};

/// Writes the line of each order, in order.
pub(crate) fn write_orders<K: Sink>(
    alloc: Global,
    orders: &[Order],
    sink: &mut K,
) -> Result<(), End>
    ensures ok { OnOk result (Appends (K.written sink.old) (K.written sink.new)
        (order_text orders.now)) }
    ensures err { IfErr result (λ end. Unwrote end (order_text orders.now) (K.written sink.old)
        (K.written sink.new)) }
    ensures later { K.faults sink.old ≤ K.faults sink.new }
    ensures failed { result ≡ Err End.SinkFailed → Rose (K.faults sink.old) (K.faults sink.new) }
{
    if orders.is_empty() {
        return Ok(());
    }
    let Ok(text) = text_of(alloc, orders) else {
        return Err(End::NoMemory);
    };
    match write_all(sink, text.as_slice()) {
        Ok(()) => Ok(()),
        Err(_) => Err(End::SinkFailed),
    }
}

/// The lines of the orders, each with its line feed.
#[inline(never)]
fn text_of(alloc: Global, orders: &[Order]) -> Result<Vec<u8>, AllocError>
    ensures { IfOk result (λ text. text.items ≡ order_text orders.now) }
{
    let mut text = Vec::new(alloc);
    for order in orders {
        let line = write_order(alloc, order)?;
        text.extend_from_slice(line.as_str().as_bytes())?;
        text.push(b'\n')?;
    }
    Ok(text)
}
