//! What a journal tells of inputs and orders, as the loop sees it.
ghost use Rattle.std.specs.Prelude.{◌≡◌, ◌++◌, OnOk, string_bytes};
ghost use Rattle.sv_supervise.specs.MainLoop.Journal.{orders_text};

use std::alloc::AllocError;
use sv_out::input::Input;
use sv_out::order::Order;

/// What a journal tells of an input and of an order: a line each, or nothing where no journal is kept.
pub trait Lines {
    ghost use Rattle.sv_supervise.specs.MainLoop.Journal.{Texts};

    ghost texts: { Self → Texts };

    /// Adds what is told of an input.
    fn put_input(&self, input: &Input, text: &mut String) -> Result<(), AllocError>
        ensures { OnOk result
            (string_bytes text.new
            ≡ string_bytes text.old ++ (texts self.now).of_input input.now) };

    /// Adds what is told of an order.
    fn put_order(&self, order: &Order, text: &mut String) -> Result<(), AllocError>
        ensures { OnOk result
            (string_bytes text.new
            ≡ string_bytes text.old ++ (texts self.now).of_order order.now) };
}

/// Adds what is told of each of these orders, in their order.
pub(crate) fn put_orders<L: Lines>(
    lines: &L,
    orders: &[Order],
    text: &mut String,
) -> Result<(), AllocError>
    ensures { OnOk result
        (string_bytes text.new
        ≡ string_bytes text.old ++ orders_text (L.texts lines.now) orders.now) }
{
    for order in orders {
        lines.put_order(order, text)?;
    }
    Ok(())
}
