//! The machine's orders for the steps in the keeping of a log.
ghost use Rattle.std.specs.Prelude.{◌≡◌, ◌++◌, OnOk, map};
ghost use Rattle.sv_logs.specs.Logging.{order_of};

use std::alloc::AllocError;
use sv_base::config::FileOrder;
use sv_out::order::Order;

/// Adds these orders to those given.
pub(crate) fn give(orders: Vec<FileOrder>, given: &mut Vec<Order>) -> Result<(), AllocError>
    ensures { OnOk result (given.new.items ≡ given.old.items ++ map order_of orders.items) }
{
    for order in orders {
        given.push(order_of(order))?;
    }
    Ok(())
}

fn order_of(order: FileOrder) -> Order
    ensures { result ≡ order_of order }
{
    match order {
        FileOrder::Append(file, bytes) => Order::Append { file, bytes },
        FileOrder::Shift(from, to) => Order::Shift { from, to },
        FileOrder::Fresh(file) => Order::Fresh { file },
    }
}
