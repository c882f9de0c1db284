//! Orders of files as the tables of the tests write them.
use crate::checks::check_of;
use crate::claims::text_of;
use std::process::Abort;
use sv_base::config::FileOrder;
use sv_out::order::Order;

/// The first of these orders, each of which a semicolon ends, and the others.
pub fn first_of(orders: &str) -> (&str, &str) {
    orders.split_once(';').unwrap_or(("", orders))
}

/// Whether an order is written with this verb, the name of a file, a space and the rest.
fn is_written(order: &str, verb: &str, file: &str, rest: &str) -> bool {
    order.strip_prefix(verb).unwrap_or("").split_once(' ') == Some((file, rest))
}

fn is_fresh(order: &str, file: &str) -> bool {
    order.strip_prefix("fresh ") == Some(file)
}

/// Whether this is the order of a log.
fn is_of_log(order: &FileOrder, wanted: &str) -> bool {
    match order {
        FileOrder::Append(file, bytes) => {
            is_written(wanted, "append ", file.as_str(), text_of(bytes.as_slice()))
        }
        FileOrder::Shift(from, to) => is_written(wanted, "shift ", from.as_str(), to.as_str()),
        FileOrder::Fresh(file) => is_fresh(wanted, file.as_str()),
    }
}

/// Whether this is the order of a daemon.
fn is_of_daemon(order: &Order, wanted: &str) -> bool {
    match order {
        Order::Append { file, bytes } => {
            is_written(wanted, "append ", file.as_str(), text_of(bytes.as_slice()))
        }
        Order::Shift { from, to } => is_written(wanted, "shift ", from.as_str(), to.as_str()),
        Order::Fresh { file } => is_fresh(wanted, file.as_str()),
        _ => false,
    }
}

/// What stands behind this order of a log, which comes first.
fn behind_log<'a>(rt: &impl Abort, order: &FileOrder, wanted: &'a str) -> &'a str {
    let (first, others) = first_of(wanted);
    check_of(rt, is_of_log(order, first), wanted);
    others
}

/// What stands behind this order of a daemon, which comes first.
fn behind_daemon<'a>(rt: &impl Abort, order: &Order, wanted: &'a str) -> &'a str {
    let (first, others) = first_of(wanted);
    check_of(rt, is_of_daemon(order, first), wanted);
    others
}

/// These are the orders of a log.
pub fn are_of_log(rt: &impl Abort, orders: &[FileOrder], wanted: &str) {
    let mut left = wanted;
    for order in orders {
        left = behind_log(rt, order, left);
    }
    check_of(rt, left.is_empty(), left);
}

/// These are the orders of a daemon.
pub fn are_of_daemon(rt: &impl Abort, orders: &[Order], wanted: &str) {
    let mut left = wanted;
    for order in orders {
        left = behind_daemon(rt, order, left);
    }
    check_of(rt, left.is_empty(), left);
}
