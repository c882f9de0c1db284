//! The columns at which lines break; a line that is read is written again as it stands.

use crate::checks::check_of;
use std::alloc::Global;
use std::process::Abort;
use sv_journal::{
    Header, LineFault, read_header, read_input, read_order, write_header, write_input, write_order,
};
use sv_out::input::Input;
use sv_out::order::Order;

/// What a line is read as.
#[derive(Clone, Copy)]
pub enum Kind {
    Input,
    Header,
    Order,
}

/// The column at which a line of this kind breaks.
pub fn column(rt: &impl Abort, alloc: Global, kind: Kind, line: &str) -> Option<usize> {
    match kind {
        Kind::Input => input_column(rt, alloc, line),
        Kind::Header => header_column(rt, alloc, line),
        Kind::Order => order_column(rt, alloc, line),
    }
}

fn input_column(rt: &impl Abort, alloc: Global, line: &str) -> Option<usize> {
    match read_input(alloc, line.as_bytes()) {
        Ok(input) => {
            is_input(rt, alloc, &input, line);
            None
        }
        Err(fault) => Some(place_of(rt, fault)),
    }
}

fn header_column(rt: &impl Abort, alloc: Global, line: &str) -> Option<usize> {
    match read_header(alloc, line.as_bytes()) {
        Ok(header) => {
            is_header(rt, alloc, &header, line);
            None
        }
        Err(fault) => Some(place_of(rt, fault)),
    }
}

fn order_column(rt: &impl Abort, alloc: Global, line: &str) -> Option<usize> {
    match read_order(alloc, line.as_bytes()) {
        Ok(order) => {
            is_order(rt, alloc, &order, line);
            None
        }
        Err(fault) => Some(place_of(rt, fault)),
    }
}

fn place_of(rt: &impl Abort, fault: LineFault) -> usize {
    match fault {
        LineFault::BadLine(column) => column,
        LineFault::OutOfMemory => panic!(rt; "out of memory"),
    }
}

/// The input has this line.
fn is_input(rt: &impl Abort, alloc: Global, input: &Input, line: &str) {
    let written = write_input(alloc, input).expect(rt, "memory");
    check_of(rt, written.as_str() == line, line);
}

/// The line of a header is this one.
fn is_header(rt: &impl Abort, alloc: Global, header: &Header, line: &str) {
    let written = write_header(alloc, header).expect(rt, "memory");
    check_of(rt, written.as_str() == line, line);
}

/// The order has this line.
pub fn is_order(rt: &impl Abort, alloc: Global, order: &Order, line: &str) {
    let written = write_order(alloc, order).expect(rt, "memory");
    check_of(rt, written.as_str() == line, line);
}
