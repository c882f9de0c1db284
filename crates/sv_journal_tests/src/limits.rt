//! Lines of 4,194,304 bytes and of one more, with ample memory.

use crate::checks::check;
use crate::columns::{Kind, column};
use std::alloc::Global;
use std::process::Abort;

/// The most bytes of a line.
const MOST: usize = 4_194_304;

/// Adds a part so many times.
pub(crate) fn put_times(rt: &impl Abort, line: &mut String, part: &str, count: usize) {
    for _ in 0..count {
        line.push_str(part).expect(rt, "memory");
    }
}

/// A line with this prefix and so many bytes.
fn line_of(rt: &impl Abort, alloc: Global, prefix: &str, length: usize) -> String {
    let mut line = String::from_str(alloc, prefix).expect(rt, "memory");
    let left = length.saturating_sub(prefix.len());
    put_times(rt, &mut line, "abcdefghijklmnop", left / 16);
    put_times(rt, &mut line, "q", left % 16);
    line
}

/// A line with this prefix is read at its limit and written as it stands; one more byte is too many.
fn has_its_limit(rt: &impl Abort, alloc: Global, kind: Kind, prefix: &str) {
    let mut line = line_of(rt, alloc, prefix, MOST);
    check(rt, line.as_str().len() == MOST);
    check(rt, column(rt, alloc, kind, line.as_str()).is_none());
    line.push('r').expect(rt, "memory");
    check(rt, column(rt, alloc, kind, line.as_str()) == Some(MOST));
}

#[test]
fn an_input_line_at_its_limit(rt: HostRuntime) {
    has_its_limit(&rt, rt.alloc(), Kind::Input, "0 start ");
}

#[test]
fn a_header_line_at_its_limit(rt: HostRuntime) {
    has_its_limit(&rt, rt.alloc(), Kind::Header, "conf ");
}

#[test]
fn an_order_line_at_its_limit(rt: HostRuntime) {
    has_its_limit(&rt, rt.alloc(), Kind::Order, "append x ");
}
