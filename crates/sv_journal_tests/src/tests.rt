//! Lines are read or break at their column, and are read as what they say.

use crate::checks::{check, check_of};
use crate::columns::{Kind, column};
use crate::limits::put_times;
use crate::lines::{
    ANSWERS, FILES, HEADERS, INPUTS, LINKS, LONG_HEADERS, LONG_PIECES, NAMES, PIECES, SIZES,
};
use crate::order_lines::{HEADER_LINES, ORDER_LINES};
use std::alloc::Global;
use std::process::Abort;
use sv_base::text::Text;
use sv_journal::header::Header;
use sv_journal::read::{read_header, read_input};
use sv_out::input::Input;
use sv_out::rising::RisingNames;

/// Each line breaks at its column, or is read and written again as it stands.
fn break_at(rt: &impl Abort, alloc: Global, kind: Kind, rows: &[(&str, Option<usize>)]) {
    for (line, wanted) in rows {
        let found = column(rt, alloc, kind, line);
        check_of(rt, found == *wanted, line);
    }
}

#[test]
fn lines_are_read_or_break_at_their_column(rt: HostRuntime) {
    let alloc = rt.alloc();
    break_at(&rt, alloc, Kind::Input, &INPUTS);
    break_at(&rt, alloc, Kind::Input, &ANSWERS);
    break_at(&rt, alloc, Kind::Input, &PIECES);
    break_at(&rt, alloc, Kind::Input, &LINKS);
    break_at(&rt, alloc, Kind::Input, &FILES);
    break_at(&rt, alloc, Kind::Input, &NAMES);
    break_at(&rt, alloc, Kind::Input, &SIZES);
    break_at(&rt, alloc, Kind::Header, &HEADERS);
    break_at(&rt, alloc, Kind::Header, &LONG_HEADERS);
    break_at(&rt, alloc, Kind::Header, &HEADER_LINES);
    break_at(&rt, alloc, Kind::Order, &ORDER_LINES);
}

/// Lists of names, and whether they rise.
const LISTS: [(&[&str], bool); 7] = [
    (&[], true),
    (&["a"], true),
    (&["", "a b", "a b!", "\u{e9}"], true),
    (&["a", "a"], false),
    (&["b", "a"], false),
    (&["a", "c", "b"], false),
    (&["ab", "a"], false),
];

/// Whether these names rise.
fn do_rise(rt: &impl Abort, alloc: Global, names: &[&'static str]) -> bool {
    let mut list = Vec::new(alloc);
    for name in names {
        list.push(Text::fixed(*name)).expect(rt, "memory");
    }
    RisingNames::new(list).is_some()
}

#[test]
fn names_rise(rt: HostRuntime) {
    for (list, rise) in &LISTS {
        check(&rt, do_rise(&rt, rt.alloc(), list) == *rise);
    }
}

/// These are the names.
fn are_names(rt: &impl Abort, found: &[Text], wanted: &[&str]) {
    check(rt, found.len() == wanted.len());
    for (name, other) in found.iter().zip(wanted.iter()) {
        check_of(rt, name.as_str() == *other, other);
    }
}

#[test]
fn names_are_read_in_order(rt: HostRuntime) {
    match &read_input(rt.alloc(), b"names 4 % a%20b a%20b! %C3%A9") {
        Ok(Input::Names(names)) => {
            let wanted = ["", "a b", "a b!", "\u{e9}"];
            are_names(&rt, names.as_slice(), &wanted);
        }
        _ => panic!(&rt; "no names"),
    }
}

/// A line that begins and ends so, with this spelling so many times between.
fn long_line(
    rt: &impl Abort,
    alloc: Global,
    begin: &str,
    unit: &str,
    count: usize,
    end: &str,
) -> String {
    let mut line = String::from_str(alloc, begin).expect(rt, "memory");
    put_times(rt, &mut line, unit, count);
    line.push_str(end).expect(rt, "memory");
    line
}

/// The column at which such a line breaks.
fn column_of_long(
    rt: &impl Abort,
    alloc: Global,
    begin: &str,
    unit: &str,
    count: usize,
    end: &str,
) -> Option<usize> {
    let line = long_line(rt, alloc, begin, unit, count, end);
    column(rt, alloc, Kind::Input, line.as_str())
}

#[test]
fn a_piece_has_at_most_65536_bytes(rt: HostRuntime) {
    let alloc = rt.alloc();
    for (begin, unit, count, end, wanted) in &LONG_PIECES {
        let found = column_of_long(&rt, alloc, begin, unit, *count, end);
        check_of(&rt, found == *wanted, begin);
    }
}

/// A line of a long header, as it is to be read.
#[derive(Clone, Copy)]
enum Wanted {
    Journal(u32),
    Host(&'static str),
    Here(&'static str),
    Pid(u32),
    Env(&'static str, &'static str),
    Size(&'static str, u64),
    Conf(&'static [u8]),
    Include(&'static str, &'static [u8]),
}

fn is_wanted(header: &Header, wanted: Wanted) -> bool {
    match (header, wanted) {
        (Header::Journal(version), Wanted::Journal(wanted)) => version.get() == wanted,
        (Header::Host(name), Wanted::Host(wanted)) => name.as_str() == wanted,
        (Header::Here(directory), Wanted::Here(wanted)) => directory.as_str() == wanted,
        (Header::Pid(pid), Wanted::Pid(wanted)) => *pid == wanted,
        (Header::Env(name, value), Wanted::Env(wanted, other)) => {
            name.as_str() == wanted && value.as_str() == other
        }
        (Header::Size(file, size), Wanted::Size(wanted, other)) => {
            file.as_str() == wanted && *size == other
        }
        (Header::Conf(text), Wanted::Conf(wanted)) => text.as_slice() == wanted,
        (Header::Include(name, text), Wanted::Include(wanted, other)) => {
            name.as_str() == wanted && text.as_slice() == other
        }
        _ => false,
    }
}

/// Header lines, each as it is to be read.
const READ_HEADERS: [(&str, Wanted); 13] = [
    ("supervisor-journal 0", Wanted::Journal(0)),
    ("supervisor-journal 1", Wanted::Journal(1)),
    ("host %C3%A4", Wanted::Host("\u{e4}")),
    ("here /etc/a%20b", Wanted::Here("/etc/a b")),
    ("pid 0", Wanted::Pid(0)),
    ("pid 4294967295", Wanted::Pid(u32::MAX)),
    ("env A %", Wanted::Env("A", "")),
    ("env % a=b", Wanted::Env("", "a=b")),
    (
        "size x.log 18446744073709551615",
        Wanted::Size("x.log", u64::MAX),
    ),
    ("conf %", Wanted::Conf(b"")),
    ("conf %00%FF", Wanted::Conf(b"\x00\xff")),
    ("conf [x]%0Aa=%25%0A", Wanted::Conf(b"[x]\na=%\n")),
    ("include a.conf %80~", Wanted::Include("a.conf", b"\x80~")),
];

/// Whether the line is read as it is to be.
fn is_read_as(alloc: Global, line: &str, wanted: Wanted) -> bool {
    match read_header(alloc, line.as_bytes()) {
        Ok(header) => is_wanted(&header, wanted),
        Err(_) => false,
    }
}

#[test]
fn headers_are_read(rt: HostRuntime) {
    for (line, wanted) in &READ_HEADERS {
        check_of(&rt, is_read_as(rt.alloc(), line, *wanted), line);
    }
}
