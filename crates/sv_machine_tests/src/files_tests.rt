//! Known sizes and the orders of logs, worked out by hand.
use crate::checks::check_of;
use crate::claims::{holds_at, is_number};
use crate::orders::{are_of_daemon, first_of};
use crate::sample::{config, group_of_one, logging};
use std::alloc::Global;
use std::process::Abort;
use sv_base::config::Config;
use sv_base::number::{Backups, CaptureBytes};
use sv_base::spec::{GroupSpec, LogSpec};
use sv_base::text::Text;
use sv_logs::KnownSizes;
use sv_out::order::Order;

/// The file of a log, the size from which it is rotated, and how many backups it keeps. The empty file is none.
type Log = (&'static str, u64, u32);

fn spec_of(rt: &impl Abort, log: Log) -> LogSpec {
    let (file, maxbytes, backups) = log;
    LogSpec {
        file: match file {
            "" => None,
            file => Some(Text::fixed(file)),
        },
        maxbytes,
        backups: Backups::new(backups).expect(rt, "a number of backups"),
        capture: CaptureBytes::least(),
        events: false,
    }
}

/// A group of a process with these logs.
fn group_of(
    rt: &impl Abort,
    alloc: Global,
    name: &'static str,
    stdout: Log,
    stderr: Log,
) -> GroupSpec {
    let spec = logging(alloc, "g", "p", spec_of(rt, stdout), spec_of(rt, stderr));
    group_of_one(rt, alloc, name, spec)
}

/// A log of this file that is never rotated.
fn kept(file: &'static str) -> Log {
    (file, 0, 0)
}

/// The main log `/m`, a process that logs to `/p` and `/e`, and one that logs to `/p` alone.
fn configured(rt: &impl Abort, alloc: Global) -> Config {
    let mut groups = Vec::new(alloc);
    groups
        .push(group_of(rt, alloc, "g", kept("/p"), kept("/e")))
        .expect(rt, "memory");
    groups
        .push(group_of(rt, alloc, "h", kept("/p"), kept("")))
        .expect(rt, "memory");
    config(rt, alloc, spec_of(rt, kept("/m")), groups)
}

fn known(rt: &impl Abort, alloc: Global) -> KnownSizes {
    let config = configured(rt, alloc);
    let sizes = KnownSizes::new(&config, Vec::new(alloc));
    drop(config);
    sizes.expect(rt, "memory")
}

/// Whether this file with this size is what is wanted.
fn is_sized(file: &Text, size: u64, wanted: &str) -> bool {
    match wanted.split_once(' ') {
        Some((name, digits)) => file.as_str() == name && is_number(digits, size),
        None => false,
    }
}

/// What stands behind this file and its size, which come first.
fn behind<'a>(rt: &impl Abort, file: &Text, size: u64, wanted: &'a str) -> &'a str {
    let (first, others) = first_of(wanted);
    check_of(rt, is_sized(file, size, first), wanted);
    others
}

/// These are the sizes, each after its file and with a semicolon behind it.
fn are_known(rt: &impl Abort, sizes: &KnownSizes, wanted: &str) {
    let mut left = wanted;
    for (file, size) in sizes.as_slice() {
        left = behind(rt, file, *size, left);
    }
    check_of(rt, left.is_empty(), left);
}

/// Takes a piece of a log.
fn take(
    rt: &impl Abort,
    alloc: Global,
    sizes: &mut KnownSizes,
    (log, piece): (Log, &str),
    given: &mut Vec<Order>,
) {
    let spec = spec_of(rt, log);
    let done = sizes.append(alloc, &spec, piece.as_bytes(), given);
    drop(spec);
    done.expect(rt, "memory");
}

/// A piece of a log comes, for which these are the orders.
fn comes(rt: &impl Abort, alloc: Global, sizes: &mut KnownSizes, piece: (Log, &str), orders: &str) {
    let mut given = Vec::new(alloc);
    take(rt, alloc, sizes, piece, &mut given);
    are_of_daemon(rt, given.as_slice(), orders);
    drop(given);
}

/// A log, a piece of it, and after it the orders for the piece and the sizes.
type Row = (Log, &'static str, &'static str, &'static str);

/// The pieces of a table come, one after the other.
fn come(rt: &impl Abort, alloc: Global, sizes: &mut KnownSizes, rows: &[Row]) {
    for (log, piece, orders, after) in rows {
        comes(rt, alloc, sizes, (*log, *piece), orders);
        are_known(rt, sizes, after);
    }
}

/// Logs of files that the configuration names or doesn't.
const GROWING: [Row; 4] = [
    (("/z", 0, 0), "ab", "append /z ab;", "/e 0;/m 0;/p 0;/z 2;"),
    (
        ("/a", 0, 0),
        "ab",
        "append /a ab;",
        "/a 2;/e 0;/m 0;/p 0;/z 2;",
    ),
    (
        ("/m", 0, 0),
        "ab",
        "append /m ab;",
        "/a 2;/e 0;/m 2;/p 0;/z 2;",
    ),
    (
        ("/a", 0, 0),
        "ab",
        "append /a ab;",
        "/a 4;/e 0;/m 2;/p 0;/z 2;",
    ),
];

#[test]
fn sizes_of_a_configuration(rt: HostRuntime) {
    let mut sizes = known(&rt, rt.alloc());
    are_known(&rt, &sizes, "/e 0;/m 0;/p 0;");
    come(&rt, rt.alloc(), &mut sizes, &GROWING);
    is_size(&rt, &sizes, "/a", 4);
    is_size(&rt, &sizes, "/n", 0);
    is_cleared(&mut sizes, "/a");
    is_cleared(&mut sizes, "/n");
    are_known(&rt, &sizes, "/a 0;/e 0;/m 2;/p 0;/z 2;");
    drop(sizes);
}

fn is_size(rt: &impl Abort, sizes: &KnownSizes, file: &'static str, size: u64) {
    holds_at(rt, sizes.size(&Text::fixed(file)) == size, size);
}

fn is_cleared(sizes: &mut KnownSizes, file: &'static str) {
    sizes.clear(&Text::fixed(file));
}

/// Logs without a file, without a limit, without backups, and with some.
const PIECES: [Row; 6] = [
    (("", 2, 1), "abc", "", "/e 0;/m 0;/p 0;"),
    (("/p", 0, 1), "ab", "append /p ab;", "/e 0;/m 0;/p 2;"),
    (
        ("/p", 3, 0),
        "c",
        "append /p c;fresh /p;",
        "/e 0;/m 0;/p 0;",
    ),
    (("/p", 2, 1), "d", "append /p d;", "/e 0;/m 0;/p 1;"),
    (
        ("/p", 2, 1),
        "e",
        "append /p e;shift /p /p.1;fresh /p;",
        "/e 0;/m 0;/p 0;",
    ),
    (
        ("/e", 2, 3),
        "fgh",
        "append /e fgh;shift /e.2 /e.3;shift /e.1 /e.2;shift /e /e.1;fresh /e;",
        "/e 0;/m 0;/p 0;",
    ),
];

#[test]
fn pieces_of_logs(rt: HostRuntime) {
    let mut sizes = known(&rt, rt.alloc());
    come(&rt, rt.alloc(), &mut sizes, &PIECES);
    drop(sizes);
}
