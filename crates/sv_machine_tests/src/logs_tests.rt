//! Logs, spans and lines, worked out by hand.
use crate::checks::{check, check_of};
use crate::claims::holds_at;
use crate::orders::are_of_log;
use crate::sample::moment;
use std::alloc::Global;
use std::process::Abort;
use sv_base::bytes::Bytes;
use sv_base::config::FileOrder;
use sv_base::number::Backups;
use sv_base::state::Level;
use sv_base::text::Text;
use sv_logs::{BadArguments, LogPlan, Span, main_line, read_span, tail_span};
use sv_out::{MapShelf, Shelf};

fn plan(rt: &impl Abort, maxbytes: u64, backups: u32, size: u64) -> LogPlan {
    LogPlan {
        file: Text::fixed("/l"),
        maxbytes,
        backups: Backups::new(backups).expect(rt, "a number of backups"),
        size,
    }
}

/// The greatest size of a log, how many backups it keeps and its size, a piece, and after it the size and the orders.
const APPENDS: [(u64, u32, u64, &str, u64, &str); 12] = [
    (4, 0, 0, "abc", 3, "append /l abc;"),
    (4, 0, 0, "abcd", 0, "append /l abcd;fresh /l;"),
    (
        4,
        2,
        0,
        "abcd",
        0,
        "append /l abcd;shift /l.1 /l.2;shift /l /l.1;fresh /l;",
    ),
    (4, 1, 1, "abc", 0, "append /l abc;shift /l /l.1;fresh /l;"),
    (0, 3, 0, "abc", 3, "append /l abc;"),
    (0, 0, u64::MAX, "abc", u64::MAX, "append /l abc;"),
    (u64::MAX, 1, u64::MAX - 1, "", u64::MAX - 1, "append /l ;"),
    (
        u64::MAX,
        1,
        u64::MAX - 1,
        "abc",
        0,
        "append /l abc;shift /l /l.1;fresh /l;",
    ),
    (1, 1, 0, "", 0, "append /l ;"),
    (4, 1, 9, "", 0, "append /l ;shift /l /l.1;fresh /l;"),
    (4, 0, 9, "x", 0, "append /l x;fresh /l;"),
    (
        2,
        3,
        0,
        "hi\n",
        0,
        "append /l hi\n;shift /l.2 /l.3;shift /l.1 /l.2;shift /l /l.1;fresh /l;",
    ),
];

/// The orders that an append of this piece gives.
fn orders_for(rt: &impl Abort, alloc: Global, plan: &mut LogPlan, piece: &str) -> Vec<FileOrder> {
    plan.append(alloc, piece.as_bytes()).expect(rt, "memory")
}

/// An append gives these orders.
fn gives(rt: &impl Abort, alloc: Global, plan: &mut LogPlan, piece: &str, orders: &str) {
    let given = orders_for(rt, alloc, plan, piece);
    are_of_log(rt, given.as_slice(), orders);
    drop(given);
}

/// What an append makes of the plan and orders.
fn appends(
    rt: &impl Abort,
    alloc: Global,
    mut plan: LogPlan,
    piece: &str,
    size: u64,
    orders: &str,
) {
    gives(rt, alloc, &mut plan, piece, orders);
    check_of(rt, plan.size == size, piece);
    drop(plan);
}

#[test]
fn orders_of_an_append(rt: HostRuntime) {
    for (maxbytes, backups, size, piece, after, orders) in &APPENDS {
        let plan = plan(&rt, *maxbytes, *backups, *size);
        appends(&rt, rt.alloc(), plan, piece, *after, orders);
    }
}

/// The orders of a plan with 1,000 backups whose size is over its limit.
fn many_orders(rt: &impl Abort, alloc: Global) -> Vec<FileOrder> {
    let mut plan = plan(rt, 1, 1_000, 0);
    let orders = orders_for(rt, alloc, &mut plan, "x");
    drop(plan);
    orders
}

/// A part of these orders, in order.
fn part_of(rt: &impl Abort, orders: &[FileOrder], from: usize, to: usize, wanted: &str) {
    are_of_log(rt, orders.get(from..to).unwrap_or(&[]), wanted);
}

/// With 1,000 backups there are 1,000 moves, the last backup first.
#[test]
fn orders_of_many_backups(rt: HostRuntime) {
    let orders = many_orders(&rt, rt.alloc());
    are_many(&rt, orders.as_slice());
    drop(orders);
}

/// These are the first and the last of 1,002 orders.
fn are_many(rt: &impl Abort, orders: &[FileOrder]) {
    holds_at(rt, orders.len() == 1_002, 1_002);
    part_of(
        rt,
        orders,
        0,
        3,
        "append /l x;shift /l.999 /l.1000;shift /l.998 /l.999;",
    );
    part_of(
        rt,
        orders,
        999,
        1_002,
        "shift /l.1 /l.2;shift /l /l.1;fresh /l;",
    );
}

/// The file of this name is there, and holds this.
fn hold(rt: &impl Abort, alloc: Global, files: &mut MapShelf, name: &'static str, held: &str) {
    let held = Bytes::from_slice(alloc, held.as_bytes()).expect(rt, "memory");
    files.set(Text::fixed(name), held).expect(rt, "memory");
}

/// Carries out one order on the files.
fn carry(rt: &impl Abort, alloc: Global, files: &mut MapShelf, order: &FileOrder) {
    let done = match order {
        FileOrder::Append(name, bytes) => files.append(alloc, name.as_str(), bytes.as_slice()),
        FileOrder::Shift(from, to) => files.shift(alloc, from.as_str(), to.as_str()),
        FileOrder::Fresh(name) => files.fresh(alloc, name.as_str()),
    };
    check(rt, done.is_ok());
}

/// Appends a piece to the log and carries out the orders for it.
fn grow(rt: &impl Abort, alloc: Global, files: &mut MapShelf, plan: &mut LogPlan, piece: &str) {
    let orders = orders_for(rt, alloc, plan, piece);
    for order in orders.as_slice() {
        carry(rt, alloc, files, order);
    }
    drop(orders);
}

/// A log of which there are two backups.
fn old_files(rt: &impl Abort, alloc: Global) -> MapShelf {
    let mut files = MapShelf::new(alloc, Vec::new(alloc));
    hold(rt, alloc, &mut files, "/l.1", "P");
    hold(rt, alloc, &mut files, "/l.2", "Q");
    files
}

/// There are so many files.
fn are_so_many(rt: &impl Abort, alloc: Global, files: &mut MapShelf, count: usize) {
    match files.names(alloc, "/*") {
        Ok(names) => holds_at(rt, names.as_slice().len() == count, count as u64),
        Err(_) => check_of(rt, false, "memory"),
    }
}

/// The file of this name holds this text.
fn is_held(rt: &impl Abort, alloc: Global, files: &MapShelf, name: &str, text: &str) {
    let held = match files.file(alloc, name) {
        Ok(Some(bytes)) => bytes.as_slice(),
        _ => b"no file",
    };
    check_of(rt, held == text.as_bytes(), name);
}

/// These are the files, each with what it holds.
fn are_kept(rt: &impl Abort, alloc: Global, files: &mut MapShelf, wanted: &[(&str, &str)]) {
    are_so_many(rt, alloc, files, wanted.len());
    for (name, text) in wanted {
        is_held(rt, alloc, files, name, text);
    }
}

/// A limit and a number of backups, pieces of the log, and the files after them.
type Growth = (
    u64,
    u32,
    &'static [&'static str],
    &'static [(&'static str, &'static str)],
);

const GROWTHS: [Growth; 5] = [
    (
        4,
        2,
        &["abc"],
        &[("/l", "abc"), ("/l.1", "P"), ("/l.2", "Q")],
    ),
    (
        4,
        2,
        &["abcd"],
        &[("/l", ""), ("/l.1", "abcd"), ("/l.2", "P")],
    ),
    (4, 0, &["abcd"], &[("/l", ""), ("/l.1", "P"), ("/l.2", "Q")]),
    (
        4,
        1,
        &["abcd"],
        &[("/l", ""), ("/l.1", "abcd"), ("/l.2", "Q")],
    ),
    (
        4,
        4,
        &["ab", "cde", "fghi", "j"],
        &[
            ("/l", "j"),
            ("/l.1", "fghi"),
            ("/l.2", "abcde"),
            ("/l.3", "P"),
            ("/l.4", "Q"),
        ],
    ),
];

/// The files after these pieces of a log with this limit and so many backups.
fn keeps(
    rt: &impl Abort,
    alloc: Global,
    limits: (u64, u32),
    pieces: &[&str],
    wanted: &[(&str, &str)],
) {
    let mut files = old_files(rt, alloc);
    grow_by_all(rt, alloc, &mut files, limits, pieces);
    are_kept(rt, alloc, &mut files, wanted);
    drop(files);
}

/// Appends pieces to a log with this limit and so many backups.
fn grow_by_all(
    rt: &impl Abort,
    alloc: Global,
    files: &mut MapShelf,
    limits: (u64, u32),
    pieces: &[&str],
) {
    let mut plan = plan(rt, limits.0, limits.1, 0);
    for piece in pieces {
        grow(rt, alloc, files, &mut plan, piece);
    }
    drop(plan);
}

#[test]
fn files_after_the_orders(rt: HostRuntime) {
    for (maxbytes, backups, pieces, wanted) in &GROWTHS {
        keeps(&rt, rt.alloc(), (*maxbytes, *backups), pieces, wanted);
    }
}

/// What is read of a log: its start and its length, or nothing where the arguments are bad.
fn read_of(size: u64, offset: i64, length: i64) -> Option<(u64, u64)> {
    match read_span(size, offset, length) {
        Ok(Span { start, length }) => Some((start, length)),
        Err(BadArguments) => None,
    }
}

/// The end that is read, from this byte and of this length, the size, and whether bytes before it were missed.
fn is_tail(size: u64, offset: i64, length: i64, span: (u64, u64), missed: bool) -> bool {
    let (part, next, flag) = tail_span(size, offset, length);
    (part.start, part.length) == span && next == size && flag == missed
}

/// A size, an offset and a length, and the start and the length of what is read.
const READS: [(u64, i64, i64, Option<(u64, u64)>); 22] = [
    (10, -4, 0, Some((6, 4))),
    (10, -4, 1, None),
    (10, 20, 0, Some((10, 0))),
    (10, 2, 3, Some((2, 3))),
    (10, -20, 0, Some((0, 10))),
    (10, 0, 0, Some((0, 10))),
    (10, 10, 5, Some((10, 0))),
    (10, 8, 5, Some((8, 2))),
    (10, 20, 5, Some((10, 0))),
    (10, 0, -1, None),
    (10, -1, -1, None),
    (0, 0, 0, Some((0, 0))),
    (0, -1, 0, Some((0, 0))),
    (10, i64::MIN, 0, Some((0, 10))),
    (10, i64::MAX, i64::MAX, Some((10, 0))),
    (10, i64::MIN, i64::MIN, None),
    (10, 0, i64::MIN, None),
    (2_000_000, 0, 0, Some((0, 1_048_576))),
    (2_000_000, 1, 1_048_577, Some((1, 1_048_576))),
    (2_000_000, -2_000_000, 0, Some((951_424, 1_048_576))),
    (
        u64::MAX,
        i64::MIN,
        0,
        Some((u64::MAX - 1_048_576, 1_048_576)),
    ),
    (
        u64::MAX,
        i64::MAX,
        i64::MAX,
        Some((9_223_372_036_854_775_807, 1_048_576)),
    ),
];

/// A size, an offset and a length, the start and the length of the end that is read, and whether bytes before it were missed.
const TAILS: [(u64, i64, i64, (u64, u64), bool); 14] = [
    (10, 2, 4, (6, 4), true),
    (10, 6, 4, (6, 4), false),
    (10, 8, 4, (8, 2), false),
    (10, 12, 4, (10, 0), false),
    (10, 0, 0, (10, 0), true),
    (10, 5, 4, (6, 4), true),
    (10, -5, 10, (0, 10), false),
    (10, 3, -1, (10, 0), true),
    (10, i64::MIN, i64::MIN, (10, 0), true),
    (10, i64::MAX, i64::MAX, (10, 0), false),
    (0, 0, 0, (0, 0), false),
    (2_000_000, 0, 1_999_999, (951_424, 1_048_576), true),
    (2_000_000, 0, 2_000_000, (951_424, 1_048_576), false),
    (
        u64::MAX,
        i64::MAX,
        i64::MAX,
        (u64::MAX - 1_048_576, 1_048_576),
        true,
    ),
];

/// A moment, a level and a text, and the line of the main log.
const LINES: [(u64, Level, &str, &str); 11] = [
    (
        1_000,
        Level::Info,
        "spawned: 'x' with pid 12",
        "1970-01-01 00:00:01,000 INFO spawned: 'x' with pid 12\n",
    ),
    (0, Level::Critical, "", "1970-01-01 00:00:00,000 CRIT \n"),
    (
        253_000_000_000_000,
        Level::Blather,
        "end",
        "9987-04-02 17:46:40,000 BLAT end\n",
    ),
    (
        951_868_799_999,
        Level::Error,
        "a",
        "2000-02-29 23:59:59,999 ERRO a\n",
    ),
    (
        951_868_800_000,
        Level::Warn,
        "a",
        "2000-03-01 00:00:00,000 WARN a\n",
    ),
    (
        4_107_542_399_999,
        Level::Debug,
        "a",
        "2100-02-28 23:59:59,999 DEBG a\n",
    ),
    (
        4_107_542_400_000,
        Level::Trace,
        "a",
        "2100-03-01 00:00:00,000 TRAC a\n",
    ),
    (
        1_709_210_096_007,
        Level::Info,
        "a",
        "2024-02-29 12:34:56,007 INFO a\n",
    ),
    (
        1_709_251_200_000,
        Level::Info,
        "a",
        "2024-03-01 00:00:00,000 INFO a\n",
    ),
    (
        1_704_067_199_999,
        Level::Info,
        "a",
        "2023-12-31 23:59:59,999 INFO a\n",
    ),
    (
        1_728_461_226_005,
        Level::Info,
        "\u{e9}",
        "2024-10-09 08:07:06,005 INFO \u{e9}\n",
    ),
];

#[test]
fn spans_and_lines(rt: HostRuntime) {
    for (size, offset, length, span) in &READS {
        holds_at(&rt, read_of(*size, *offset, *length) == *span, *size);
    }
    for (size, offset, length, span, missed) in &TAILS {
        holds_at(&rt, is_tail(*size, *offset, *length, *span, *missed), *size);
    }
    for (now, level, text, line) in &LINES {
        writes(&rt, rt.alloc(), (*now, *level), text, line);
    }
}

/// The line of the main log at this moment, of this level and with this text.
fn writes(rt: &impl Abort, alloc: Global, (now, level): (u64, Level), text: &str, line: &str) {
    let written = main_line(alloc, moment(rt, now), level, text).expect(rt, "memory");
    check_of(rt, written.as_slice() == line.as_bytes(), line);
    drop(written);
}
