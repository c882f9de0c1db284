//! The lines of a child's life along all edges of the diagram, and the other rows, written out by hand.
use crate::checks::check_of;
use crate::one_child::{Happening, Telling, answered, brought, is_answer, live, news, one_child};
use crate::sample::moment;
use std::alloc::Global;
use std::process::Abort;
use std::rt::HostRuntime;
use sv_base::bytes::Bytes;
use sv_base::moment::Moment;
use sv_base::state::{How, Level};
use sv_base::text::Text;
use sv_child::step::{ChildDeed, Edge, Step};
use sv_children::lines::{
    Line, how_of, is_written, killing_at, line_at, overflowed, spawned_at, written,
};
use sv_children::{Children, News};

/// What happens to the process p, one second after the other; startsecs is 2, startretries 1, stopwaitsecs 3, and 0 and 3 are
/// the expected exit codes. `tick` is a second that passes, `pid` answers the spawn, `refused` refuses it, `code` and `signal`
/// are ends of its process. After each stand the lines that it gives, each with the first letter of its level.
const LIFE: &str = "\
tick
pid 7|I spawned: 'p' with pid 7
tick
tick|I success: p entered RUNNING state, process has stayed up for > than 2 seconds (startsecs)
code 0|I exited: p (exit status 0; expected)
start
pid 8|I spawned: 'p' with pid 8
code 3|W exited: p (exit status 3; not expected)
tick
refused|I spawnerr: no room
tick|I gave up: p entered FATAL state, too many start retries too quickly
start
pid 9|I spawned: 'p' with pid 9
signal 11|W exited: p (terminated by signal 11; not expected)
stop
start
pid 10|I spawned: 'p' with pid 10
wait
wait
code 3|I success: p entered RUNNING state, process has stayed up for > than 2 seconds (startsecs)|I exited: p (exit status 3; expected)
start
pid 11|I spawned: 'p' with pid 11
tick
tick|I success: p entered RUNNING state, process has stayed up for > than 2 seconds (startsecs)
code 255|W exited: p (exit status 255; not expected)
start
pid 12|I spawned: 'p' with pid 12
tick
tick|I success: p entered RUNNING state, process has stayed up for > than 2 seconds (startsecs)
signal 9|W exited: p (terminated by SIGKILL; not expected)
start
pid 4294967295|I spawned: 'p' with pid 4294967295
stop
tick
tick
tick|W killing 'p' (4294967295) with SIGKILL
signal 15|I stopped: p (terminated by SIGTERM)
start
pid 14|I spawned: 'p' with pid 14
stop
code 1|I stopped: p (exit status 1)
start
pid 20|I spawned: 'p' with pid 20
stop
signal 1|I stopped: p (terminated by SIGHUP)
start
pid 21|I spawned: 'p' with pid 21
stop
signal 2|I stopped: p (terminated by SIGINT)
start
pid 22|I spawned: 'p' with pid 22
stop
signal 3|I stopped: p (terminated by SIGQUIT)
start
pid 23|I spawned: 'p' with pid 23
stop
signal 9|I stopped: p (terminated by SIGKILL)
start
pid 24|I spawned: 'p' with pid 24
stop
signal 10|I stopped: p (terminated by SIGUSR1)
start
pid 25|I spawned: 'p' with pid 25
stop
signal 11|I stopped: p (terminated by signal 11)
start
pid 26|I spawned: 'p' with pid 26
stop
signal 12|I stopped: p (terminated by SIGUSR2)
start
pid 27|I spawned: 'p' with pid 27
stop
signal 15|I stopped: p (terminated by SIGTERM)
start
pid 28|I spawned: 'p' with pid 28
stop
signal 64|I stopped: p (terminated by signal 64)
";

#[test]
fn each_edge_has_its_line(rt: HostRuntime) {
    live(&rt, rt.alloc(), LIFE, Telling::Lines);
}

#[test]
fn other_rows(rt: HostRuntime) {
    overflows(&rt, rt.alloc());
    has_no_line(&rt, rt.alloc());
    for (line, log, wanted) in &WRITTEN {
        check_of(&rt, is_written(*line, *log) == *wanted, "what is written");
    }
}

/// Two levels as `is_written` takes them, and what it answers.
const WRITTEN: [(Level, Level, bool); 4] = [
    (Level::Blather, Level::Blather, true),
    (Level::Blather, Level::Trace, false),
    (Level::Info, Level::Warn, false),
    (Level::Critical, Level::Warn, true),
];

/// The row of a pool that drops the last event of all.
const OVERFLOWED: &str =
    "1970-01-01 00:00:01,000 ERRO pool G event buffer overflowed, discarding event 18446744073709551615\n";

/// The line of that pool has its row, and a main log of critical lines alone hasn't the line.
fn overflows(rt: &impl Abort, alloc: Global) {
    let line = overflowed(alloc, &Text::fixed("G"), u64::MAX).expect(rt, "memory");
    is_row(rt, alloc, Level::Error, &line, OVERFLOWED);
    is_row(rt, alloc, Level::Critical, &line, "");
    drop(line);
}

/// A main log of this level has this row for the line, a second after its first moment; an empty one is none.
fn is_row(rt: &impl Abort, alloc: Global, level: Level, line: &Line, row: &str) {
    let written = written(alloc, level, moment(rt, 1_000), line).expect(rt, "memory");
    check_of(rt, is_the_row(&written, row), row);
    drop(written);
}

/// Whether this is the row; an empty one is none.
fn is_the_row(written: &Option<Bytes>, row: &str) -> bool {
    match written {
        Some(bytes) => bytes.as_slice() == row.as_bytes(),
        None => row.is_empty(),
    }
}

/// The line of the spawn of the child of this place.
fn spawned(rt: &impl Abort, alloc: Global, children: &Children, place: usize) -> Option<Line> {
    spawned_at(alloc, children, place, 7).expect(rt, "memory")
}

/// Where there is no child there is no line of its spawn.
fn has_no_line(rt: &impl Abort, alloc: Global) {
    let children = one_child(rt, alloc);
    let line = spawned(rt, alloc, &children, 1);
    check_of(rt, line.is_none(), "no child");
    drop(line);
    drop(children);
}

/// What happens to the child gives these lines.
pub fn tells_lines(
    rt: &impl Abort,
    alloc: Global,
    children: &mut Children,
    happening: &Happening<'_>,
    lines: &str,
) {
    let rest = if happening.word == "wait" {
        lines
    } else if is_answer(happening) {
        after_answer(rt, alloc, children, happening, lines)
    } else {
        let news = news(rt, happening);
        after_news(rt, alloc, children, &news, happening.now, lines)
    };
    check_of(rt, rest.is_empty(), rest);
}

/// What is left of these lines after those of an answer to the child's spawn.
fn after_answer<'a>(
    rt: &impl Abort,
    alloc: Global,
    children: &mut Children,
    happening: &Happening<'_>,
    lines: &'a str,
) -> &'a str {
    let step = answered(rt, children, happening);
    let mut rest = lines;
    if happening.word == "pid" {
        let line = spawned_at(alloc, children, 0, happening.number);
        rest = after(rt, line.expect(rt, "memory"), rest);
    }
    after_edges(rt, alloc, children, &None, step, rest)
}

/// What is left of these lines after those of news for the child: of its edges, and of its end by a deadline.
fn after_news<'a>(
    rt: &impl Abort,
    alloc: Global,
    children: &mut Children,
    news: &News,
    now: Moment,
    lines: &'a str,
) -> &'a str {
    let step = brought(children, news, now);
    let rest = after_edges(rt, alloc, children, &how_of(news), step, lines);
    let line = killing_at(alloc, news, deed_of(step), children, 0);
    after(rt, line.expect(rt, "memory"), rest)
}

fn deed_of(step: Option<Step>) -> Option<ChildDeed> {
    match step {
        Some(step) => step.deed,
        None => None,
    }
}

/// What is left of these lines after those of a step's edges.
fn after_edges<'a>(
    rt: &impl Abort,
    alloc: Global,
    children: &Children,
    how: &Option<How>,
    step: Option<Step>,
    lines: &'a str,
) -> &'a str {
    match step {
        Some(step) => {
            let rest = after_edge(rt, alloc, children, how, step.edges[0], lines);
            after_edge(rt, alloc, children, how, step.edges[1], rest)
        }
        None => lines,
    }
}

/// What is left of these lines after that of an edge.
fn after_edge<'a>(
    rt: &impl Abort,
    alloc: Global,
    children: &Children,
    how: &Option<How>,
    edge: Option<Edge>,
    lines: &'a str,
) -> &'a str {
    match edge {
        Some(edge) => {
            let line = line_at(alloc, children, 0, *how, edge);
            after(rt, line.expect(rt, "memory"), lines)
        }
        None => lines,
    }
}

/// What is left of these lines after this one, which is the first of them where there is one.
fn after<'a>(rt: &impl Abort, line: Option<Line>, lines: &'a str) -> &'a str {
    let rest = match &line {
        Some(line) => behind(rt, line, lines),
        None => lines,
    };
    drop(line);
    rest
}

/// What is left of these lines after this one, which is the first of them.
fn behind<'a>(rt: &impl Abort, line: &Line, lines: &'a str) -> &'a str {
    let (first, rest) = lines.split_once('|').unwrap_or((lines, ""));
    check_of(rt, is_line(line, first), first);
    rest
}

/// The line is this one: the first letter of its level, a space, and its text.
fn is_line(line: &Line, wanted: &str) -> bool {
    let letter = match line.level {
        Level::Info => "I",
        Level::Warn => "W",
        _ => "?",
    };
    wanted.split_once(' ') == Some((letter, line.text.as_str()))
}
