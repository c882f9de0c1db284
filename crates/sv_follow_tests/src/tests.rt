//! Logs that are followed over a dial, a clock and an output in memory.
ghost use Rattle.std.specs.Prelude.{◌≤◌};

use crate::checks::{all_seconds, same_bytes, same_number, same_text};
use crate::logs::{bytes_of, dial_of, one_call, put_script, valued};
use crate::sessions::{BAD, FAILURES, Failure, SESSIONS, Session};
use std::alloc::Global;
use std::collections::VecDeque;
use std::process::Abort;
use sv_base::{ClientSpec, Moment, Place, Stream, Text};
use sv_ctl::talk::Server;
use sv_follow::follow;
use sv_out::ScriptDial;
use sv_out::sink::ListSink;
use sv_outside::FixedClock;

/// What a log is followed with, and the status once it is over.
struct Following {
    dial: ScriptDial,
    clock: FixedClock,
    out: ListSink,
    status: u8,
}

impl Drop for Following {
    fn drop(self) {
        let Self {
            dial: _,
            clock: _,
            out: _,
            status: _,
        } = self;
    }
}

fn server() -> Server {
    Server {
        place: Place::Inet(Text::fixed("h"), 1),
        client: ClientSpec {
            url: Text::fixed("http://h:1"),
            username: Text::fixed(""),
            password: Text::fixed(""),
        },
    }
}

/// A clock that tells eight pauses.
pub(crate) fn clock(rt: &impl Abort, alloc: Global) -> FixedClock {
    FixedClock::new(alloc, Moment::zero(), VecDeque::new(alloc), 8).expect(rt, "ample memory")
}

/// The log of `x` followed over this dial, so many polls, where the output takes so many bytes at a time at most and fails at this
/// call.
fn followed(
    rt: &impl Abort,
    alloc: Global,
    dial: ScriptDial,
    polls: u32,
    most: usize,
    failing: u64,
) -> Following
    requires { 1 ≤ most }
{
    let server = server();
    let mut following = Following {
        dial,
        clock: clock(rt, alloc),
        out: ListSink::new(alloc, most, one_call(rt, alloc, failing)),
        status: 0,
    };
    let parts = &mut following;
    parts.status = follow(
        alloc,
        &server,
        "x",
        Stream::Out,
        polls,
        &mut parts.dial,
        &mut parts.clock,
        &mut parts.out,
    );
    following
}

/// It ended with this status and printed what this text of a table stands for.
fn came_to(
    rt: &impl Abort,
    alloc: Global,
    row: &str,
    following: &Following,
    status: u8,
    text: &str,
) {
    same_number(rt, row, following.status as usize, status as usize);
    let wanted = bytes_of(rt, alloc, text);
    same_bytes(rt, row, following.out.written(), wanted.as_slice());
}

/// It waited so often, each time for a second.
fn waited(rt: &impl Abort, row: &str, clock: &FixedClock, waits: usize) {
    let pauses = clock.pauses().expect(rt, "told pauses");
    all_seconds(rt, row, pauses);
    same_number(rt, row, pauses.len(), waits);
}

fn put_word(rt: &impl Abort, line: &mut String, word: &str) {
    if !line.is_empty() {
        line.push(' ').expect(rt, "ample memory");
    }
    line.push_str(word).expect(rt, "ample memory");
}

/// Adds what stands before the end of an integer, behind a space where something stands before it.
fn put_integer(rt: &impl Abort, line: &mut String, part: &str) {
    if let Some((number, _)) = part.split_once("</int>") {
        put_word(rt, line, number);
    }
}

/// Adds the integers of a request.
fn put_integers(rt: &impl Abort, alloc: Global, line: &mut String, sent: &[u8]) {
    let sent = String::from_utf8_lossy(alloc, sent).expect(rt, "ample memory");
    for part in sent.as_str().split("<int>") {
        put_integer(rt, line, part);
    }
}

/// The requests over this dial have these integers.
fn asked(rt: &impl Abort, alloc: Global, row: &str, dial: &ScriptDial, calls: &str) {
    let mut line = String::new(alloc);
    for exchange in dial.exchanges() {
        put_integers(rt, alloc, &mut line, exchange.sent.as_slice());
    }
    same_text(rt, row, line.as_str(), calls);
}

fn polls_in(logs: &str) -> u32 {
    let mut count = 0u32;
    for _ in logs.split('|') {
        count = count.saturating_add(1);
    }
    count
}

/// The session comes to what its row says, whose replies and whose output come so many bytes at a time at most.
fn session_is(rt: &impl Abort, alloc: Global, session: &Session, most: usize)
    requires { 1 ≤ most }
{
    let (logs, status, text, waits, calls) = *session;
    let dial = dial_of(rt, alloc, logs, most, 0, 0);
    let following = followed(rt, alloc, dial, polls_in(logs), most, 0);
    came_to(rt, alloc, logs, &following, status, text);
    waited(rt, logs, &following.clock, waits);
    asked(rt, alloc, logs, &following.dial, calls);
}

#[test]
fn logs_are_followed(rt: HostRuntime) {
    for session in &SESSIONS {
        session_is(&rt, rt.alloc(), session, 100_000);
    }
}

#[test]
fn pieces_change_nothing(rt: HostRuntime) {
    for session in &SESSIONS {
        session_is(&rt, rt.alloc(), session, 7);
    }
}

/// A dial whose one reply has this value.
fn dial_with(rt: &impl Abort, alloc: Global, value: &str) -> ScriptDial {
    let reply = valued(rt, alloc, value);
    let mut scripts = VecDeque::new(alloc);
    put_script(rt, alloc, &mut scripts, reply.as_str(), 100_000, 0);
    ScriptDial::new(alloc, scripts, Vec::new(alloc))
}

/// A value that no tail method gives ends the following.
fn value_is_bad(rt: &impl Abort, alloc: Global, value: &str) {
    let dial = dial_with(rt, alloc, value);
    let following = followed(rt, alloc, dial, 2, 100_000, 0);
    came_to(rt, alloc, value, &following, 7, "Error: bad reply~");
}

#[test]
fn other_values_are_bad_replies(rt: HostRuntime) {
    for value in &BAD {
        value_is_bad(&rt, rt.alloc(), value);
    }
}

/// A session over `ab` and `abcd` whose calls fail as the row says.
fn failure_is(rt: &impl Abort, alloc: Global, failure: &Failure) {
    let ([dials, links, writes], status, text) = *failure;
    let dial = dial_of(rt, alloc, "ab|abcd", 100_000, dials, links);
    let following = followed(rt, alloc, dial, 2, 100_000, writes);
    came_to(rt, alloc, text, &following, status, text);
}

#[test]
fn failures_end_it(rt: HostRuntime) {
    for failure in &FAILURES {
        failure_is(&rt, rt.alloc(), failure);
    }
}
