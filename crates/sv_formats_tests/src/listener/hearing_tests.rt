//! Streams of events, worked by hand from the protocol.

ghost use Rattle.std.specs.Prelude.{◌≤◌};

use crate::checks::{check, same};
use std::alloc::Global;
use std::process::Abort;
use sv_listener::{HeardFault, ListenerSide};

// Two events, of which the second has no body.
const STREAM: &[u8] =
    b"ver:3.0 server:supervisor serial:21 pool:p poolserial:10 eventname:TICK_5 len:6\nwhen:5ver:3.0 server: serial:0 pool: poolserial:0 eventname:SUPERVISOR_STATE_CHANGE_RUNNING len:0\n";

// Each line is a header line that is refused.
const BAD: &str = "\
ver:3.0 server:s serial:1 pool:p poolserial:1 eventname:TICK_5 len:x
ver:3.0 server:s serial:01 pool:p poolserial:1 eventname:TICK_5 len:1
ver:3.0 server:s serial:+1 pool:p poolserial:1 eventname:TICK_5 len:1
ver:3.0 server:s serial:18446744073709551616 pool:p poolserial:1 eventname:TICK_5 len:1
ver:3.0 server:s serial:1 pool:p poolserial:1 eventname:TICK_7 len:1
ver:3.0 server:s serial:1 pool:p poolserial:1 eventname:TICK_5 len:1 x:1
ver:3.0 server:s serial:1 pool:p poolserial:1 eventname:TICK_5
ver:2.0 server:s serial:1 pool:p poolserial:1 eventname:TICK_5 len:1
ver:3.0  server:s serial:1 pool:p poolserial:1 eventname:TICK_5 len:1

";

/// The stream, in pieces of at most so many bytes: the names of its events, each followed by a space.
fn play(rt: &impl Abort, alloc: Global, size: usize)
    requires { 1 ≤ size }
{
    let mut side = ListenerSide::new(alloc);
    let mut told = String::new(alloc);
    for piece in STREAM.chunks(size) {
        let events = side.feed(alloc, piece).expect(rt, "ample memory");
        for event in events.as_slice() {
            told.push_str(event.eventname.as_str())
                .expect(rt, "ample memory");
            told.push(' ').expect(rt, "ample memory");
        }
    }
    same(rt, told.as_str(), "TICK_5 SUPERVISOR_STATE_CHANGE_RUNNING ");
    check(rt, side.between() && side.fault().is_none());
}

fn refuse(rt: &impl Abort, alloc: Global, line: &[u8], fault: HeardFault) {
    let mut side = ListenerSide::new(alloc);
    side.feed(alloc, line).expect(rt, "ample memory");
    let events = side.feed(alloc, b"\n").expect(rt, "ample memory");
    check(rt, events.as_slice().is_empty());
    check(rt, side.fault() == Some(fault) && side.between());
}

#[test]
fn events_are_heard_in_pieces(rt: HostRuntime) {
    for size in 1..40 {
        play(&rt, rt.alloc(), size);
    }
    for line in BAD.lines() {
        refuse(&rt, rt.alloc(), line.as_bytes(), HeardFault::BadHeader);
    }
    refuse(
        &rt,
        rt.alloc(),
        b"ver:3.0 server:s serial:1 pool:p poolserial:1 eventname:TICK_5 len:33554433",
        HeardFault::TooLong,
    );
    refuse(
        &rt,
        rt.alloc(),
        b"ver:3.0 server:s serial:1 pool:p poolserial:1 eventname:TICK_5 len:99999999999999999999",
        HeardFault::TooLong,
    );
}
