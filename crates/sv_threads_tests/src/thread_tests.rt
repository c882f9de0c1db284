//! Worlds over a gate that starts threads.

use crate::checks::check;
use crate::course::{Course, go_over};
use crate::parts::{TestJob, bytes_of, give, heard, parts_of, spawn_order};
use crate::start_gate::{StartGate, receive_and_work};
use crossbeam_channel::Receiver;
use std::alloc::Global;
use std::collections::VecDeque;
use std::process::Abort;
use std::sync::Wait;
use std::thread;
use sv_base::{LinkId, Place, Text};
use sv_out::order::Order;
use sv_out::{Script, ScriptLink};
use sv_outside::{Gate, ScriptListen, World};

/// What is done over a gate that starts threads.
#[derive(Drop)]
enum Started {
    Run,
    Link,
}

impl Course for Started {
    fn over<W: World>(&self, rt: &impl Abort, alloc: Global, world: &mut W) {
        match self {
            Started::Run => hear_run(rt, alloc, world),
            Started::Link => serve_link(rt, alloc, world),
        }
    }
}

/// Goes through it over this gate, with these links and this console.
fn go_over_started<G: Gate<TestJob<R>> + Drop, R: Abort + Wait + std::time::Clock + Copy>(
    rt: R,
    alloc: Global,
    inet: Option<ScriptListen>,
    console: &str,
    gate: G,
    course: Started,
)
    requires { G.ready gate }
{
    go_over(
        rt,
        alloc,
        parts_of(rt, alloc, &[], inet, console),
        gate,
        &course,
    );
}

/// Spawns a program that writes `hi`, and hears what comes of it: two pieces of a byte, both ends, its exit, and the
/// signal of the console, in whatever order.
fn hear_run<W: World>(rt: &impl Abort, alloc: Global, world: &mut W) {
    give(rt, alloc, world, spawn_order(alloc, 1));
    check(rt, heard(rt, alloc, world) == 'p');
    let (mut pieces, mut ends, mut exits, mut signals) = (0u8, 0u8, 0u8, 0u8);
    for _ in 0..10_000 {
        if pieces == 2 && ends == 2 && exits == 1 && signals == 1 {
            return;
        }
        match heard(rt, alloc, world) {
            'o' => pieces = pieces.wrapping_add(1),
            'e' => ends = ends.wrapping_add(1),
            'x' => exits = exits.wrapping_add(1),
            's' => signals = signals.wrapping_add(1),
            't' => {}
            _ => assert!(rt; false),
        }
    }
    assert!(rt; false);
}

#[test]
fn a_run_is_heard_from_threads(rt: HostRuntime) {
    let gate = StartGate::new(
        rt,
        rt.alloc(),
        move |from: Receiver<TestJob<HostRuntime>>| {
            thread::spawn(&rt, move || receive_and_work(&rt, &from)).is_ok()
        },
    );
    go_over_started(rt, rt.alloc(), None, "signal TERM\n", gate, Started::Run);
}

/// What accepts one link, which gives `ab`.
fn one_link(rt: &impl Abort, alloc: Global) -> ScriptListen {
    let bytes = Vec::from_slice(alloc, b"ab").expect(rt, "ample memory");
    let script = Script::new(bytes, 9, Vec::new(alloc));
    let mut links = VecDeque::new(alloc);
    links
        .push_back(ScriptLink::new(alloc, Place::Unix(Text::fixed("/s")), script))
        .expect(rt, "ample memory");
    ScriptListen::new(links, Vec::new(alloc))
}

/// The next input but a tick.
fn next_heard<W: World>(rt: &impl Abort, alloc: Global, world: &mut W) -> char {
    for _ in 0..10_000 {
        match heard(rt, alloc, world) {
            't' => {}
            letter => return letter,
        }
    }
    '?'
}

/// Hears a link, reads from it, sends over it and closes it.
fn serve_link<W: World>(rt: &impl Abort, alloc: Global, world: &mut W) {
    check(rt, next_heard(rt, alloc, world) == '1');
    give(rt, alloc, world, Order::More { link: LinkId(1) });
    check(rt, next_heard(rt, alloc, world) == 'P');
    let bytes = bytes_of(rt, alloc, "x");
    give(
        rt,
        alloc,
        world,
        Order::Send {
            link: LinkId(1),
            bytes,
        },
    );
    give(rt, alloc, world, Order::Close { link: LinkId(1) });
    check(rt, next_heard(rt, alloc, world) == 'L');
}

#[test]
fn a_link_is_served_by_a_thread(rt: HostRuntime) {
    let gate = StartGate::new(
        rt,
        rt.alloc(),
        move |from: Receiver<TestJob<HostRuntime>>| {
            thread::spawn(&rt, move || receive_and_work(&rt, &from)).is_ok()
        },
    );
    let listen = one_link(&rt, rt.alloc());
    go_over_started(rt, rt.alloc(), Some(listen), "", gate, Started::Link);
}
