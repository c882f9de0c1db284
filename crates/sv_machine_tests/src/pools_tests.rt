//! Calls of a daemon's pools, and what they order, worked out by hand.
use crate::checks::check_of;
use crate::claims::{is_number, text_of};
use crate::sample::{group, processes, roster};
use std::alloc::Global;
use std::process::Abort;
use sv_base::ids::{ChildId, Run};
use sv_base::items::Items;
use sv_base::kind::Kind;
use sv_base::number::BufferSize;
use sv_base::spec::{GroupSpec, PoolSpec};
use sv_base::text::Text;
use sv_events::Fact;
use sv_out::order::Order;
use sv_pool::Pools;

// The start order is a:a, then the listeners e:x and e:y of the pool e, which asks for EVENT and has room for two events,
// then the listener t:t of the pool t, which asks for TICK and has room for one. Each line is a script. `t` offers a TICK_5
// and `s` that the daemon runs. `h1` hands to the process of place 1, as run 11, and `k1`, `r1` acknowledge and reject what
// it holds. What follows a colon is to be ordered: `e0/1` is that pool e drops its event 0, whose number among all is 1;
// `11>s0/1` that run 11 gets the event s, which has number 0 among all and 1 in its pool.
const SCRIPTS: &str = "\
s h0 h1:11>s0/0 h1 h2 h3
t h3:13>t0/0 h1:11>t0/0 k1 h1
t t:t0/0 h3:13>t1/1 h1:11>t0/0 h2:12>t1/1
s s s:e0/0 h1:11>s1/1 h2:12>s2/2
s t h3:13>t1/0 h1:11>s0/0 r1 h2:12>s0/0 h1:11>t1/1
s h1:11>s0/0 s s r1:e1/1 h2:12>s0/0 h1:11>s2/2
s h1:11>s0/0 t h2:12>t1/1 r2 r1 h1:11>s0/0
s h1:11>s0/0 t h2:12>t1/1 r1 r2 h1:11>t1/1 k1 h1:11>s0/0
t h3:13>t0/0 t r3:t1/1 h3:13>t0/0 k3 h3
s k1 r1 h1:11>s0/0 k0 k3 k1 k1 r1 h1
";

#[test]
fn plays_scripts(rt: HostRuntime) {
    for script in SCRIPTS.lines() {
        play_all(&rt, rt.alloc(), script);
    }
}

/// Makes the steps of a script.
fn play_all(rt: &impl Abort, alloc: Global, script: &str) {
    let mut pools = pools(rt, alloc);
    for word in script.split(' ') {
        play(rt, alloc, &mut pools, word);
    }
    drop(pools);
}

/// Makes one step of a script, and looks at what it orders.
fn play(rt: &impl Abort, alloc: Global, pools: &mut Pools, word: &str) {
    let (step, wanted) = word.split_once(':').unwrap_or((word, ""));
    let mut given = Vec::new(alloc);
    make(rt, alloc, pools, step, wanted, &mut given);
    are_ordered(rt, alloc, given.as_slice(), wanted);
    drop(given);
}

/// Makes the step.
fn make(
    rt: &impl Abort,
    alloc: Global,
    pools: &mut Pools,
    step: &str,
    wanted: &str,
    given: &mut Vec<Order>,
) {
    match step.as_bytes() {
        [b's'] => offer(rt, alloc, pools, Kind::SupervisorStateChangeRunning, given),
        [b't'] => offer(rt, alloc, pools, Kind::Tick5, given),
        [b'h', place] => {
            let is_handed = is_handed(rt, alloc, pools, *place, given);
            check_of(rt, is_handed != wanted.is_empty(), step);
            check_of(rt, !is_handed | pools.holds(child(*place)), step);
        }
        [b'k', place] => pools.acknowledge(child(*place)),
        [b'r', place] => pools.reject(child(*place), given).expect(rt, "memory"),
        _ => check_of(rt, false, "no such step"),
    }
}

/// Offers an event of this type: a tick, or that the daemon runs.
fn offer(rt: &impl Abort, alloc: Global, pools: &mut Pools, kind: Kind, given: &mut Vec<Order>) {
    let fact = fact_of(kind);
    let done = pools.offer(alloc, kind, &fact, given);
    drop(fact);
    done.expect(rt, "memory");
}

fn fact_of(kind: Kind) -> Fact {
    match kind {
        Kind::Tick5 => Fact::Tick { when: 5 },
        _ => Fact::Supervisor,
    }
}

/// Whether an event is handed to the process of this place.
fn is_handed(
    rt: &impl Abort,
    alloc: Global,
    pools: &mut Pools,
    place: u8,
    given: &mut Vec<Order>,
) -> bool {
    let run = Run(10 + u32::from(place.saturating_sub(b'0')));
    let done = pools.hand_to(alloc, "sv", child(place), run, given);
    done.expect(rt, "memory")
}

fn child(digit: u8) -> ChildId {
    ChildId(u32::from(digit.saturating_sub(b'0')))
}

/// Nothing is ordered, or what a script writes.
fn are_ordered(rt: &impl Abort, alloc: Global, orders: &[Order], wanted: &str) {
    match orders {
        [] => check_of(rt, wanted.is_empty(), wanted),
        [order] => is_ordered(rt, alloc, order, wanted),
        _ => check_of(rt, false, wanted),
    }
}

/// The order is this one.
fn is_ordered(rt: &impl Abort, alloc: Global, order: &Order, wanted: &str) {
    match order {
        Order::Dropped {
            pool,
            serial,
            poolserial,
        } => {
            let numbers = wanted.strip_prefix(pool.as_str()).unwrap_or("");
            check_of(rt, are_numbers(numbers, *poolserial, *serial), wanted);
        }
        Order::Stdin { run, bytes } => {
            is_handed_over(rt, alloc, run.0, text_of(bytes.as_slice()), wanted);
        }
        _ => panic!(rt; "no such order is given"),
    }
}

/// Whether these are written with a stroke between them.
fn are_numbers(text: &str, first: u64, second: u64) -> bool {
    match text.split_once('/') {
        Some((one, other)) => is_number(one, first) && is_number(other, second),
        None => false,
    }
}

/// The run gets the event that a script writes.
fn is_handed_over(rt: &impl Abort, alloc: Global, run: u32, text: &str, wanted: &str) {
    let (digits, event) = wanted.split_once('>').unwrap_or(("", wanted));
    check_of(rt, is_number(digits, u64::from(run)), wanted);
    let pool = if run == 13 { "t" } else { "e" };
    is_enveloped(rt, alloc, pool, event, text);
}

/// The text is the envelope of the event that a script writes, in this pool.
fn is_enveloped(rt: &impl Abort, alloc: Global, pool: &str, event: &str, text: &str) {
    let (serial, poolserial) = event.split_once('/').unwrap_or((event, ""));
    let envelope = envelope(rt, alloc, pool, serial, poolserial);
    check_of(rt, envelope.as_str() == text, event);
    drop(envelope);
}

/// The serial of an event that a script writes, and what its envelope says behind the numbers.
fn told_of(serial: &str) -> (&str, &str) {
    match serial.strip_prefix('s') {
        Some(serial) => (serial, "eventname:SUPERVISOR_STATE_CHANGE_RUNNING len:0\n"),
        None => (
            serial.strip_prefix('t').unwrap_or(""),
            "eventname:TICK_5 len:6\nwhen:5",
        ),
    }
}

/// The envelope of the event that a script writes by its letter and its number among all, with this number in this pool.
fn envelope(rt: &impl Abort, alloc: Global, pool: &str, event: &str, poolserial: &str) -> String {
    let (serial, head) = told_of(event);
    let text = format!(in alloc;
        "ver:3.0 server:sv serial:{serial} pool:{pool} poolserial:{poolserial} {head}"
    );
    text.expect(rt, "memory")
}

/// A group of these processes.
fn group_of(
    rt: &impl Abort,
    alloc: Global,
    name: &'static str,
    members: &[&'static str],
) -> GroupSpec {
    group(Text::fixed(name), processes(rt, alloc, name, members))
}

/// A pool of this size for events of this type.
fn pool(rt: &impl Abort, alloc: Global, kind: Kind, buffer: u32) -> PoolSpec {
    let mut kinds = Items::new(alloc);
    kinds.push(kind).expect(rt, "memory");
    PoolSpec {
        kinds,
        buffer: BufferSize::new(buffer).expect(rt, "a size"),
    }
}

/// A group of these listeners, with a pool of this size for events of this type.
fn listeners(
    rt: &impl Abort,
    alloc: Global,
    name: &'static str,
    members: &[&'static str],
    kind: Kind,
    buffer: u32,
) -> GroupSpec {
    let mut group = group_of(rt, alloc, name, members);
    group.pool = Some(pool(rt, alloc, kind, buffer));
    group
}

fn groups(rt: &impl Abort, alloc: Global) -> Vec<GroupSpec> {
    let mut groups = Vec::new(alloc);
    groups
        .push(group_of(rt, alloc, "a", &["a"]))
        .expect(rt, "memory");
    groups
        .push(listeners(rt, alloc, "e", &["x", "y"], Kind::Event, 2))
        .expect(rt, "memory");
    groups
        .push(listeners(rt, alloc, "t", &["t"], Kind::Tick, 1))
        .expect(rt, "memory");
    groups
}

fn pools(rt: &impl Abort, alloc: Global) -> Pools {
    let roster = roster(rt, alloc, groups(rt, alloc));
    let pools = Pools::new(alloc, &roster);
    drop(roster);
    pools.expect(rt, "memory")
}
