//! The events of a child's life along all edges of the diagram, written out by hand.
use crate::checks::{check, check_of};
use crate::claims::text_of;
use crate::one_child::{Happening, Telling, answered, brought, is_answer, live, news, one_child};
use std::alloc::Global;
use std::process::Abort;
use std::rt::HostRuntime;
use sv_base::bytes::Bytes;
use sv_base::state::State;
use sv_child::step::{Edge, Step};
use sv_children::{Children, fact_at, kind_of, pid_at};
use sv_events::{Fact, body};

/// What happens to the process p of the group g, one second after the other; startsecs is 2, startretries 1, and 0 and 3
/// are the expected exit codes. `tick` is a second that passes, `pid` answers the spawn, `refused` refuses it, `code` and
/// `signal` are ends of its process. After each stand the events of its edges: the end of the type's name, the state that
/// was left, and what else the body says.
const LIFE: &str = "\
tick|STARTING STOPPED tries:0
pid 7
tick
tick|RUNNING STARTING pid:7
code 0|EXITED RUNNING expected:1 pid:7
start|STARTING EXITED tries:0
pid 8
code 0|BACKOFF STARTING tries:1
tick|STARTING BACKOFF tries:1
refused|BACKOFF STARTING tries:2
tick|FATAL BACKOFF
start|STARTING FATAL tries:0
pid 9
stop|STOPPING STARTING pid:9
signal 15|STOPPED STOPPING pid:9
start|STARTING STOPPED tries:0
refused|BACKOFF STARTING tries:1
stop|STOPPED BACKOFF pid:0
start|STARTING STOPPED tries:0
pid 10
wait
wait
code 3|RUNNING STARTING pid:10|EXITED RUNNING expected:1 pid:10
start|STARTING EXITED tries:0
pid 11
tick
tick|RUNNING STARTING pid:11
code 1|EXITED RUNNING expected:0 pid:11
start|STARTING EXITED tries:0
pid 12
tick
tick|RUNNING STARTING pid:12
signal 9|EXITED RUNNING expected:0 pid:12
start|STARTING EXITED tries:0
pid 13
tick
tick|RUNNING STARTING pid:13
stop|STOPPING RUNNING pid:13
code 0|STOPPED STOPPING pid:13
";

#[test]
fn each_edge_has_its_event(rt: HostRuntime) {
    live(&rt, rt.alloc(), LIFE, Telling::Events);
}

#[test]
fn no_child_tells_nothing(rt: HostRuntime) {
    let children = one_child(&rt, rt.alloc());
    no_child_has_events(&rt, &children);
    drop(children);
    check(
        &rt,
        kind_of(State::Unknown).name() == "PROCESS_STATE_UNKNOWN",
    );
}

/// Whether there is no fact of an edge of the child of this place.
fn has_no_fact(rt: &impl Abort, children: &Children, place: usize) -> bool {
    let edge = Edge {
        from: State::Stopped,
        to: State::Starting,
    };
    let fact = fact_at(children, place, 0, edge).expect(rt, "memory");
    let is_none = fact.is_none();
    drop(fact);
    is_none
}

/// Where there is no child there are no facts of its edges, and it has no pid.
fn no_child_has_events(rt: &impl Abort, children: &Children) {
    check_of(rt, has_no_fact(rt, children, 1), "no child");
    check_of(rt, pid_at(children, 1) == 0, "no child");
}

/// What happens to the child gives these events.
pub fn tells_events(
    rt: &impl Abort,
    alloc: Global,
    children: &mut Children,
    happening: &Happening<'_>,
    events: &str,
) {
    let pid = pid_at(children, 0);
    match step(rt, children, happening) {
        Some(step) => {
            let (before, behind) = events.split_once('|').unwrap_or((events, ""));
            tells(rt, alloc, children, pid, step.edges[0], before);
            tells(rt, alloc, children, pid, step.edges[1], behind);
        }
        None => check_of(rt, events.is_empty(), events),
    }
}

/// The step of the child, where it takes one.
fn step(rt: &impl Abort, children: &mut Children, happening: &Happening<'_>) -> Option<Step> {
    if happening.word == "wait" {
        None
    } else if is_answer(happening) {
        answered(rt, children, happening)
    } else {
        brought(children, &news(rt, happening), happening.now)
    }
}

/// The edge gives this event, and where there is no edge there is none.
fn tells(
    rt: &impl Abort,
    alloc: Global,
    children: &Children,
    pid: u32,
    edge: Option<Edge>,
    event: &str,
) {
    match edge {
        Some(edge) => is_event(rt, alloc, children, pid, edge, event),
        None => check_of(rt, event.is_empty(), event),
    }
}

/// The event of the edge is this one, as the script writes it.
fn is_event(
    rt: &impl Abort,
    alloc: Global,
    children: &Children,
    pid: u32,
    edge: Edge,
    event: &str,
) {
    let (name, rest) = event.split_once(' ').unwrap_or((event, ""));
    let kind = kind_of(edge.to).name();
    check_of(rt, is_behind(kind, "PROCESS_STATE_", name), event);
    let bytes = body_of(rt, alloc, children, pid, edge);
    let text = text_of(bytes.as_slice());
    check_of(
        rt,
        is_behind(text, "processname:p groupname:g from_state:", rest),
        event,
    );
    drop(bytes);
}

/// Whether the text begins so, and goes on so.
fn is_behind(text: &str, beginning: &str, rest: &str) -> bool {
    text.strip_prefix(beginning) == Some(rest)
}

/// The fact of an edge.
fn fact_of(rt: &impl Abort, children: &Children, pid: u32, edge: Edge) -> Fact {
    let fact = fact_at(children, 0, pid, edge).expect(rt, "memory");
    fact.expect(rt, "a child")
}

/// The body of the event of an edge.
fn body_of(rt: &impl Abort, alloc: Global, children: &Children, pid: u32, edge: Edge) -> Bytes {
    let fact = fact_of(rt, children, pid, edge);
    let body = body(alloc, &fact);
    drop(fact);
    body.expect(rt, "memory")
}
