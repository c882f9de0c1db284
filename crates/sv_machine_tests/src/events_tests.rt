//! Events with their texts, and the ticks of clock moments, worked out by hand.
use crate::checks::check_of;
use crate::claims::{holds_at, text_of};
use crate::sample::moment;
use std::alloc::Global;
use std::process::Abort;
use sv_base::bytes::Bytes;
use sv_base::kind::Kind;
use sv_base::state::{State, Stream};
use sv_base::text::Text;
use sv_events::covers::covers;
use sv_events::{Event, Fact, Ticks, body, envelope};

/// What an event tells. A process is the cat of the group pets, and where it writes its pid is 58597.
#[derive(Clone, Copy)]
enum Told {
    Trying(State, u32),
    Living(State, u32),
    Ended(bool, u32),
    GaveUp,
    Communication(&'static str),
    Log(Stream, &'static str),
    Remote(&'static str, &'static str),
    Tick(u64),
    GroupChange(&'static str),
    Supervisor,
}

/// A type, what its event tells, and the body and the head of the event.
const EVENTS: [(Kind, Told, &str, &str); 14] = [
    (
        Kind::ProcessStateStarting,
        Told::Trying(State::Stopped, 0),
        "processname:cat groupname:pets from_state:STOPPED tries:0",
        "ver:3.0 server:supervisor serial:21 pool:ear poolserial:10 eventname:PROCESS_STATE_STARTING len:57\n",
    ),
    (
        Kind::ProcessStateBackoff,
        Told::Trying(State::Starting, 12),
        "processname:cat groupname:pets from_state:STARTING tries:12",
        "ver:3.0 server:supervisor serial:21 pool:ear poolserial:10 eventname:PROCESS_STATE_BACKOFF len:59\n",
    ),
    (
        Kind::ProcessStateRunning,
        Told::Living(State::Starting, 2766),
        "processname:cat groupname:pets from_state:STARTING pid:2766",
        "ver:3.0 server:supervisor serial:21 pool:ear poolserial:10 eventname:PROCESS_STATE_RUNNING len:59\n",
    ),
    (
        Kind::ProcessStateStopped,
        Told::Living(State::Backoff, 0),
        "processname:cat groupname:pets from_state:BACKOFF pid:0",
        "ver:3.0 server:supervisor serial:21 pool:ear poolserial:10 eventname:PROCESS_STATE_STOPPED len:55\n",
    ),
    (
        Kind::ProcessStateExited,
        Told::Ended(true, 2766),
        "processname:cat groupname:pets from_state:RUNNING expected:1 pid:2766",
        "ver:3.0 server:supervisor serial:21 pool:ear poolserial:10 eventname:PROCESS_STATE_EXITED len:69\n",
    ),
    (
        Kind::ProcessStateExited,
        Told::Ended(false, 1),
        "processname:cat groupname:pets from_state:RUNNING expected:0 pid:1",
        "ver:3.0 server:supervisor serial:21 pool:ear poolserial:10 eventname:PROCESS_STATE_EXITED len:66\n",
    ),
    (
        Kind::ProcessStateFatal,
        Told::GaveUp,
        "processname:cat groupname:pets from_state:BACKOFF",
        "ver:3.0 server:supervisor serial:21 pool:ear poolserial:10 eventname:PROCESS_STATE_FATAL len:49\n",
    ),
    (
        Kind::ProcessCommunicationStdout,
        Told::Communication("a\nb"),
        "processname:cat groupname:pets pid:58597\na\nb",
        "ver:3.0 server:supervisor serial:21 pool:ear poolserial:10 eventname:PROCESS_COMMUNICATION_STDOUT len:44\n",
    ),
    (
        Kind::ProcessLogStderr,
        Told::Log(Stream::Err, "oh"),
        "processname:cat groupname:pets pid:58597 channel:stderr\noh",
        "ver:3.0 server:supervisor serial:21 pool:ear poolserial:10 eventname:PROCESS_LOG_STDERR len:58\n",
    ),
    (
        Kind::ProcessLogStdout,
        Told::Log(Stream::Out, ""),
        "processname:cat groupname:pets pid:58597 channel:stdout\n",
        "ver:3.0 server:supervisor serial:21 pool:ear poolserial:10 eventname:PROCESS_LOG_STDOUT len:56\n",
    ),
    (
        Kind::RemoteCommunication,
        Told::Remote("news", "x=1"),
        "type:news\nx=1",
        "ver:3.0 server:supervisor serial:21 pool:ear poolserial:10 eventname:REMOTE_COMMUNICATION len:13\n",
    ),
    (
        Kind::Tick5,
        Told::Tick(1201063880),
        "when:1201063880",
        "ver:3.0 server:supervisor serial:21 pool:ear poolserial:10 eventname:TICK_5 len:15\n",
    ),
    (
        Kind::ProcessGroupAdded,
        Told::GroupChange("pets"),
        "groupname:pets\n",
        "ver:3.0 server:supervisor serial:21 pool:ear poolserial:10 eventname:PROCESS_GROUP_ADDED len:15\n",
    ),
    (
        Kind::SupervisorStateChangeRunning,
        Told::Supervisor,
        "",
        "ver:3.0 server:supervisor serial:21 pool:ear poolserial:10 eventname:SUPERVISOR_STATE_CHANGE_RUNNING len:0\n",
    ),
];

#[test]
fn each_event_has_its_text(rt: HostRuntime) {
    for (kind, told, text, head) in &EVENTS {
        is_told(&rt, rt.alloc(), *told, text, head);
        is_enveloped(&rt, rt.alloc(), *kind, text, head);
    }
}

/// The body of the event that tells this is this text; the event has this head.
fn is_told(rt: &impl Abort, alloc: Global, told: Told, text: &str, head: &str) {
    let body = body_of(rt, alloc, told);
    check_of(rt, body.as_slice() == text.as_bytes(), head);
    drop(body);
}

/// The body of the event that tells this.
fn body_of(rt: &impl Abort, alloc: Global, told: Told) -> Bytes {
    let fact = fact_of(rt, alloc, told);
    let body = body(alloc, &fact);
    drop(fact);
    body.expect(rt, "memory")
}

fn fact_of(rt: &impl Abort, alloc: Global, told: Told) -> Fact {
    match told {
        Told::Communication(text) => Fact::Communication {
            name: Text::fixed("cat"),
            group: Text::fixed("pets"),
            pid: 58597,
            bytes: bytes(rt, alloc, text),
        },
        Told::Log(stream, text) => Fact::Log {
            name: Text::fixed("cat"),
            group: Text::fixed("pets"),
            pid: 58597,
            stream,
            bytes: bytes(rt, alloc, text),
        },
        Told::Remote(sort, text) => Fact::Remote {
            sort: Text::fixed(sort),
            bytes: bytes(rt, alloc, text),
        },
        Told::Tick(when) => Fact::Tick { when },
        Told::GroupChange(group) => Fact::GroupChange {
            group: Text::fixed(group),
        },
        Told::Supervisor => Fact::Supervisor,
        told => fact_of_state(Text::fixed("cat"), Text::fixed("pets"), told),
    }
}

/// What is told of the state of the process of this name in this group.
fn fact_of_state(name: Text, group: Text, told: Told) -> Fact {
    match told {
        Told::Trying(from, tries) => Fact::Trying {
            name,
            group,
            from,
            tries,
        },
        Told::Living(from, pid) => Fact::Living {
            name,
            group,
            from,
            pid,
        },
        Told::Ended(expected, pid) => Fact::Ended {
            name,
            group,
            from: State::Running,
            expected,
            pid,
        },
        _ => Fact::GaveUp {
            name,
            group,
            from: State::Backoff,
        },
    }
}

fn bytes(rt: &impl Abort, alloc: Global, text: &str) -> Bytes {
    Bytes::from_slice(alloc, text.as_bytes()).expect(rt, "memory")
}

/// The event of this type whose body is this text.
fn enveloped(rt: &impl Abort, alloc: Global, kind: Kind, text: &str) -> Bytes {
    let event = Event {
        kind,
        serial: 21,
        body: bytes(rt, alloc, text),
    };
    let whole = envelope(alloc, "supervisor", "ear", 10, &event);
    drop(event);
    whole.expect(rt, "memory")
}

/// The event of this type whose body is this text has this head before it.
fn is_enveloped(rt: &impl Abort, alloc: Global, kind: Kind, text: &str, head: &str) {
    let whole = enveloped(rt, alloc, kind, text);
    check_of(rt, is_joined(text_of(whole.as_slice()), head, text), head);
    drop(whole);
}

/// Whether the whole is the head and the text behind it.
fn is_joined(whole: &str, head: &str, text: &str) -> bool {
    whole.strip_prefix(head) == Some(text)
}

// each type, and the names of the types that cover it
const COVERED: [(Kind, &str); 27] = [
    (Kind::Event, "EVENT"),
    (Kind::ProcessState, "EVENT PROCESS_STATE"),
    (
        Kind::ProcessStateStarting,
        "EVENT PROCESS_STATE PROCESS_STATE_STARTING",
    ),
    (
        Kind::ProcessStateRunning,
        "EVENT PROCESS_STATE PROCESS_STATE_RUNNING",
    ),
    (
        Kind::ProcessStateBackoff,
        "EVENT PROCESS_STATE PROCESS_STATE_BACKOFF",
    ),
    (
        Kind::ProcessStateStopping,
        "EVENT PROCESS_STATE PROCESS_STATE_STOPPING",
    ),
    (
        Kind::ProcessStateExited,
        "EVENT PROCESS_STATE PROCESS_STATE_EXITED",
    ),
    (
        Kind::ProcessStateStopped,
        "EVENT PROCESS_STATE PROCESS_STATE_STOPPED",
    ),
    (
        Kind::ProcessStateFatal,
        "EVENT PROCESS_STATE PROCESS_STATE_FATAL",
    ),
    (
        Kind::ProcessStateUnknown,
        "EVENT PROCESS_STATE PROCESS_STATE_UNKNOWN",
    ),
    (Kind::ProcessCommunication, "EVENT PROCESS_COMMUNICATION"),
    (
        Kind::ProcessCommunicationStdout,
        "EVENT PROCESS_COMMUNICATION PROCESS_COMMUNICATION_STDOUT",
    ),
    (
        Kind::ProcessCommunicationStderr,
        "EVENT PROCESS_COMMUNICATION PROCESS_COMMUNICATION_STDERR",
    ),
    (Kind::ProcessLog, "EVENT PROCESS_LOG"),
    (
        Kind::ProcessLogStdout,
        "EVENT PROCESS_LOG PROCESS_LOG_STDOUT",
    ),
    (
        Kind::ProcessLogStderr,
        "EVENT PROCESS_LOG PROCESS_LOG_STDERR",
    ),
    (Kind::RemoteCommunication, "EVENT REMOTE_COMMUNICATION"),
    (Kind::SupervisorStateChange, "EVENT SUPERVISOR_STATE_CHANGE"),
    (
        Kind::SupervisorStateChangeRunning,
        "EVENT SUPERVISOR_STATE_CHANGE SUPERVISOR_STATE_CHANGE_RUNNING",
    ),
    (
        Kind::SupervisorStateChangeStopping,
        "EVENT SUPERVISOR_STATE_CHANGE SUPERVISOR_STATE_CHANGE_STOPPING",
    ),
    (Kind::Tick, "EVENT TICK"),
    (Kind::Tick5, "EVENT TICK TICK_5"),
    (Kind::Tick60, "EVENT TICK TICK_60"),
    (Kind::Tick3600, "EVENT TICK TICK_3600"),
    (Kind::ProcessGroup, "EVENT PROCESS_GROUP"),
    (
        Kind::ProcessGroupAdded,
        "EVENT PROCESS_GROUP PROCESS_GROUP_ADDED",
    ),
    (
        Kind::ProcessGroupRemoved,
        "EVENT PROCESS_GROUP PROCESS_GROUP_REMOVED",
    ),
];

// the last moment, the new one, and the ticks of 5, 60 and 3,600 seconds
const TICKS: [(u64, u64, [Option<u64>; 3]); 10] = [
    (0, 0, [None, None, None]),
    (0, 4_999, [None, None, None]),
    (4_999, 5_000, [Some(5), None, None]),
    (5_000, 4_999, [Some(0), None, None]),
    (5_000, 9_999, [None, None, None]),
    (59_999, 60_000, [Some(60), Some(60), None]),
    (3_600_000, 3_599_999, [Some(3_595), Some(3_540), Some(0)]),
    (0, 7_261_000, [Some(7_260), Some(7_260), Some(7_200)]),
    (7_261_000, 0, [Some(0), Some(0), Some(0)]),
    (
        0,
        253_000_000_000_000,
        [
            Some(253_000_000_000),
            Some(252_999_999_960),
            Some(252_999_997_200),
        ],
    ),
];

#[test]
fn covers_and_ticks(rt: HostRuntime) {
    let covered = COVERED.as_slice();
    for (kind, above) in covered {
        are_above(&rt, covered, *kind, above);
    }
    for (last, now, ticks) in &TICKS {
        check_ticks(&rt, *last, *now, ticks);
    }
}

/// The types of these names cover this one, and no others of all do.
fn are_above(rt: &impl Abort, all: &[(Kind, &str)], kind: Kind, above: &str) {
    for (parent, _) in all {
        let wanted = is_one_of(parent.name(), above);
        check_of(rt, covers(*parent, kind) == wanted, kind.name());
    }
}

/// Whether this is one of these names, with spaces between them.
fn is_one_of(name: &str, names: &str) -> bool {
    for one in names.split(' ') {
        if one == name {
            return true;
        }
    }
    false
}

/// From the last moment to the new one there are these ticks, and then no more.
fn check_ticks(rt: &impl Abort, last: u64, now: u64, wanted: &[Option<u64>; 3]) {
    let mut ticks = Ticks::new(moment(rt, last));
    let now = moment(rt, now);
    holds_at(rt, ticks.at(now) == *wanted, last);
    holds_at(rt, ticks.at(now) == NONE, last);
}

/// No ticks.
const NONE: [Option<u64>; 3] = [None, None, None];
