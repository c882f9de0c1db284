//! Lives of a child, worked out by hand.
use crate::checks::check;
use crate::claims::holds_at;
use crate::one_child::killed;
use crate::sample::{moment, process, seconds};
use std::alloc::Global;
use std::process::Abort;
use sv_base::ids::Run;
use sv_base::moment::Moment;
use sv_base::number::{Pid, Retries, Tries};
use sv_base::signal::Signal;
use sv_base::spec::Spec;
use sv_base::state::{Autorestart, How, Mood, State};
use sv_base::text::Text;
use sv_child::{Child, ChildDeed, Edge, Step};

/// What befalls the child.
#[derive(Clone, Copy)]
enum Line {
    Tick,
    Pid(u32),
    Refused,
    Code(u8),
    Killed(u32),
    Stop,
    Start,
}

/// What the child does then.
#[derive(Clone, Copy)]
enum Wanted {
    Nothing,
    Goes(State, State),
    GoesOn(State, State, State),
    Starts(State),
    Stops(State),
    Kills,
}

/// How a program starts, how often it is tried, whether it starts again, and how long it may take to stop.
#[derive(Clone, Copy)]
struct Habits {
    startsecs: u32,
    startretries: u32,
    autorestart: Autorestart,
    stopwaitsecs: u32,
}

const USUAL: Habits = Habits {
    startsecs: 1,
    startretries: 3,
    autorestart: Autorestart::Unexpected,
    stopwaitsecs: 10,
};

const WITHOUT_RETRIES: Habits = Habits {
    startsecs: 1,
    startretries: 0,
    autorestart: Autorestart::Unexpected,
    stopwaitsecs: 10,
};

const AT_ONCE: Habits = Habits {
    startsecs: 0,
    startretries: 3,
    autorestart: Autorestart::Unexpected,
    stopwaitsecs: 10,
};

const STUBBORN: Habits = Habits {
    startsecs: 1,
    startretries: 3,
    autorestart: Autorestart::Never,
    stopwaitsecs: 2,
};

const AT_LIMITS: Habits = Habits {
    startsecs: 1_000_000,
    startretries: 1_000_000,
    autorestart: Autorestart::Always,
    stopwaitsecs: 1_000_000,
};

/// A program that expects the exit code 0 and is stopped by TERM.
fn program(rt: &impl Abort, alloc: Global, habits: Habits) -> Spec {
    let mut spec = process(alloc, "x", "x");
    spec.exitcodes.push(0).expect(rt, "memory");
    spec.startsecs = seconds(rt, habits.startsecs);
    spec.startretries = Retries::new(habits.startretries).expect(rt, "retries");
    spec.autorestart = habits.autorestart;
    spec.stopwaitsecs = seconds(rt, habits.stopwaitsecs);
    spec
}

/// A child that is starting, after so many failed starts.
fn starting(rt: &impl Abort, tries: u32) -> Child {
    let mut child = Child::new();
    child.state = State::Starting;
    child.tries = Tries::new(tries).expect(rt, "tries");
    child
}

/// Has the line befall the child; all but the answers to a spawn with a rewound child.
fn play(rt: &impl Abort, spec: &Spec, child: &mut Child, now: Moment, line: Line) -> Step {
    match line {
        Line::Pid(pid) => { child.spawned(spec, Run(pid), Pid::new(pid).expect(rt, "a pid"), now) }
        Line::Refused => child.spawn_failed(spec, Text::fixed("no room"), now),
        line => {
            child.rewind(spec, now);
            play_rewound(rt, spec, child, now, line)
        }
    }
}

/// Has a line that answers no spawn befall a rewound child.
fn play_rewound(rt: &impl Abort, spec: &Spec, child: &mut Child, now: Moment, line: Line) -> Step {
    match line {
        Line::Code(code) => child.ended(spec, How::Code(code), now),
        Line::Killed(signal) => child.ended(spec, killed(rt, signal), now),
        Line::Stop => child.want_stop(spec, now),
        Line::Start => child.want_start(spec, now),
        _ => child.moment(spec, Mood::Running, now),
    }
}

fn edge(from: State, to: State) -> Option<Edge> {
    Some(Edge { from, to })
}

fn step(wanted: Wanted) -> Step {
    match wanted {
        Wanted::Nothing => Step {
            edges: [None, None],
            deed: None,
        },
        Wanted::Goes(from, to) => Step {
            edges: [edge(from, to), None],
            deed: None,
        },
        Wanted::GoesOn(from, by, to) => Step {
            edges: [edge(from, by), edge(by, to)],
            deed: None,
        },
        Wanted::Starts(from) => Step {
            edges: [edge(from, State::Starting), None],
            deed: Some(ChildDeed::Spawn),
        },
        Wanted::Stops(from) => Step {
            edges: [edge(from, State::Stopping), None],
            deed: Some(ChildDeed::Kill(Signal::Term, false)),
        },
        Wanted::Kills => Step {
            edges: [None, None],
            deed: Some(ChildDeed::Kill(Signal::Kill, false)),
        },
    }
}

/// The line befalls the child, which does then what is wanted.
fn befalls(rt: &impl Abort, spec: &Spec, child: &mut Child, row: &(u64, Line, Wanted)) {
    let (now, line, wanted) = *row;
    let told = play(rt, spec, child, moment(rt, now), line);
    holds_at(rt, told == step(wanted), now);
}

/// A life of the child, line by line; at its end it has this fault.
fn goes_through(
    rt: &impl Abort,
    spec: &Spec,
    child: &mut Child,
    life: &[(u64, Line, Wanted)],
    fault: &str,
) {
    for row in life {
        befalls(rt, spec, child, row);
    }
    check(rt, child.fault.as_str() == fault);
}

const TOO_QUICK: &str = "Exited too quickly (process log may have details)";

const STARTS_STAYS_UP_AND_EXITS: [(u64, Line, Wanted); 7] = [
    (0, Line::Tick, Wanted::Starts(State::Stopped)),
    (0, Line::Pid(12), Wanted::Nothing),
    (
        1_000,
        Line::Tick,
        Wanted::Goes(State::Starting, State::Running),
    ),
    (
        2_000,
        Line::Code(0),
        Wanted::Goes(State::Running, State::Exited),
    ),
    (2_000, Line::Tick, Wanted::Nothing),
    (9_000, Line::Stop, Wanted::Nothing),
    (9_000, Line::Start, Wanted::Starts(State::Exited)),
];

const FATAL_WITHOUT_RETRIES: [(u64, Line, Wanted); 4] = [
    (0, Line::Tick, Wanted::Starts(State::Stopped)),
    (
        0,
        Line::Refused,
        Wanted::Goes(State::Starting, State::Backoff),
    ),
    (0, Line::Tick, Wanted::Goes(State::Backoff, State::Fatal)),
    (9_000, Line::Tick, Wanted::Nothing),
];

const THREE_RETRIES_THEN_FATAL: [(u64, Line, Wanted); 15] = [
    (0, Line::Tick, Wanted::Starts(State::Stopped)),
    (0, Line::Pid(1), Wanted::Nothing),
    (
        500,
        Line::Code(1),
        Wanted::Goes(State::Starting, State::Backoff),
    ),
    (1_499, Line::Tick, Wanted::Nothing),
    (1_500, Line::Tick, Wanted::Starts(State::Backoff)),
    (1_500, Line::Pid(2), Wanted::Nothing),
    (
        1_600,
        Line::Code(1),
        Wanted::Goes(State::Starting, State::Backoff),
    ),
    (3_599, Line::Tick, Wanted::Nothing),
    (3_600, Line::Tick, Wanted::Starts(State::Backoff)),
    (3_600, Line::Pid(3), Wanted::Nothing),
    (
        3_700,
        Line::Code(1),
        Wanted::Goes(State::Starting, State::Backoff),
    ),
    (6_700, Line::Tick, Wanted::Starts(State::Backoff)),
    (6_700, Line::Pid(4), Wanted::Nothing),
    (
        6_800,
        Line::Code(1),
        Wanted::Goes(State::Starting, State::Backoff),
    ),
    (
        6_800,
        Line::Tick,
        Wanted::Goes(State::Backoff, State::Fatal),
    ),
];

const UP_AT_ONCE: [(u64, Line, Wanted); 3] = [
    (0, Line::Tick, Wanted::Starts(State::Stopped)),
    (0, Line::Pid(7), Wanted::Nothing),
    (
        0,
        Line::Code(0),
        Wanted::GoesOn(State::Starting, State::Running, State::Exited),
    ),
];

const CLOCK_GOES_BACK: [(u64, Line, Wanted); 4] = [
    (3_600_000, Line::Tick, Wanted::Starts(State::Stopped)),
    (3_600_000, Line::Pid(7), Wanted::Nothing),
    (
        500,
        Line::Code(0),
        Wanted::Goes(State::Starting, State::Backoff),
    ),
    (500, Line::Tick, Wanted::Nothing),
];

const STOP_IN_BACKOFF: [(u64, Line, Wanted); 5] = [
    (0, Line::Tick, Wanted::Starts(State::Stopped)),
    (0, Line::Pid(7), Wanted::Nothing),
    (
        500,
        Line::Code(1),
        Wanted::Goes(State::Starting, State::Backoff),
    ),
    (
        600,
        Line::Stop,
        Wanted::Goes(State::Backoff, State::Stopped),
    ),
    (9_000, Line::Tick, Wanted::Nothing),
];

const KILL_AT_EACH_DEADLINE: [(u64, Line, Wanted); 9] = [
    (0, Line::Tick, Wanted::Starts(State::Stopped)),
    (0, Line::Pid(9), Wanted::Nothing),
    (
        1_000,
        Line::Tick,
        Wanted::Goes(State::Starting, State::Running),
    ),
    (1_500, Line::Stop, Wanted::Stops(State::Running)),
    (3_499, Line::Tick, Wanted::Nothing),
    (3_500, Line::Tick, Wanted::Kills),
    (5_500, Line::Tick, Wanted::Kills),
    (
        5_600,
        Line::Killed(9),
        Wanted::Goes(State::Stopping, State::Stopped),
    ),
    (5_600, Line::Tick, Wanted::Nothing),
];

/// The life of a child of this program that was never started.
fn anew(rt: &impl Abort, spec: &Spec, life: &[(u64, Line, Wanted)], fault: &str) {
    let mut child = Child::new();
    goes_through(rt, spec, &mut child, life, fault);
    drop(child);
}

/// The life of a new child of a program with these habits.
fn life(rt: &impl Abort, alloc: Global, habits: Habits, life: &[(u64, Line, Wanted)], fault: &str) {
    let spec = program(rt, alloc, habits);
    anew(rt, &spec, life, fault);
    drop(spec);
}

#[test]
fn lives(rt: HostRuntime) {
    let alloc = rt.alloc();
    life(&rt, alloc, USUAL, &STARTS_STAYS_UP_AND_EXITS, "");
    life(
        &rt,
        alloc,
        WITHOUT_RETRIES,
        &FATAL_WITHOUT_RETRIES,
        "no room",
    );
    life(&rt, alloc, USUAL, &THREE_RETRIES_THEN_FATAL, TOO_QUICK);
    life(&rt, alloc, AT_ONCE, &UP_AT_ONCE, "");
    life(&rt, alloc, USUAL, &CLOCK_GOES_BACK, TOO_QUICK);
    life(&rt, alloc, USUAL, &STOP_IN_BACKOFF, TOO_QUICK);
    life(&rt, alloc, STUBBORN, &KILL_AT_EACH_DEADLINE, "");
    life(&rt, alloc, AT_LIMITS, &FORWARD_AND_BACK, "");
}

/// The last moment.
const LAST: u64 = 253_000_000_000_000;

/// Both waits are a million seconds: a deadline that was set at the last moment is rewound to so many seconds
/// after the first one.
const FORWARD_AND_BACK: [(u64, Line, Wanted); 12] = [
    (LAST, Line::Tick, Wanted::Starts(State::Stopped)),
    (LAST, Line::Pid(4_294_967_295), Wanted::Nothing),
    (LAST, Line::Tick, Wanted::Nothing),
    (0, Line::Tick, Wanted::Nothing),
    (999_999_999, Line::Tick, Wanted::Nothing),
    (
        1_000_000_000,
        Line::Tick,
        Wanted::Goes(State::Starting, State::Running),
    ),
    (LAST, Line::Stop, Wanted::Stops(State::Running)),
    (LAST, Line::Tick, Wanted::Nothing),
    (0, Line::Tick, Wanted::Nothing),
    (1_000_000_000, Line::Tick, Wanted::Kills),
    (LAST, Line::Tick, Wanted::Kills),
    (
        LAST,
        Line::Killed(64),
        Wanted::Goes(State::Stopping, State::Stopped),
    ),
];

/// After 999,999 failed starts in a row one more is still tried again, a million seconds later; the next isn't.
const MILLIONTH_TRY: [(u64, Line, Wanted); 6] = [
    (
        LAST,
        Line::Refused,
        Wanted::Goes(State::Starting, State::Backoff),
    ),
    (LAST, Line::Tick, Wanted::Nothing),
    (0, Line::Tick, Wanted::Nothing),
    (1_000_000_000, Line::Tick, Wanted::Starts(State::Backoff)),
    (
        LAST,
        Line::Refused,
        Wanted::Goes(State::Starting, State::Backoff),
    ),
    (LAST, Line::Tick, Wanted::Goes(State::Backoff, State::Fatal)),
];

/// A start fails, and is tried once more.
fn fails_for_a_while(rt: &impl Abort, spec: &Spec) {
    let mut child = starting(rt, 999_999);
    goes_through(rt, spec, &mut child, &MILLIONTH_TRY, "no room");
    drop(child);
}

/// When the child has something to do, in milliseconds; 0 where it hasn't.
fn due(child: &Child) -> u64 {
    match child.deadline {
        Some(deadline) => deadline.milliseconds(),
        None => 0,
    }
}

/// A start fails at the last moment, after as many failed starts as are counted.
fn fails_once_more(rt: &impl Abort, spec: &Spec) {
    let mut child = starting(rt, 1_000_001);
    play(rt, spec, &mut child, moment(rt, LAST), Line::Refused);
    holds_at(rt, child.tries.get() == 1_000_001, LAST);
    holds_at(rt, due(&child) == 253_001_000_001_000, LAST);
    drop(child);
}

#[test]
fn limits(rt: HostRuntime) {
    let spec = program(&rt, rt.alloc(), AT_LIMITS);
    fails_for_a_while(&rt, &spec);
    fails_once_more(&rt, &spec);
    drop(spec);
}
