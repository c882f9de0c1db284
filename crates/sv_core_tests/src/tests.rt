//! Journals of one child and of groups, each input with the orders that it brings.

use crate::checks::check;
use std::alloc::Global;
use std::process::Abort;
use sv_base::config::{ClientSpec, Config, Host};
use sv_base::groups::Groups;
use sv_base::ids::Run;
use sv_base::items::Items;
use sv_base::moment::Moment;
use sv_base::number::{Backups, CaptureBytes, ExitSignal, Pid, Retries, Seconds};
use sv_base::signal::{DaemonSignal, Signal};
use sv_base::spec::{GroupSpec, LogSpec, Spec};
use sv_base::state::{Autorestart, How, Level, State};
use sv_base::text::Text;
use sv_core::Machine;
use sv_out::input::Input;
use sv_out::order::Order;

/// What the machine is told.
#[derive(Clone, Copy)]
enum Line {
    Tick(u64),
    Pid(u32),
    Code(u64, u32, u8),
    Signalled(u64, u32, u32),
    Start(u64, &'static str),
    Stop(u64, &'static str),
    Told(u64, Signal),
    Fails(u64),
}

/// What it then orders.
#[derive(Clone, Copy)]
enum Wanted {
    Goes(&'static str, State, State),
    Spawns(u32),
    Kills(u32, Signal),
    Halts,
}

fn no_log() -> LogSpec {
    LogSpec {
        file: None,
        maxbytes: 0,
        backups: Backups::least(),
        capture: CaptureBytes::least(),
        events: false,
    }
}

/// The exit code 0.
fn expected(rt: &impl Abort, alloc: Global) -> Items<u8> {
    let mut codes = Items::new(alloc);
    codes.push(0).expect(rt, "memory");
    codes
}

/// A program that is to stay up for a second, is tried again three times, expects the exit code 0, and is stopped by
/// TERM, or after two seconds by KILL.
fn program(
    rt: &impl Abort,
    alloc: Global,
    group: &'static str,
    name: Text,
    autostart: bool,
) -> Spec {
    Spec {
        group: Text::fixed(group),
        name,
        words: Items::new(alloc),
        priority: 999,
        autostart,
        startsecs: Seconds::new(1).expect(rt, "seconds"),
        startretries: Retries::new(3).expect(rt, "retries"),
        autorestart: Autorestart::Unexpected,
        exitcodes: expected(rt, alloc),
        stopsignal: Signal::Term,
        stopwaitsecs: Seconds::new(2).expect(rt, "seconds"),
        stopasgroup: false,
        killasgroup: false,
        redirect_stderr: false,
        stdout: no_log(),
        stderr: no_log(),
        environment: Items::new(alloc),
        directory: Text::fixed(""),
        umask: Text::fixed(""),
        user: Text::fixed(""),
    }
}

fn put_program(
    rt: &impl Abort,
    alloc: Global,
    members: &mut Items<Spec>,
    group: &'static str,
    name: &'static str,
) {
    let program = program(rt, alloc, group, Text::fixed(name), true);
    members.push(program).expect(rt, "memory");
}

/// These programs of a group.
fn programs(
    rt: &impl Abort,
    alloc: Global,
    group: &'static str,
    names: &[&'static str],
) -> Items<Spec> {
    let mut members = Items::new(alloc);
    for name in names {
        put_program(rt, alloc, &mut members, group, *name);
    }
    members
}

fn put_group(
    rt: &impl Abort,
    groups: &mut Vec<GroupSpec>,
    name: &'static str,
    members: Items<Spec>,
) {
    let group = GroupSpec {
        name: Text::fixed(name),
        priority: 999,
        members,
        pool: None,
    };
    groups.push(group).expect(rt, "memory");
}

/// The program x, alone in its group.
fn alone(rt: &impl Abort, alloc: Global) -> Groups {
    let mut groups = Vec::new(alloc);
    put_group(rt, &mut groups, "x", programs(rt, alloc, "x", &["x"]));
    Groups::new(groups).expect(rt, "a roster")
}

/// The program d, alone in its group, and after it the group g of three.
fn one_and_three(rt: &impl Abort, alloc: Global) -> Groups {
    let mut groups = Vec::new(alloc);
    put_group(rt, &mut groups, "d", programs(rt, alloc, "d", &["d"]));
    put_group(
        rt,
        &mut groups,
        "g",
        programs(rt, alloc, "g", &["a", "b", "c"]),
    );
    Groups::new(groups).expect(rt, "a roster")
}

/// The name of a number.
fn name_of(rt: &impl Abort, alloc: Global, number: u32) -> Text {
    Text::from_string(format!(in alloc; "{number}").expect(rt, "memory"))
}

/// Adds the program of a number, which isn't started with the daemon.
fn put_numbered(rt: &impl Abort, alloc: Global, members: &mut Items<Spec>, number: u32) {
    let program = program(rt, alloc, "p", name_of(rt, alloc, number), false);
    members.push(program).expect(rt, "memory");
}

/// The programs 1000 to 1999.
fn a_thousand_programs(rt: &impl Abort, alloc: Global) -> Items<Spec> {
    let mut members = Items::new(alloc);
    for number in 1_000..2_000u32 {
        put_numbered(rt, alloc, &mut members, number);
    }
    members
}

/// The group p of a thousand programs, 1000 to 1999, of which none is started with the daemon.
fn a_thousand(rt: &impl Abort, alloc: Global) -> Groups {
    let mut groups = Vec::new(alloc);
    put_group(rt, &mut groups, "p", a_thousand_programs(rt, alloc));
    Groups::new(groups).expect(rt, "a roster")
}

fn config(alloc: Global, groups: Groups) -> Config {
    Config {
        identifier: Text::fixed("supervisor"),
        main: no_log(),
        level: Level::Info,
        groups,
        servers: Items::new(alloc),
        client: ClientSpec {
            url: Text::fixed(""),
            username: Text::fixed(""),
            password: Text::fixed(""),
        },
        rpc: false,
    }
}

fn host(alloc: Global) -> Host {
    Host {
        name: Text::fixed("localhost"),
        here: Text::fixed("/"),
        pid: 1,
        environment: Items::new(alloc),
        start: Moment::zero(),
    }
}

fn machine(rt: &impl Abort, alloc: Global, groups: Groups) -> Machine {
    let host = host(alloc);
    Machine::new(alloc, config(alloc, groups), Vec::new(alloc), &host).expect(rt, "memory")
}

fn moment(rt: &impl Abort, milliseconds: u64) -> Moment {
    Moment::new(milliseconds).expect(rt, "a moment")
}

fn exit(rt: &impl Abort, at: u64, run: u32, how: How) -> Input {
    Input::Exit {
        at: moment(rt, at),
        run: Run(run),
        how,
    }
}

fn killed(rt: &impl Abort, signal: u32) -> How {
    How::Signal(ExitSignal::new(signal).expect(rt, "a signal"))
}

fn start(rt: &impl Abort, at: u64, name: &'static str) -> Input {
    Input::Start {
        at: moment(rt, at),
        name: Text::fixed(name),
    }
}

fn stop(rt: &impl Abort, at: u64, name: &'static str) -> Input {
    Input::Stop {
        at: moment(rt, at),
        name: Text::fixed(name),
    }
}

fn told(rt: &impl Abort, at: u64, signal: Signal) -> Input {
    Input::Signal {
        at: moment(rt, at),
        signal: DaemonSignal::new(signal).expect(rt, "a signal"),
    }
}

fn input(rt: &impl Abort, line: Line) -> Input {
    match line {
        Line::Tick(at) => Input::Tick { at: moment(rt, at) },
        Line::Pid(pid) => Input::Pid(Pid::new(pid).expect(rt, "a pid")),
        Line::Code(at, run, code) => exit(rt, at, run, How::Code(code)),
        Line::Signalled(at, run, signal) => exit(rt, at, run, killed(rt, signal)),
        Line::Start(at, name) => start(rt, at, name),
        Line::Stop(at, name) => stop(rt, at, name),
        Line::Told(at, signal) => told(rt, at, signal),
        Line::Fails(order) => Input::Failed(order),
    }
}

/// The name of the group in which the child of a name stands.
fn group_wanted(child: &'static str) -> &'static str {
    match child {
        "a" | "b" | "c" => "g",
        "1000" => "p",
        alone => alone,
    }
}

fn is_named(group: &Text, name: &Text, child: &'static str) -> bool {
    group.as_str() == group_wanted(child) && name.as_str() == child
}

/// Whether the order reports that a child went so.
fn is_edge(order: &Order, child: &'static str, left: State, entered: State) -> bool {
    match order {
        Order::State {
            group,
            name,
            from,
            to,
        } => is_named(group, name, child) && *from == left && *to == entered,
        _ => false,
    }
}

fn is_spawn(order: &Order, run: u32) -> bool {
    match order {
        Order::Spawn(spawn) => spawn.run.0 == run,
        _ => false,
    }
}

/// Whether the order sends a signal to the process of a run alone.
fn is_kill(order: &Order, number: u32, sent: Signal) -> bool {
    match order {
        Order::Kill { run, signal, group } => run.0 == number && *signal == sent && !*group,
        _ => false,
    }
}

fn is_wanted(order: &Order, wanted: Wanted) -> bool {
    match wanted {
        Wanted::Goes(child, left, entered) => is_edge(order, child, left, entered),
        Wanted::Spawns(run) => is_spawn(order, run),
        Wanted::Kills(run, signal) => is_kill(order, run, signal),
        Wanted::Halts => matches!(order, Order::Halt),
    }
}

/// The orders are just these.
fn are_wanted(rt: &impl Abort, orders: &[Order], wanted: &[Wanted]) {
    check(rt, orders.len() == wanted.len());
    let mut left = wanted;
    for order in orders {
        if let [first, rest @ ..] = left {
            check(rt, is_wanted(order, *first));
            left = rest;
        }
    }
    check(rt, left.is_empty());
}

/// What the machine orders by a line, which it takes.
fn orders(rt: &impl Abort, alloc: Global, machine: &mut Machine, line: Line) -> Vec<Order> {
    let input = input(rt, line);
    assert!(rt; machine.accepts(&input));
    machine.step(alloc, input).expect(rt, "memory")
}

/// The machine takes the line, and orders just this.
fn orders_just(
    rt: &impl Abort,
    alloc: Global,
    machine: &mut Machine,
    line: Line,
    wanted: &[Wanted],
) {
    let orders = orders(rt, alloc, machine, line);
    are_wanted(rt, orders.as_slice(), wanted);
}

/// The machine takes each line, and orders just this.
fn takes_lines(rt: &impl Abort, alloc: Global, machine: &mut Machine, lines: &[(Line, &[Wanted])]) {
    for (line, wanted) in lines {
        orders_just(rt, alloc, machine, *line, *wanted);
    }
    check(rt, !machine.broken());
}

/// It stays up for its second, and then exits.
const STAYS_UP_AND_EXITS: [(Line, &[Wanted]); 4] = [
    (
        Line::Tick(0),
        &[
            Wanted::Goes("x", State::Stopped, State::Starting),
            Wanted::Spawns(1),
        ],
    ),
    (Line::Pid(12), &[]),
    (
        Line::Tick(1_000),
        &[Wanted::Goes("x", State::Starting, State::Running)],
    ),
    (
        Line::Code(2_000, 1, 0),
        &[Wanted::Goes("x", State::Running, State::Exited)],
    ),
];

/// It exits too soon, and is stopped while it waits for the next try: no kill.
const STOP_IN_BACKOFF: [(Line, &[Wanted]); 4] = [
    (
        Line::Tick(0),
        &[
            Wanted::Goes("x", State::Stopped, State::Starting),
            Wanted::Spawns(1),
        ],
    ),
    (Line::Pid(7), &[]),
    (
        Line::Code(500, 1, 1),
        &[Wanted::Goes("x", State::Starting, State::Backoff)],
    ),
    (
        Line::Stop(600, "x:*"),
        &[Wanted::Goes("x", State::Backoff, State::Stopped)],
    ),
];

/// It doesn't heed TERM: KILL follows after two seconds, and again after two more.
const KILL_AT_EACH_DEADLINE: [(Line, &[Wanted]); 8] = [
    (
        Line::Tick(0),
        &[
            Wanted::Goes("x", State::Stopped, State::Starting),
            Wanted::Spawns(1),
        ],
    ),
    (Line::Pid(9), &[]),
    (
        Line::Tick(1_000),
        &[Wanted::Goes("x", State::Starting, State::Running)],
    ),
    (
        Line::Stop(1_500, "x"),
        &[
            Wanted::Goes("x", State::Running, State::Stopping),
            Wanted::Kills(1, Signal::Term),
        ],
    ),
    (Line::Tick(3_499), &[]),
    (Line::Tick(3_500), &[Wanted::Kills(1, Signal::Kill)]),
    (Line::Tick(5_500), &[Wanted::Kills(1, Signal::Kill)]),
    (
        Line::Signalled(5_600, 1, 9),
        &[Wanted::Goes("x", State::Stopping, State::Stopped)],
    ),
];

/// A whole group is stopped from its last child to its first.
const STOP_OF_A_GROUP: [(Line, &[Wanted]); 7] = [
    (
        Line::Tick(0),
        &[
            Wanted::Goes("d", State::Stopped, State::Starting),
            Wanted::Spawns(1),
        ],
    ),
    (
        Line::Pid(1),
        &[
            Wanted::Goes("a", State::Stopped, State::Starting),
            Wanted::Spawns(2),
        ],
    ),
    (
        Line::Pid(2),
        &[
            Wanted::Goes("b", State::Stopped, State::Starting),
            Wanted::Spawns(3),
        ],
    ),
    (
        Line::Pid(3),
        &[
            Wanted::Goes("c", State::Stopped, State::Starting),
            Wanted::Spawns(4),
        ],
    ),
    (Line::Pid(4), &[]),
    (
        Line::Tick(1_000),
        &[
            Wanted::Goes("d", State::Starting, State::Running),
            Wanted::Goes("a", State::Starting, State::Running),
            Wanted::Goes("b", State::Starting, State::Running),
            Wanted::Goes("c", State::Starting, State::Running),
        ],
    ),
    (
        Line::Stop(1_500, "g:*"),
        &[
            Wanted::Goes("c", State::Running, State::Stopping),
            Wanted::Kills(4, Signal::Term),
            Wanted::Goes("b", State::Running, State::Stopping),
            Wanted::Kills(3, Signal::Term),
            Wanted::Goes("a", State::Running, State::Stopping),
            Wanted::Kills(2, Signal::Term),
        ],
    ),
];

/// The last group is stopped first; two of its children don't heed TERM and are killed; only then the group before it is
/// told, and with it the daemon halts.
const SHUTDOWN_OF_GROUPS: [(Line, &[Wanted]); 14] = [
    (
        Line::Tick(0),
        &[
            Wanted::Goes("d", State::Stopped, State::Starting),
            Wanted::Spawns(1),
        ],
    ),
    (
        Line::Pid(1),
        &[
            Wanted::Goes("a", State::Stopped, State::Starting),
            Wanted::Spawns(2),
        ],
    ),
    (
        Line::Pid(2),
        &[
            Wanted::Goes("b", State::Stopped, State::Starting),
            Wanted::Spawns(3),
        ],
    ),
    (
        Line::Pid(3),
        &[
            Wanted::Goes("c", State::Stopped, State::Starting),
            Wanted::Spawns(4),
        ],
    ),
    (Line::Pid(4), &[]),
    (
        Line::Tick(1_000),
        &[
            Wanted::Goes("d", State::Starting, State::Running),
            Wanted::Goes("a", State::Starting, State::Running),
            Wanted::Goes("b", State::Starting, State::Running),
            Wanted::Goes("c", State::Starting, State::Running),
        ],
    ),
    (
        Line::Told(1_500, Signal::Term),
        &[
            Wanted::Goes("c", State::Running, State::Stopping),
            Wanted::Kills(4, Signal::Term),
            Wanted::Goes("b", State::Running, State::Stopping),
            Wanted::Kills(3, Signal::Term),
            Wanted::Goes("a", State::Running, State::Stopping),
            Wanted::Kills(2, Signal::Term),
        ],
    ),
    (
        Line::Code(1_600, 3, 0),
        &[Wanted::Goes("b", State::Stopping, State::Stopped)],
    ),
    (
        Line::Tick(3_500),
        &[
            Wanted::Kills(2, Signal::Kill),
            Wanted::Kills(4, Signal::Kill),
        ],
    ),
    (Line::Fails(20), &[]),
    (
        Line::Signalled(3_600, 2, 9),
        &[Wanted::Goes("a", State::Stopping, State::Stopped)],
    ),
    (
        Line::Signalled(3_700, 4, 9),
        &[
            Wanted::Goes("c", State::Stopping, State::Stopped),
            Wanted::Goes("d", State::Running, State::Stopping),
            Wanted::Kills(1, Signal::Term),
        ],
    ),
    (Line::Told(3_750, Signal::Int), &[]),
    (
        Line::Code(3_800, 1, 0),
        &[
            Wanted::Goes("d", State::Stopping, State::Stopped),
            Wanted::Halts,
        ],
    ),
];

/// A machine of these groups takes the lines, and doesn't halt.
fn goes_on(rt: &impl Abort, alloc: Global, groups: Groups, lines: &[(Line, &[Wanted])]) {
    let mut machine = machine(rt, alloc, groups);
    takes_lines(rt, alloc, &mut machine, lines);
    check(rt, !machine.halted());
}

/// A machine of these groups takes the lines, halts, and takes no other.
fn halts(rt: &impl Abort, alloc: Global, groups: Groups, lines: &[(Line, &[Wanted])]) {
    let mut machine = machine(rt, alloc, groups);
    takes_lines(rt, alloc, &mut machine, lines);
    check(rt, machine.halted());
    takes_no_tick(rt, &machine);
}

fn takes_no_tick(rt: &impl Abort, machine: &Machine) {
    let late = input(rt, Line::Tick(4_000));
    check(rt, !machine.accepts(&late));
}

#[test]
fn lives(rt: HostRuntime) {
    let alloc = rt.alloc();
    goes_on(&rt, alloc, alone(&rt, alloc), &STAYS_UP_AND_EXITS);
    goes_on(&rt, alloc, alone(&rt, alloc), &STOP_IN_BACKOFF);
    goes_on(&rt, alloc, alone(&rt, alloc), &KILL_AT_EACH_DEADLINE);
}

#[test]
fn groups_stop(rt: HostRuntime) {
    let alloc = rt.alloc();
    goes_on(&rt, alloc, one_and_three(&rt, alloc), &STOP_OF_A_GROUP);
    halts(&rt, alloc, one_and_three(&rt, alloc), &SHUTDOWN_OF_GROUPS);
}

/// One of a thousand is started, and stays up for its second.
const START_OF_ONE: [(Line, &[Wanted]); 3] = [
    (
        Line::Start(0, "p:1000"),
        &[
            Wanted::Goes("1000", State::Stopped, State::Starting),
            Wanted::Spawns(1),
        ],
    ),
    (Line::Pid(5), &[]),
    (
        Line::Tick(1_000),
        &[Wanted::Goes("1000", State::Starting, State::Running)],
    ),
];

const IDLE_TICK: [(Line, &[Wanted]); 1] = [(Line::Tick(0), &[])];

/// Of a thousand idle children a tick looks at none, and then at the one that was started.
#[test]
fn only_the_awake_are_looked_at(rt: HostRuntime) {
    let alloc = rt.alloc();
    let mut machine = machine(&rt, alloc, a_thousand(&rt, alloc));
    for _ in 0..100 {
        takes_lines(&rt, alloc, &mut machine, &IDLE_TICK);
    }
    let idle = machine.looks();
    check(&rt, idle <= 100);
    takes_lines(&rt, alloc, &mut machine, &START_OF_ONE);
    let more = machine.looks().wrapping_sub(idle);
    check(&rt, 1 <= more && more <= 3);
}
