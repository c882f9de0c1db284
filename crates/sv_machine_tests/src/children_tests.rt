//! One child in a group of another name than its own, and what names mean.
use crate::checks::check;
use std::alloc::Global;
use std::process::Abort;
use std::rt::HostRuntime;
use sv_base::config::{ClientSpec, Config};
use sv_base::groups::Groups;
use sv_base::ids::Run;
use sv_base::items::Items;
use sv_base::moment::Moment;
use sv_base::number::{Backups, CaptureBytes, Pid, Retries, Seconds};
use sv_base::signal::Signal;
use sv_base::spec::{GroupSpec, LogSpec, Spec};
use sv_base::state::{Autorestart, How, Level, Mood, State};
use sv_base::text::Text;
use sv_child::step::{ChildDeed, Step};
use sv_children::{Children, News, Told};
use sv_groups::Span;
use sv_out::order::{Order, SpawnOrder};

fn no_log() -> LogSpec {
    LogSpec {
        file: None,
        maxbytes: 0,
        backups: Backups::least(),
        capture: CaptureBytes::least(),
        events: false,
    }
}

/// A program which says that it is of another group than the one that it stands in.
fn program(alloc: Global, name: &'static str) -> Spec {
    Spec {
        group: Text::fixed("other"),
        name: Text::fixed(name),
        words: Items::new(alloc),
        priority: 999,
        autostart: true,
        startsecs: Seconds::least(),
        startretries: Retries::least(),
        autorestart: Autorestart::Never,
        exitcodes: Items::new(alloc),
        stopsignal: Signal::Term,
        stopwaitsecs: Seconds::least(),
        stopasgroup: false,
        killasgroup: false,
        redirect_stderr: false,
        stdout: no_log(),
        stderr: no_log(),
        environment: Items::new(alloc),
        directory: Text::fixed("/var"),
        umask: Text::fixed(""),
        user: Text::fixed(""),
    }
}

fn group(rt: &impl Abort, alloc: Global, name: &'static str, names: &[&'static str]) -> GroupSpec {
    let mut members = Items::new(alloc);
    for name in names {
        members.push(program(alloc, *name)).expect(rt, "memory");
    }
    GroupSpec {
        name: Text::fixed(name),
        priority: 999,
        members,
        pool: None,
    }
}

/// The program d, alone in its group, and behind it the group g of three.
fn groups(rt: &impl Abort, alloc: Global) -> Vec<GroupSpec> {
    let mut groups = Vec::new(alloc);
    groups
        .push(group(rt, alloc, "d", &["d"]))
        .expect(rt, "memory");
    groups
        .push(group(rt, alloc, "g", &["a", "b", "c"]))
        .expect(rt, "memory");
    groups
}

/// A configuration of these groups, and of nothing else.
fn config(alloc: Global, groups: Groups) -> Config {
    Config {
        identifier: Text::fixed("supervisor"),
        main: no_log(),
        level: Level::Info,
        groups,
        servers: Items::new(alloc),
        client: ClientSpec {
            url: Text::fixed(""),
            username: Text::fixed(""),
            password: Text::fixed(""),
        },
        rpc: false,
    }
}

/// The groups where they are a roster.
fn roster(rt: &impl Abort, groups: Option<Groups>) -> Groups {
    groups.expect(rt, "a roster")
}

/// The children of a configuration.
fn children_of(rt: &impl Abort, alloc: Global, config: &Config) -> Children {
    Children::new(alloc, config).expect(rt, "memory")
}

/// The children d and, in the group g, a, b and c.
fn one_and_three(rt: &impl Abort, alloc: Global) -> Children {
    let roster = roster(rt, Groups::new(groups(rt, alloc)));
    children_of(rt, alloc, &config(alloc, roster))
}

/// What names mean, by the places of the children.
static NAMES: [(&str, usize, usize); 7] = [
    ("d", 0, 1),
    ("d:d", 0, 1),
    ("g:b", 2, 3),
    ("g:*", 1, 4),
    ("g", 0, 0),
    ("other:b", 0, 0),
    ("other:*", 0, 0),
];

#[test]
fn names_are_the_rosters(rt: HostRuntime) {
    let children = one_and_three(&rt, rt.alloc());
    check(&rt, children.len() == 4);
    for &(name, from, to) in &NAMES {
        let span = children.meant(&Text::fixed(name));
        check(&rt, span == Span { from, to });
    }
}

/// The step that the news have the child b take.
fn step(rt: &impl Abort, children: &mut Children, news: &News) -> Step {
    children
        .bring(2, news, Mood::Running, Moment::zero())
        .expect(rt, "a step")
}

/// The step asks for this deed.
fn asks(rt: &impl Abort, step: &Step, deed: ChildDeed) {
    check(rt, step.deed == Some(deed));
}

/// The order that spawns the child b.
fn spawn(rt: &impl Abort, children: &Children) -> SpawnOrder {
    children
        .spawn_order(2, Run(7))
        .expect(rt, "memory")
        .expect(rt, "a process")
}

/// The order that spawns the child b names the group g.
fn is_spawn_of_b(rt: &impl Abort, spawn: &SpawnOrder) {
    check(rt, spawn.group.as_str() == "g");
    check(rt, spawn.name.as_str() == "b");
    check(rt, spawn.directory.as_str() == "/var");
}

/// The pid of each process.
fn pid(rt: &impl Abort) -> Pid {
    Pid::new(12).expect(rt, "a pid")
}

/// The child of this place has a process of run 7 with this pid.
fn has_its_pid(children: &mut Children, place: usize, pid: Pid) {
    let _told = children.answer(place, Run(7), Told::Started(pid), Moment::zero());
}

/// The end of another run doesn't concern the child b.
fn leaves_another_run(rt: &impl Abort, children: &mut Children) {
    let other = News::Exit(Run(8), How::Code(0));
    let step = children.bring(2, &other, Mood::Running, Moment::zero());
    check(rt, step.is_none());
}

/// The child b is started as run 7, and stopped: its reports, its spawn and its signal name the group g.
#[test]
fn one_child_is_started_and_stopped(rt: HostRuntime) {
    let alloc = rt.alloc();
    let mut children = one_and_three(&rt, alloc);
    let given = given_by_the_child(&rt, alloc, &mut children);
    drop(children);
    check(&rt, is_reported(given.as_slice()));
}

/// What that child gives.
fn given_by_the_child(rt: &impl Abort, alloc: Global, children: &mut Children) -> Vec<Order> {
    let mut given = Vec::new(alloc);
    let start = step(rt, children, &News::Start);
    asks(rt, &start, ChildDeed::Spawn);
    children
        .report(2, &start.edges, &mut given)
        .expect(rt, "memory");
    is_spawn_of_b(rt, &spawn(rt, children));
    has_its_pid(children, 2, pid(rt));
    leaves_another_run(rt, children);
    let stop = step(rt, children, &News::Stop);
    asks(rt, &stop, ChildDeed::Kill(Signal::Term, false));
    check(rt, !children.are_at_rest(Span { from: 0, to: 4 }));
    children
        .report(2, &stop.edges, &mut given)
        .expect(rt, "memory");
    children
        .kill(2, Signal::Term, false, &mut given)
        .expect(rt, "memory");
    given
}

/// The orders of that child.
fn is_reported(given: &[Order]) -> bool {
    match given {
        [started, stopped, signalled] => is_edge(started, State::Stopped, State::Starting)
            && is_edge(stopped, State::Starting, State::Stopping)
            && is_signal(signalled),
        _ => false,
    }
}

fn is_edge(order: &Order, left: State, entered: State) -> bool {
    match order {
        Order::State {
            group,
            name,
            from,
            to,
        } => { group.as_str() == "g" && name.as_str() == "b" && *from == left && *to == entered }
        _ => false,
    }
}

fn is_signal(order: &Order) -> bool {
    match order {
        Order::Kill { run, signal, group } => run.0 == 7 && *signal == Signal::Term && !*group,
        _ => false,
    }
}

/// All four are to be started: one settle tells them, also while they start, and another where it begins again.
#[test]
fn the_awake_are_told_in_start_order(rt: HostRuntime) {
    let mut children = one_and_three(&rt, rt.alloc());
    are_told_in_start_order(&rt, &mut children);
    drop(children);
}

/// All four are told, and how many were looked at for that.
fn are_told_in_start_order(rt: &impl Abort, children: &mut Children) {
    let now = Moment::zero();
    for place in 0..4usize {
        is_awake(rt, children, place);
    }
    check(rt, children.next_awake(4, now).is_none());
    check(rt, children.looks() == 4);
    check(rt, children.next_awake(3, now) == Some(3));
    check(rt, children.looks() == 8);
}

/// The child of this place is the next that is awake, and starts.
fn is_awake(rt: &impl Abort, children: &mut Children, place: usize) {
    let now = Moment::zero();
    check(rt, children.next_awake(place, now) == Some(place));
    let step = children
        .bring(place, &News::Time, Mood::Running, now)
        .expect(rt, "a step");
    check(rt, step.deed == Some(ChildDeed::Spawn));
    has_its_pid(children, place, pid(rt));
}
