//! A roster's lookups, its orders, and what adding and removing answer, by hand.

use crate::checks::{check, check_of};
use crate::claims::holds_at;
use crate::sample::{group, processes, roster};
use std::alloc::Global;
use std::process::Abort;
use sv_base::groups::is_membership;
use sv_base::ids::ChildId;
use sv_base::spec::GroupSpec;
use sv_base::state::State;
use sv_base::text::Text;
use sv_child::child::Child;
use sv_groups::{Found, GroupFault, Roster};

/// A group of these processes.
fn group_of(
    rt: &impl Abort,
    alloc: Global,
    name: &'static str,
    priority: i32,
    members: &[&'static str],
) -> GroupSpec {
    let mut group = group(Text::fixed(name), processes(rt, alloc, name, members));
    group.priority = priority;
    group
}

/// The name of the group of this number.
fn name_of(rt: &impl Abort, alloc: Global, number: u32) -> Text {
    Text::from_string(format!(in alloc; "g{number:03}").expect(rt, "memory"))
}

/// A group of the process p with the name of this number.
fn numbered(rt: &impl Abort, alloc: Global, number: u32) -> GroupSpec {
    let members = processes(rt, alloc, "", &["p"]);
    group(name_of(rt, alloc, number), members)
}

/// Adds a group that keeps what adding asks for: why it isn't added.
fn add(rt: &impl Abort, roster: &mut Roster, group: GroupSpec) -> Option<GroupFault> {
    let members = group.members.as_slice();
    let processes = roster.count();
    assert!(rt;
        is_membership(members) && roster.groups().len() < 256 && processes + members.len() <= 1_024
    );
    roster.add_group(group).err()
}

/// The group isn't added for this reason, or it is added.
fn adds(rt: &impl Abort, roster: &mut Roster, group: GroupSpec, fault: Option<GroupFault>) {
    let found = add(rt, roster, group);
    check(rt, found == fault);
}

/// So many children, of which that of this place is in this state and the others never started.
fn children(
    rt: &impl Abort,
    alloc: Global,
    count: usize,
    place: usize,
    state: State,
) -> Vec<Child> {
    let mut children = Vec::new(alloc);
    for id in 0..count {
        let child = child_in(if id == place { state } else { State::Stopped });
        children.push(child).expect(rt, "memory");
    }
    children
}

/// A child in this state.
fn child_in(state: State) -> Child {
    let mut child = Child::new();
    child.state = state;
    child
}

/// Removes a group where the children are these: why it isn't removed.
fn remove(
    rt: &impl Abort,
    roster: &mut Roster,
    name: &str,
    children: &[Child],
) -> Option<GroupFault> {
    assert!(rt; children.len() == roster.count());
    roster.remove_group(name, children).err()
}

/// The group isn't removed for this reason, or it is removed, where the child of this place is in this state and the
/// others never started.
fn removes(
    rt: &impl Abort,
    alloc: Global,
    roster: &mut Roster,
    name: &str,
    (place, state): (usize, State),
    fault: Option<GroupFault>,
) {
    let children = children(rt, alloc, roster.count(), place, state);
    let found = remove(rt, roster, name, children.as_slice());
    drop(children);
    check_of(rt, found == fault, name);
}

/// The name of the group of this place.
fn group_at(groups: &[GroupSpec], place: usize) -> &str {
    match groups.get(place) {
        Some(group) => group.name.as_str(),
        None => "no group",
    }
}

/// The groups have these names, in this order.
fn are_named(rt: &impl Abort, roster: &Roster, names: &[&str]) {
    let groups = roster.groups();
    let mut place = 0usize;
    for name in names {
        check_of(rt, group_at(groups, place) == *name, name);
        place = place.saturating_add(1);
    }
    check_of(rt, groups.len() == place, "no more groups");
}

/// Whether the process of this place has these names, of its group and its own.
fn is_process(roster: &Roster, place: usize, group: &str, name: &str) -> bool {
    match roster.process(place) {
        Some((its_group, spec)) => its_group.name.as_str() == group && spec.name.as_str() == name,
        None => false,
    }
}

/// The process of this place has these names, of its group and its own.
fn has_process(rt: &impl Abort, roster: &Roster, place: usize, group: &str, name: &str) {
    check_of(rt, is_process(roster, place, group, name), name);
}

/// There are as many processes.
fn has_so_many(rt: &impl Abort, roster: &Roster, count: usize) {
    check(rt, roster.process(count).is_none());
}

/// The start order of the sample.
const STARTS: [ChildId; 5] = [ChildId(0), ChildId(1), ChildId(2), ChildId(3), ChildId(4)];

fn starts_in_order(rt: &impl Abort, alloc: Global, roster: &Roster) {
    let starts = roster.start_order(alloc).expect(rt, "memory");
    check_of(rt, starts.as_slice() == STARTS.as_slice(), "starts");
    drop(starts);
}

/// The order in which the third group of the sample stops.
const STOPS: [ChildId; 2] = [ChildId(3), ChildId(2)];

/// The third group stops its processes from the last to the first.
fn stops_in_order(rt: &impl Abort, alloc: Global, roster: &Roster) {
    assert!(rt; roster.groups().len() == 4);
    let stops = roster.stop_order(alloc, 2).expect(rt, "memory");
    check_of(rt, stops.as_slice() == STOPS.as_slice(), "stops");
    drop(stops);
}

/// What names find in the roster of the test below.
const FINDS: [(&str, Found); 14] = [
    ("cat", Found::One(ChildId(1))),
    ("cat:cat", Found::One(ChildId(1))),
    ("cat:*", Found::Group(1)),
    ("cat:", Found::Group(1)),
    ("front:*", Found::Group(2)),
    ("front:", Found::Group(2)),
    ("front:web_00", Found::One(ChildId(2))),
    ("front:web_01", Found::One(ChildId(3))),
    ("front:web_01:", Found::Nothing),
    ("front", Found::Nothing),
    ("web", Found::Nothing),
    ("mem:cat", Found::Nothing),
    ("none:*", Found::Nothing),
    ("", Found::Nothing),
];

/// Four groups of five processes.
static SAMPLE: [(&str, i32, &[&str]); 4] = [
    ("mem", -1, &["mem"]),
    ("cat", 10, &["cat"]),
    ("front", 20, &["web_00", "web_01"]),
    ("tail", 999, &["tail"]),
];

/// The groups of these.
fn sample_groups(rt: &impl Abort, alloc: Global) -> Vec<GroupSpec> {
    let mut groups = Vec::new(alloc);
    for &(name, priority, members) in &SAMPLE {
        groups
            .push(group_of(rt, alloc, name, priority, members))
            .expect(rt, "memory");
    }
    groups
}

/// The roster of these.
fn sample(rt: &impl Abort, alloc: Global) -> Roster {
    roster(rt, alloc, sample_groups(rt, alloc))
}

/// This name finds this in the roster.
fn finds(rt: &impl Abort, roster: &Roster, name: &str, found: Found) {
    check_of(rt, roster.find(name) == found, name);
}

fn check_finds(rt: &impl Abort, roster: &Roster, wanted: &[(&str, Found)]) {
    for (name, found) in wanted {
        finds(rt, roster, name, *found);
    }
}

/// What the sample finds, and its orders.
fn goes_by_order(rt: &impl Abort, alloc: Global, roster: &Roster) {
    check_finds(rt, roster, &FINDS);
    starts_in_order(rt, alloc, roster);
    stops_in_order(rt, alloc, roster);
    has_process(rt, roster, 0, "mem", "mem");
    has_process(rt, roster, 3, "front", "web_01");
    has_process(rt, roster, 4, "tail", "tail");
    has_so_many(rt, roster, 5);
}

#[test]
fn lookup_and_order(rt: HostRuntime) {
    let roster = sample(&rt, rt.alloc());
    goes_by_order(&rt, rt.alloc(), &roster);
    drop(roster);
}

/// Adds a group with these processes to the roster: it isn't added for this reason, or it is added.
fn adds_these(
    rt: &impl Abort,
    alloc: Global,
    roster: &mut Roster,
    (name, priority, members): (&'static str, i32, &[&'static str]),
    fault: Option<GroupFault>,
) {
    let group = group_of(rt, alloc, name, priority, members);
    adds(rt, roster, group, fault);
}

/// Why a group isn't added whose name another one has.
const ALREADY: Option<GroupFault> = Some(GroupFault::Already);

/// Why a group isn't removed that isn't there.
const UNKNOWN: Option<GroupFault> = Some(GroupFault::Unknown);

/// Why a group isn't removed whose process of this place runs.
fn runs(place: u32) -> Option<GroupFault> {
    Some(GroupFault::StillRunning(ChildId(place)))
}

/// Groups of the sample that are refused.
fn refuses(rt: &impl Abort, alloc: Global, roster: &mut Roster) {
    adds_these(rt, alloc, roster, ("cat", 5, &["cat"]), ALREADY);
    removes(rt, alloc, roster, "none", (9, State::Running), UNKNOWN);
    removes(rt, alloc, roster, "front", (3, State::Stopping), runs(3));
    are_named(rt, roster, &["mem", "cat", "front", "tail"]);
}

/// A group of the sample that is removed.
fn loses_the_front(rt: &impl Abort, alloc: Global, roster: &mut Roster) {
    removes(rt, alloc, roster, "front", (4, State::Running), None);
    are_named(rt, roster, &["mem", "cat", "tail"]);
    finds(rt, roster, "tail", Found::One(ChildId(2)));
    has_process(rt, roster, 2, "tail", "tail");
    has_so_many(rt, roster, 3);
}

#[test]
fn refused_and_removed(rt: HostRuntime) {
    let mut roster = sample(&rt, rt.alloc());
    refuses(&rt, rt.alloc(), &mut roster);
    loses_the_front(&rt, rt.alloc(), &mut roster);
    drop(roster);
}

/// What names find where a group stands between the others of the sample.
const FINDS_WITH: [(&str, Found); 11] = [
    ("mem", Found::One(ChildId(0))),
    ("mem:", Found::Group(0)),
    ("cat:cat", Found::One(ChildId(1))),
    ("dog:a", Found::One(ChildId(2))),
    ("dog:web_00", Found::One(ChildId(3))),
    ("dog:*", Found::Group(2)),
    ("dog", Found::Nothing),
    ("front:web_00", Found::One(ChildId(4))),
    ("front:*", Found::Group(3)),
    ("tail", Found::One(ChildId(6))),
    ("tail:", Found::Group(4)),
];

/// And where the group before it is gone then.
const FINDS_WITHOUT: [(&str, Found); 10] = [
    ("mem", Found::One(ChildId(0))),
    ("cat", Found::Nothing),
    ("cat:", Found::Nothing),
    ("dog:a", Found::One(ChildId(1))),
    ("dog:web_00", Found::One(ChildId(2))),
    ("dog:", Found::Group(1)),
    ("front:web_01", Found::One(ChildId(4))),
    ("front:", Found::Group(2)),
    ("tail", Found::One(ChildId(5))),
    ("tail:*", Found::Group(3)),
];

/// A group comes between the others of the sample, and the one before it goes and comes back.
fn finds_throughout(rt: &impl Abort, alloc: Global, roster: &mut Roster) {
    let with = FINDS_WITH.as_slice();
    adds_these(rt, alloc, roster, ("dog", 15, &["a", "web_00"]), None);
    check_finds(rt, roster, with);
    adds_these(rt, alloc, roster, ("dog", 1, &["b"]), ALREADY);
    removes(rt, alloc, roster, "cat", (1, State::Running), runs(1));
    check_finds(rt, roster, with);
    removes(rt, alloc, roster, "cat", (9, State::Running), None);
    check_finds(rt, roster, &FINDS_WITHOUT);
    adds_these(rt, alloc, roster, ("cat", 10, &["cat"]), None);
    check_finds(rt, roster, with);
}

#[test]
fn found_before_and_behind(rt: HostRuntime) {
    let mut roster = sample(&rt, rt.alloc());
    finds_throughout(&rt, rt.alloc(), &mut roster);
    drop(roster);
}

/// Six groups of two processes each, not in their order.
const ADDED: [(&str, i32); 6] = [
    ("b", 7),
    ("a", 7),
    ("z", -3),
    ("m", 999),
    ("c", 7),
    ("y", -2147483648),
];

/// The six groups come, and stand in their order.
fn takes_six(rt: &impl Abort, alloc: Global, roster: &mut Roster) {
    for (name, priority) in &ADDED {
        adds_these(rt, alloc, roster, (*name, *priority, &["p", "q"]), None);
    }
    are_named(rt, roster, &["y", "z", "a", "b", "c", "m"]);
    finds(rt, roster, "b:q", Found::One(ChildId(7)));
}

/// Others come, until there are 256.
fn takes_the_others(rt: &impl Abort, alloc: Global, roster: &mut Roster) {
    for number in 6..256 {
        adds(rt, roster, numbered(rt, alloc, number), None);
    }
    holds_at(rt, roster.groups().len() == 256, 256);
    finds(rt, roster, "g255:p", Found::One(ChildId(259)));
    has_process(rt, roster, 259, "g255", "p");
    has_so_many(rt, roster, 262);
}

#[test]
fn added_groups(rt: HostRuntime) {
    let mut roster = roster(&rt, rt.alloc(), Vec::new(rt.alloc()));
    takes_six(&rt, rt.alloc(), &mut roster);
    takes_the_others(&rt, rt.alloc(), &mut roster);
    drop(roster);
}
