//! Deadlines that were set and cleared, with who is due, worked out by hand.
ghost use Rattle.std.specs.Prelude.{◌≡◌};

use crate::checks::check;
use crate::claims::holds_at;
use crate::sample::moment;
use std::alloc::Global;
use std::process::Abort;
use sv_base::{ChildId, Deadline, Moment};
use sv_timers::{Agenda, Due, Looked};

/// So many seconds after 1970 began.
fn at(seconds: u8) -> Deadline {
    Moment::zero().later(u32::from(seconds))
}

/// The children that are due at these seconds, of a table with room for so many in its list.
fn looked_at(rt: &impl Abort, alloc: Global, due: &Due, seconds: u8, room: u32) -> Looked {
    let mut looked = Looked::new(alloc, room).expect(rt, "memory");
    due.settle(moment(rt, 1_000 * u64::from(seconds)), &mut looked);
    looked
}

/// These are due at these seconds, of a table with room for three in its list.
fn are_due(rt: &impl Abort, alloc: Global, due: &Due, seconds: u8, wanted: &[ChildId]) {
    let looked = looked_at(rt, alloc, due, seconds, 3);
    holds_at(rt, looked.children() == wanted, u64::from(seconds));
    drop(looked);
}

/// Which children are due at some seconds.
const DUE: [(u8, &[ChildId]); 5] = [
    (0, &[]),
    (2, &[]),
    (3, &[ChildId(2), ChildId(3)]),
    (9, &[ChildId(0), ChildId(2), ChildId(3)]),
    (250, &[ChildId(0), ChildId(2), ChildId(3)]),
];

/// The first deadline of the table is this one.
fn begins_at(rt: &impl Abort, due: &Due, earliest: Option<Deadline>) {
    check(rt, due.earliest() == earliest);
}

#[test]
fn the_due_come_in_start_order(rt: HostRuntime) {
    let mut due = Due::new(rt.alloc(), 5).expect(&rt, "memory");
    due.set(ChildId(4), at(250));
    due.set(ChildId(0), at(9));
    due.set(ChildId(2), at(7));
    due.set(ChildId(3), at(3));
    due.set(ChildId(2), at(3));
    due.set(ChildId(1), at(1));
    begins_at(&rt, &due, Some(at(1)));
    due.clear(ChildId(1));
    begins_at(&rt, &due, Some(at(3)));
    for (seconds, numbers) in &DUE {
        are_due(&rt, rt.alloc(), &due, *seconds, numbers);
    }
    drop(due);
}

/// Three children that are due.
fn three(rt: &impl Abort, alloc: Global) -> Due {
    let mut due = Due::new(alloc, 3).expect(rt, "memory");
    due.set(ChildId(0), at(0));
    due.set(ChildId(1), at(0));
    due.set(ChildId(2), at(0));
    due
}

/// Three children that are due, of whom a list with room for two is told.
fn two_of_three(rt: &impl Abort, alloc: Global) -> Looked {
    let due = three(rt, alloc);
    let looked = looked_at(rt, alloc, &due, 0, 2);
    drop(due);
    looked
}

/// The list has so many children, and counts three looks.
fn has_looked(rt: &impl Abort, looked: &Looked, children: usize) {
    check(
        rt,
        looked.children().len() == children && looked.looks() == 3,
    );
}

#[test]
fn a_list_counts_looks_past_its_room(rt: HostRuntime) {
    let mut looked = two_of_three(&rt, rt.alloc());
    has_looked(&rt, &looked, 2);
    looked.forget();
    has_looked(&rt, &looked, 0);
    drop(looked);
}

#[test]
fn no_children_are_never_due(rt: HostRuntime) {
    let due = Due::new(rt.alloc(), 0).expect(&rt, "memory");
    begins_at(&rt, &due, None);
    are_due(&rt, rt.alloc(), &due, 255, &[]);
    drop(due);
}

/// The child of this number is next, or none, and so many were looked at for it.
fn is_next(rt: &impl Abort, agenda: &mut Agenda, from: usize, child: Option<ChildId>, looks: usize)
    ensures { agenda.new ≡ agenda.old }
{
    let next = agenda.next(from, Moment::zero());
    check(rt, next.child == child && next.looks == looks);
}

#[test]
fn the_due_are_told_one_by_one(rt: HostRuntime) {
    let mut agenda = Agenda::new(rt.alloc(), 5).expect(&rt, "memory");
    agenda.put(0, Some(at(0)));
    agenda.put(2, Some(at(0)));
    agenda.put(3, Some(at(0)));
    is_next(&rt, &mut agenda, 0, Some(ChildId(0)), 3);
    agenda.put(0, None);
    is_next(&rt, &mut agenda, 1, Some(ChildId(2)), 0);
    agenda.put(4, Some(at(250)));
    is_next(&rt, &mut agenda, 3, Some(ChildId(3)), 2);
    is_next(&rt, &mut agenda, 4, None, 0);
    drop(agenda);
}
