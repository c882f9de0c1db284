//! What is known of all children without looking at them.
ghost use Rattle.std.specs.Prelude.{◌≡◌, ◌<◌, ◌&&◌, IfOk, List, Some, length, max, nat_le};
ghost use Rattle.std.specs.Prelude.{replicate, slice_get, slice_set, if◌then◌else◌};
ghost use Rattle.sv_base.specs.declared.spec.GroupSpec.{GroupSpec};
ghost use Rattle.sv_base.specs.declared.spec.Spec.{Spec};
ghost use Rattle.sv_child.specs.Moves.{new_child};
ghost use Rattle.sv_child.specs.declared.child.Child.{Child};
ghost use Rattle.sv_children.specs.Awake.{wakes_of};
ghost use Rattle.sv_children.specs.Watch.{AreSettled, Watches, and_also, but_not, is_nobody};
ghost use Rattle.sv_groups.specs.StartOrder.{pairs_of, processes};

use crate::wake::{is_settled, wake_moment};
use std::alloc::{AllocError, Global};
use sv_base::moment::{Deadline, Moment};
use sv_base::spec::Spec;
use sv_child::child::Child;
use sv_groups::Roster;
use sv_timers::Agenda;

/// Who may be unsettled: rewinding may change them, though the clock doesn't go back. A child is where it starts with the
/// deadline of an earlier stop, until its spawn is answered.
#[derive(Clone, Copy, PartialEq, Eq)]
pub(crate) enum Unsettled {
    Nobody,
    /// The child of this place.
    One(usize),
    /// It isn't known who.
    Several,
}

/// When each child wakes, and who is settled.
#[derive(Drop)]
pub(crate) struct Watch {
    /// The moments at which the children wake.
    pub(crate) agenda: Agenda,
    /// From this moment on the others are settled.
    pub(crate) at: Moment,
    pub(crate) unsettled: Unsettled,
}

impl Watch {
    /// The watch of children of which none was ever started.
    pub(crate) fn new(
        alloc: Global,
        roster: &Roster,
        children: &[Child],
    ) -> Result<Watch, AllocError>
        requires { children.now ≡ replicate (length (processes roster.now)) new_child }
        ensures { IfOk result (λ watch. Watches (pairs_of roster.now) children.now watch) }
    {
        let mut agenda = Agenda::new(alloc, count(roster))?;
        wake_all(roster, children, &mut agenda);
        Ok(Watch {
            agenda,
            at: Moment::zero(),
            unsettled: Unsettled::Nobody,
        })
    }

    /// Whether all children stay as they are when they are rewound to this moment.
    pub(crate) fn stays(&self, at: Moment) -> bool
        ensures { result ≡ (is_nobody self.now.unsettled && nat_le self.now.at at) }
    {
        self.unsettled == Unsettled::Nobody && self.at <= at
    }

    /// All children were rewound to this moment.
    pub(crate) fn rewound(&mut self, roster: &Roster, children: &[Child], at: Moment)
        requires count { length self.old.agenda ≡ length children.now }
        requires settled { AreSettled (pairs_of roster.now) children.now Unsettled.Nobody at }
        ensures { Watches (pairs_of roster.now) children.now self.new }
    {
        wake_all(roster, children, &mut self.agenda);
        self.at = at;
        self.unsettled = Unsettled::Nobody;
    }

    /// The child of a place changed at this moment.
    pub(crate) fn change(&mut self, place: usize, spec: &Spec, child: &Child, now: Moment)
        requires { place < length self.old.agenda }
        ensures { (pairs : List (GroupSpec × Spec)) (children : List Child) (group : GroupSpec)
            → slice_get pairs place ≡ Some (group, spec.now)
            → Watches pairs children self.old
            → Watches pairs (slice_set children place child.now) self.new }
    {
        self.agenda.put(place, wake_moment(spec, child));
        self.at = later_of(self.at, now);
        self.unsettled = unsettled_after(self.unsettled, place, is_settled(spec, child, self.at));
    }
}

/// The later of the two.
fn later_of(one: Moment, other: Moment) -> Moment
    ensures { result ≡ max one other }
{
    if one < other { other } else { one }
}

/// Who may be unsettled once the child of a place changed, and is settled or not.
fn unsettled_after(unsettled: Unsettled, place: usize, is_settled: bool) -> Unsettled
    ensures { result ≡ (if is_settled then but_not unsettled place else and_also unsettled place) }
{
    if is_settled {
        but_not(unsettled, place)
    } else {
        and_also(unsettled, place)
    }
}

fn but_not(unsettled: Unsettled, place: usize) -> Unsettled
    ensures { result ≡ but_not unsettled place }
{
    match unsettled {
        Unsettled::One(own) if own == place => Unsettled::Nobody,
        other => other,
    }
}

fn and_also(unsettled: Unsettled, place: usize) -> Unsettled
    ensures { result ≡ and_also unsettled place }
{
    match unsettled {
        Unsettled::Nobody => Unsettled::One(place),
        Unsettled::One(own) if own == place => Unsettled::One(own),
        _ => Unsettled::Several,
    }
}

/// How many processes a roster has.
fn count(roster: &Roster) -> u32
    ensures { result ≡ length (processes roster.now) }
{
    // At most 1,024, as is known of its groups.
    let _groups = roster.groups();
    roster.count() as u32
}

/// When the child of a place wakes.
fn wakes_at(roster: &Roster, children: &[Child], place: usize) -> Option<Deadline>
    requires { place < length children.now }
    ensures { Some result ≡ slice_get (wakes_of (pairs_of roster.now) children.now) place }
{
    match roster.process(place) {
        None => None,
        Some(process) => wake_moment(process.1, &children[place]),
    }
}

/// Writes down when each child wakes.
fn wake_all(roster: &Roster, children: &[Child], agenda: &mut Agenda)
    requires { length agenda.old ≡ length children.now }
    ensures { agenda.new ≡ wakes_of (pairs_of roster.now) children.now }
{
    for place in 0..children.len() {
        agenda.put(place, wakes_at(roster, children, place));
    }
}
