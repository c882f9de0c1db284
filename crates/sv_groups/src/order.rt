//! The roster of a daemon: its groups and processes in start order.
ghost use Rattle.std.specs.Prelude.{◌≡◌, ◌+◌, ◌≤◌, ◌<◌, ◌^◌, ◌++◌, IfOk, IsTrue, MatchOption, None};
ghost use Rattle.std.specs.Prelude.{OnOk, Some, length, slice_get};
ghost use Rattle.sv_base.specs.Roster.{is_roster};
ghost use Rattle.sv_groups.specs.StartOrder.{first_members, ids_from, pairs_of, processes, span_of};
ghost use Rattle.sv_groups.specs.StartOrder.{start_order, stop_order, next_to_stop};

use crate::names::Names;
use crate::seat::{Seat, empty_seats, refill};
use std::alloc::{AllocError, Global};
use std::marker::Model;
use sv_base::config::Config;
use sv_base::ids::ChildId;
use sv_base::spec::{GroupSpec, Spec};

/// The groups of a daemon: at most 256 groups of at most 1,024 processes together, groups and members in start
/// order, no two groups of one name, and in no group two processes of one name. Contracts see it as the list of
/// the groups.
pub struct Roster {
    pub(crate) groups: Vec<GroupSpec>,
    /// Where each process is, in start order.
    pub(crate) seats: Vec<Seat>,
    /// The names of the groups and of the processes, by which one is found.
    pub(crate) names: Names,
}

impl Drop for Roster {
    fn drop(self) {
        let Self {
            groups: _,
            seats: _,
            names: _,
        } = self;
    }
}

impl Model for Roster {
    ghost use Rattle.std.specs.Prelude.{◌≡◌, List, IsTrue};
    ghost use Rattle.sv_base.specs.declared.spec.GroupSpec.{GroupSpec};
    ghost use Rattle.sv_base.specs.Roster.{is_roster};
    ghost use Rattle.sv_groups.specs.Names.{Keeps};
    ghost use Rattle.sv_groups.specs.Seats.{seats_from};

    ghost Value = { List GroupSpec };

    ghost view = { λ r. r.groups.items };

    ghost invariant = { λ r.
        IsTrue (is_roster r.groups.items) × (r.seats.items ≡ seats_from 0 r.groups.items)
        × Keeps r.names r.groups.items };
}

/// Processes side by side in the start order: from the one place to before the other, counted from 0.
#[derive(Clone, Copy, PartialEq, Eq)]
pub struct Span {
    pub from: usize,
    pub to: usize,
}

/// Of so many groups that are left of the start order, the place of the one that is stopped next: the last.
pub fn next_to_stop(left: usize) -> usize
    requires { 0 < left }
    ensures { result ≡ next_to_stop left }
{
    left - 1
}

impl Roster {
    /// The groups of a configuration.
    #[tactic(auto, using(crate::proofs::Processes::roster_fits))]
    pub fn new(alloc: Global, config: &Config) -> Result<Roster, AllocError>
        ensures { IfOk result (λ r. r ≡ config.now.groups) }
    {
        let source = config.groups.as_slice();
        let mut groups = Vec::new(alloc);
        for group in source {
            groups.push(group.clone()?)?;
        }
        let mut seats = empty_seats(alloc, count(source))?;
        refill(groups.as_slice(), &mut seats);
        let names = Names::of(alloc, source)?;
        Ok(Roster {
            groups,
            seats,
            names,
        })
    }

    /// The groups in start order, each with its members in start order.
    #[tactic(auto, using(crate::proofs::Processes::roster_fits))]
    pub fn groups(&self) -> &[GroupSpec]
        ensures value { result.now ≡ self.now }
        ensures roster { IsTrue (is_roster result.now) }
        ensures most { length (processes result.now) ≤ 1024 }
    {
        self.groups.as_slice()
    }

    /// How many processes there are.
    pub fn count(&self) -> usize
        ensures { result ≡ length (processes self.now) }
    {
        count(self.groups())
    }

    /// The group and the process of a place in the start order, counted from 0; `None` where there are not so many
    /// processes. Takes constant time.
    pub fn process(&self, place: usize) -> Option<(&GroupSpec, &Spec)>
        ensures { MatchOption result (slice_get (pairs_of self.now) place ≡ None)
            (λ pair. slice_get (pairs_of self.now) place ≡ Some (pair.0.now, pair.1.now)) }
    {
        if place >= self.seats.len() {
            return None;
        }
        let seat = self.seats[place];
        let group = &self.groups[seat.group];
        let process = &group.members.as_slice()[seat.member];
        Some((group, process))
    }

    /// The places of the processes of the group at this place of the start order of groups, counted from 0; none where
    /// there are not so many groups.
    #[tactic(auto, using(crate::proofs::Processes::first_within, crate::proofs::Processes::group_within))]
    pub fn span(&self, group: usize) -> Span
        ensures { result ≡ span_of group self.now }
    {
        let groups = self.groups();
        if group >= groups.len() {
            let to = count(groups);
            return Span { from: to, to };
        }
        let from = count(&groups[..group]);
        let to = from + first_members(&groups[group..]).len();
        Span { from, to }
    }

    /// All processes in start order.
    pub fn start_order(&self, alloc: Global) -> Result<Vec<ChildId>, AllocError>
        ensures { IfOk result (λ ids. ids.items ≡ start_order self.now) }
    {
        let mut ids = Vec::new(alloc);
        let mut next = 0;
        let mut left = self.groups();
        while let [group, rest @ ..] = left {
            let members = group.members.as_slice();
            push_ids(next, members, &mut ids)?;
            next += members.len();
            left = rest;
        }
        Ok(ids)
    }

    /// The processes of the group at this place of the start order, counted from 0, in the order in which they are
    /// stopped.
    #[tactic(auto, using(crate::proofs::Processes::first_within, crate::proofs::Processes::group_within))]
    pub fn stop_order(&self, alloc: Global, group: usize) -> Result<Vec<ChildId>, AllocError>
        requires { group < length self.now }
        ensures { IfOk result (λ ids. ids.items ≡ stop_order group self.now) }
    {
        let groups = self.groups();
        let mut ids = Vec::new(alloc);
        let first = count(&groups[..group]);
        push_ids(first, first_members(&groups[group..]), &mut ids)?;
        ids.reverse();
        Ok(ids)
    }
}

/// How many processes these groups have.
pub(crate) fn count(groups: &[GroupSpec]) -> usize
    requires { length (processes groups.now) ≤ 1024 }
    ensures { result ≡ length (processes groups.now) }
{
    let mut count = 0;
    let mut left = groups;
    while let [group, rest @ ..] = left {
        count += group.members.as_slice().len();
        left = rest;
    }
    count
}

/// The processes of the first of these groups.
pub(crate) fn first_members(groups: &[GroupSpec]) -> &[Spec]
    ensures { result.now ≡ first_members groups.now }
{
    match groups {
        [group, ..] => group.members.as_slice(),
        [] => &[],
    }
}

/// Adds the ids of these processes, which count up from `first`.
fn push_ids(first: usize, members: &[Spec], ids: &mut Vec<ChildId>) -> Result<(), AllocError>
    requires { first + length members.now ≤ 1024 }
    ensures { OnOk result (ids.new.items ≡ ids.old.items ++ ids_from first members.now) }
{
    let mut next = first;
    let mut left = members;
    while let [_, rest @ ..] = left {
        ids.push(ChildId(next as u32))?;
        next += 1;
        left = rest;
    }
    Ok(())
}
