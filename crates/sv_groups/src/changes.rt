//! Groups that are added and removed.
ghost use Rattle.std.specs.Prelude.{◌≡◌, ◌+◌, ◌<◌, ◌≤◌, IfSome, IsTrue, Some, length, not};
ghost use Rattle.std.specs.Prelude.{slice_get};
ghost use Rattle.std.specs.List.{position_from, remove};
ghost use Rattle.sv_base.specs.Roster.{is_membership};
ghost use Rattle.sv_child.specs.Moves.{is_at_rest};
ghost use Rattle.sv_child.specs.declared.child.Child.{Child};
ghost use Rattle.sv_groups.specs.Changes.{Adds, Removes, stands, still_running};
ghost use Rattle.sv_groups.specs.StartOrder.{first_of, members_at, processes};

use crate::fault::GroupFault;
use crate::names::Names;
use crate::order::{Roster, count, first_members};
use crate::seat::{more_seats, refill};
use sv_base::ids::ChildId;
use sv_base::spec::GroupSpec;
use sv_child::child::Child;
use sv_ranks::place_for;

impl Roster {
    /// Adds a group, at its place in the start order; the processes after it get new ids. `Already` exactly where
    /// its name stands in the roster. A refusal, `OutOfMemory` too, leaves the roster as it was.
    pub fn add_group(&mut self, group: GroupSpec) -> Result<(), GroupFault>
        requires members { IsTrue (is_membership group.members) }
        requires groups { length self.old + 1 ≤ 256 }
        requires processes { length (processes self.old) + length group.members ≤ 1024 }
        ensures { Adds self.old group self.new result }
    {
        if stands(self.groups(), group.name.as_str()) {
            return Err(GroupFault::Already);
        }
        let place = place_for(self.groups(), &group);
        let names = Names::with(*self.groups.allocator(), self.groups(), place, &group)?;
        let mut seats = more_seats(&self.seats, group.members.as_slice().len())?;
        self.groups.insert(place, group)?;
        refill(self.groups.as_slice(), &mut seats);
        self.seats = seats;
        self.names = names;
        Ok(())
    }

    /// Removes the group of this name and gives it back; the processes after it get new ids. The children are those
    /// of all processes, in start order. `Unknown` exactly where no group has the name, else `StillRunning` exactly
    /// where a child of the group isn't STOPPED, EXITED or FATAL, with the first such one in start order. A refusal
    /// leaves the roster as it was.
    pub fn remove_group(&mut self, name: &str, children: &[Child]) -> Result<GroupSpec, GroupFault>
        requires { length children.now ≡ length (processes self.old) }
        ensures { Removes self.old name.now children.now self.new result }
    {
        let Some(place) = self.place_of(name) else {
            return Err(GroupFault::Unknown);
        };
        if let Some(child) = still_running(self.groups(), place, children) {
            return Err(GroupFault::StillRunning(ChildId(child as u32)));
        }
        Ok(self.take_out(place))
    }

    /// Takes the group at this place out of the roster.
    #[tactic(auto, using(crate::proofs::Kept::roster_without, std::proofs::lemmas::Option::slice_get_read))]
    fn take_out(&mut self, place: usize) -> GroupSpec
        requires { place < length self.old }
        ensures group { slice_get self.old place ≡ Some result }
        ensures others { self.new ≡ remove self.old place }
    {
        let span = self.span(place);
        let group = self.groups.remove(place);
        self.names.remove(place, span);
        refill(self.groups.as_slice(), &mut self.seats);
        group
    }
}

/// Whether one of these groups has this name.
fn stands(groups: &[GroupSpec], name: &str) -> bool
    ensures { result ≡ stands name.now groups.now }
{
    groups.iter().any(|group| group.name.as_str() == name)
}

/// The first child of the group at this place that isn't at rest.
#[tactic(auto, using(crate::proofs::Processes::group_within, crate::proofs::Processes::first_within))]
fn still_running(groups: &[GroupSpec], place: usize, children: &[Child]) -> Option<usize>
    requires place { place < length groups.now }
    requires children { length children.now ≡ length (processes groups.now) }
    requires most { length (processes groups.now) ≤ 1024 }
    ensures value { result ≡ still_running place groups.now children.now }
    ensures most { IfSome result (λ child. child < 1024) }
{
    let first = count(&groups[..place]);
    let members = first_members(&groups[place..]).len();
    let behind = &children[first..];
    first_running(first, &behind[..members])
}

/// The place of the first of these children that isn't at rest, where the first one's is `first`.
fn first_running(first: usize, children: &[Child]) -> Option<usize>
    requires { first + length children.now ≤ 1024 }
    ensures value { result
        ≡ position_from (λ (c : Child). not (is_at_rest c.state)) first children.now }
    ensures most { IfSome result (λ child. child < 1024) }
{
    let mut next = first;
    let mut left = children;
    while let [child, rest @ ..] = left {
        if !child.is_at_rest() {
            return Some(next);
        }
        next += 1;
        left = rest;
    }
    None
}
