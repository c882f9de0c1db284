//! The groups of a configuration: few enough, in start order, each name once.
ghost use Rattle.std.specs.Prelude.{◌≡◌, ◌↔◌, [], IsTrue, IsSome, IfSome};
ghost use Rattle.sv_base.specs.Roster.{is_membership, are_memberships, fit_within, is_roster};

use crate::ranked::{are_distinct, are_rising};
use crate::spec::{GroupSpec, Spec};
use std::alloc::Global;
use std::marker::Model;

/// The most groups of a configuration.
pub const MOST_GROUPS: usize = 256;

/// The most processes of a configuration.
pub const MOST_PROCESSES: usize = 1_024;

/// The groups of a configuration: at most 256 groups of at most 1,024 processes together, groups and members in
/// start order, no two groups of one name, and in no group two processes of one name.
#[derive(Drop)]
pub struct Groups {
    groups: Vec<GroupSpec>,
}

impl Model for Groups {
    ghost use Rattle.std.specs.Prelude.{List, IsTrue};
    ghost use Rattle.sv_base.specs.declared.spec.GroupSpec.{GroupSpec};
    ghost use Rattle.sv_base.specs.Roster.{is_roster};

    ghost Value = { List GroupSpec };

    ghost view = { λ g. g.groups.items };

    ghost invariant = { λ g. IsTrue (is_roster g.groups.items) };
}

impl Groups {
    /// No groups.
    pub fn none(alloc: Global) -> Groups
        ensures { result ≡ [] }
    {
        Groups {
            groups: Vec::new(alloc),
        }
    }

    /// These groups, or `None` exactly where they break what the type keeps.
    pub fn new(groups: Vec<GroupSpec>) -> Option<Groups>
        ensures valid { IsSome result ↔ IsTrue (is_roster groups.items) }
        ensures value { IfSome result (λ g. g ≡ groups.items) }
    {
        if is_whole(groups.as_slice()) {
            Some(Groups { groups })
        } else {
            None
        }
    }

    /// The groups in start order, each with its members in start order.
    pub fn as_slice(&self) -> &[GroupSpec]
        ensures value { result.now ≡ self.now }
        ensures roster { IsTrue (is_roster result.now) }
    {
        self.groups.as_slice()
    }

    /// Gives the groups back as a vector.
    pub fn into_vec(self) -> Vec<GroupSpec>
        ensures { result.items ≡ self }
    {
        let Groups { groups } = self;
        groups
    }
}

/// Whether these groups keep what a configuration keeps.
fn is_whole(groups: &[GroupSpec]) -> bool
    ensures { result ≡ is_roster groups.now }
{
    groups.len() <= MOST_GROUPS
        && fits_within(MOST_PROCESSES, groups)
        && are_rising(groups)
        && are_distinct(groups)
        && are_memberships(groups)
}

fn are_memberships(groups: &[GroupSpec]) -> bool
    ensures { result ≡ are_memberships groups.now }
{
    groups
        .iter()
        .all(|group| is_membership(group.members.as_slice()))
}

/// Whether these members stand in start order, no two with one name.
pub fn is_membership(members: &[Spec]) -> bool
    ensures { result ≡ is_membership members.now }
{
    are_rising(members) && are_distinct(members)
}

fn fits_within(most: usize, groups: &[GroupSpec]) -> bool
    ensures { result ≡ fit_within most groups.now }
{
    let mut room = most;
    let mut left = groups;
    while let [group, rest @ ..] = left {
        let members = group.members.as_slice().len();
        if members > room {
            return false;
        }
        room -= members;
        left = rest;
    }
    true
}
