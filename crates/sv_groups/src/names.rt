//! The names of a roster's groups and processes, by which one is found in expected constant time.
ghost use Rattle.std.specs.Prelude.{◌≡◌, ◌<◌, ◌≤◌, [], IfOk, IfSome, IsTrue, OnOk, length};
ghost use Rattle.std.specs.Prelude.{position, fold, insert, remove};
ghost use Rattle.std.specs.List.{remove_range};
ghost use Rattle.std.specs.Str.{bytes_eq};
ghost use Rattle.std.specs.Hash as fed;
ghost use Rattle.std.specs.Cmp.Lexicographic.{bytes_decides, nat_list_eq_equiv};
ghost use Rattle.std.proofs.Common.{ap, sym};
ghost use Rattle.indexmap.specs.IndexSet.{insert_key};
ghost use Rattle.sv_groups.specs.Lookup.{is_called, names_in, names_of};
ghost use Rattle.sv_base.specs.Roster.{is_roster};
ghost use Rattle.sv_groups.specs.Alike.{alike, fed_alike, same_names, same_names_equiv};
ghost use Rattle.sv_groups.specs.Names.{Keeps, with_names, with_processes};

use crate::order::Span;
use indexmap::{Equivalent, IndexSet};
use std::alloc::{AllocError, Global};
use sv_base::spec::GroupSpec;
use sv_base::text::Text;

/// The names of a roster's groups and processes, each at its place in the start order.
pub(crate) struct Names {
    groups: IndexSet<Text>,
    /// The name of the group of each process, and its own.
    processes: IndexSet<(Text, Text)>,
}

impl Drop for Names {
    fn drop(self) {
        let Self {
            groups: _,
            processes: _,
        } = self;
    }
}

/// The name of a group that is looked for.
#[derive(Clone, Copy, PartialEq, Eq, Hash)]
struct GroupName<'a>(&'a str);

/// The two names of a process that is looked for.
#[derive(Clone, Copy, PartialEq, Eq, Hash)]
struct ProcessName<'a> {
    group: &'a str,
    own: &'a str,
}

impl<'a> Equivalent<Text> for GroupName<'a> {
    ghost equivalent = { λ q k. bytes_eq k q.0.now };

    ghost respects_hash = { λ q k h. ap fed.str (sym ((bytes_decides k q.0.now).0 h)) };

    ghost respects_eq = { λ q x y. alike nat_list_eq_equiv q.0.now x y };

    fn equivalent(&self, key: &Text) -> bool {
        key.as_str() == self.0
    }
}

impl<'a> Equivalent<(Text, Text)> for ProcessName<'a> {
    ghost equivalent = { λ q k. is_called q.group.now q.own.now k };

    ghost respects_hash = { λ q k. fed_alike q.group.now q.own.now k };

    ghost respects_eq = { λ q x y. alike same_names_equiv (q.group.now, q.own.now) x y };

    fn equivalent(&self, key: &(Text, Text)) -> bool {
        key.0.as_str() == self.group && key.1.as_str() == self.own
    }
}

impl Names {
    /// The names of these groups and of their processes.
    #[tactic(auto, using(crate::proofs::Named::names_of_roster, crate::proofs::Named::processes_of_roster))]
    pub(crate) fn of(alloc: Global, groups: &[GroupSpec]) -> Result<Names, AllocError>
        requires { IsTrue (is_roster groups.now) }
        ensures { IfOk result (λ names. Keeps names groups.now) }
    {
        let mut names = Names::empty(alloc);
        names.add_all(groups)?;
        Ok(names)
    }

    /// The names of these groups, with one group more at this place, and of their processes.
    pub(crate) fn with(
        alloc: Global,
        groups: &[GroupSpec],
        place: usize,
        group: &GroupSpec,
    ) -> Result<Names, AllocError>
        requires place { place ≤ length groups.now }
        requires roster { IsTrue (is_roster (insert groups.now place group.now)) }
        ensures { IfOk result (λ names. Keeps names (insert groups.now place group.now)) }
    {
        let mut names = Names::empty(alloc);
        names.add_all(&groups[..place])?;
        names.add(group)?;
        names.add_all(&groups[place..])?;
        Ok(names)
    }

    /// No names.
    fn empty(alloc: Global) -> Names
        ensures groups { result.groups.keys ≡ [] }
        ensures processes { result.processes.keys ≡ [] }
    {
        Names {
            groups: IndexSet::new(alloc),
            processes: IndexSet::new(alloc),
        }
    }

    /// Adds the names of these groups and of their processes, after the others.
    fn add_all(&mut self, groups: &[GroupSpec]) -> Result<(), AllocError>
        ensures groups { OnOk result (self.new.groups.keys
            ≡ with_names self.old.groups.keys groups.now) }
        ensures processes { OnOk result (self.new.processes.keys
            ≡ with_processes self.old.processes.keys groups.now) }
    {
        for group in groups {
            self.add(group)?;
        }
        Ok(())
    }

    /// Adds the names of a group and of its processes, after the others.
    fn add(&mut self, group: &GroupSpec) -> Result<(), AllocError>
        ensures groups { OnOk result (self.new.groups.keys
            ≡ insert_key bytes_eq self.old.groups.keys group.now.name) }
        ensures processes { OnOk result (self.new.processes.keys
            ≡ fold (insert_key same_names) self.old.processes.keys (names_in group.now)) }
    {
        self.groups.insert(group.name.clone()?)?;
        add_processes(group, &mut self.processes)
    }

    /// The place of the group of this name.
    pub(crate) fn group(&self, name: &str) -> Option<usize>
        ensures { result ≡ position (λ n. bytes_eq n name.now) self.now.groups.keys }
    {
        self.groups.get_index_of(GroupName(name))
    }

    /// The place of the process of these two names.
    pub(crate) fn process(&self, group: &str, own: &str) -> Option<usize>
        ensures value { result ≡ position (is_called group.now own.now) self.now.processes.keys }
        ensures within { IfSome result (λ place. place < length self.now.processes.keys) }
    {
        self.processes.get_index_of(ProcessName { group, own })
    }

    /// Takes out the name of the group at this place, and those of the processes of these places.
    pub(crate) fn remove(&mut self, group: usize, span: Span)
        requires order { span.from ≤ span.to }
        requires within { span.to ≤ length self.old.processes.keys }
        ensures groups { self.new.groups.keys ≡ remove self.old.groups.keys group }
        ensures processes { self.new.processes.keys
            ≡ remove_range self.old.processes.keys span.from span.to }
    {
        self.groups.shift_remove_index(group);
        drop(self.processes.drain(span.from..span.to));
    }
}

/// Adds the names of the processes of a group, after the others.
fn add_processes(
    group: &GroupSpec,
    processes: &mut IndexSet<(Text, Text)>,
) -> Result<(), AllocError>
    ensures { OnOk result (processes.new.keys
        ≡ fold (insert_key same_names) processes.old.keys (names_in group.now)) }
{
    for member in group.members.as_slice() {
        let names = (group.name.clone()?, member.name.clone()?);
        processes.insert(names)?;
    }
    Ok(())
}
