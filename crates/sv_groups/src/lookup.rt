//! What a name of a command finds: a process, a group, or nothing.
ghost use Rattle.std.specs.Prelude.{◌≡◌, ◌<◌, IfSome, Some, None};
ghost use Rattle.std.specs.List.{position_from};
ghost use Rattle.sv_groups.specs.Lookup.{found, found_by, is_called, names_of, place_of};

use crate::order::Roster;
use sv_base::ids::ChildId;

/// What a name of a command finds.
#[derive(Clone, Copy, PartialEq, Eq)]
pub enum Found {
    /// One process.
    One(ChildId),
    /// A whole group, by its place in the start order of groups, counted from 0.
    Group(usize),
    Nothing,
}

impl Roster {
    /// What a name finds: `group:process` one process, `group:*` and `group:` a group, and a bare name the process
    /// of this name in the group of this name.
    pub fn find(&self, name: &str) -> Found
        ensures { result ≡ found name.now self.now }
    {
        match name.split_once(':') {
            Some((group, member)) if member.is_empty() || member == "*" => self.find_group(group),
            Some((group, member)) => self.find_process(group, member),
            None => self.find_process(name, name),
        }
    }

    fn find_group(&self, name: &str) -> Found
        ensures { result ≡ found_by name.now None self.now }
    {
        match self.place_of(name) {
            Some(place) => Found::Group(place),
            None => Found::Nothing,
        }
    }

    fn find_process(&self, group: &str, name: &str) -> Found
        ensures { result ≡ found_by group.now (Some name.now) self.now }
    {
        match self.place_of_process(group, name) {
            Some(place) => Found::One(ChildId(place as u32)),
            None => Found::Nothing,
        }
    }

    /// The place of the group of this name.
    pub(crate) fn place_of(&self, name: &str) -> Option<usize>
        ensures { result ≡ place_of name.now self.now }
    {
        self.names.group(name)
    }
    /// The place of the process of these two names in the start order.
    fn place_of_process(&self, group: &str, name: &str) -> Option<usize>
        ensures value { result
            ≡ position_from (is_called group.now name.now) 0 (names_of self.now) }
        ensures most { IfSome result (λ place. place < 1024) }
    {
        self.names.process(group, name)
    }
}
