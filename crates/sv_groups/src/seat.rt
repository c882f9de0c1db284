//! Where the processes of a roster are, so that one is found by its place in the start order in constant time.
ghost use Rattle.std.specs.Prelude.{◌≡◌, ◌+◌, ◌≤◌, ◌++◌, length, take, IfOk, IsTrue, OnOk};
ghost use Rattle.sv_base.specs.Roster.{is_roster};
ghost use Rattle.sv_groups.specs.Seats.{seats_from, seats_in};
ghost use Rattle.sv_groups.specs.StartOrder.{processes};

use crate::order::count;
use std::alloc::{AllocError, Global};
use sv_base::spec::GroupSpec;

/// Where a process is.
#[derive(Clone, Copy)]
pub(crate) struct Seat {
    /// The place of its group in the start order of groups.
    pub(crate) group: usize,
    /// Its place among the members of the group.
    pub(crate) member: usize,
}

impl Seat {
    /// A seat that is not filled yet.
    pub(crate) const EMPTY: Seat = Seat {
        group: 0,
        member: 0,
    };
}

/// Writes where each process of these groups is.
fn fill(groups: &[GroupSpec], seats: &mut [Seat])
    requires { length seats.old ≡ length (processes groups.now) }
    ensures { seats.new ≡ seats_from 0 groups.now }
{
    let mut next = 0;
    for (group, own) in groups.iter().enumerate() {
        let members = own.members.as_slice().len();
        fill_group(group, members, next, seats);
        next += members;
    }
}

/// Writes where each process of these groups is, which have no more processes than there are seats.
#[tactic(auto, using(crate::proofs::Processes::roster_fits))]
pub(crate) fn refill(groups: &[GroupSpec], seats: &mut Vec<Seat>)
    requires fewer { length (processes groups.now) ≤ length seats.old.items }
    requires roster { IsTrue (is_roster groups.now) }
    ensures { seats.new.items ≡ seats_from 0 groups.now }
{
    seats.truncate(count(groups));
    fill(groups, seats.as_mut_slice());
}

/// Writes where the members of one group are, from `next` on.
fn fill_group(group: usize, members: usize, next: usize, seats: &mut [Seat])
    requires { next + members ≤ length seats.old }
    ensures { take (next + members) seats.new ≡ take next seats.old ++ seats_in group 0 members }
{
    for member in 0..members {
        seats[next + member] = Seat { group, member };
    }
}

/// So many seats that are not filled yet.
pub(crate) fn empty_seats(alloc: Global, count: usize) -> Result<Vec<Seat>, AllocError>
    ensures { IfOk result (λ seats. length seats.items ≡ count) }
{
    let mut seats = Vec::new(alloc);
    add_empty(count, &mut seats)?;
    Ok(seats)
}

/// As many seats as these and so many more, all to be filled.
pub(crate) fn more_seats(seats: &Vec<Seat>, more: usize) -> Result<Vec<Seat>, AllocError>
    ensures { IfOk result (λ all. length all.items ≡ length seats.now.items + more) }
{
    let mut all = seats.clone()?;
    add_empty(more, &mut all)?;
    Ok(all)
}

fn add_empty(count: usize, seats: &mut Vec<Seat>) -> Result<(), AllocError>
    ensures { OnOk result (length seats.new.items ≡ length seats.old.items + count) }
{
    for _ in 0..count {
        seats.push(Seat::EMPTY)?;
    }
    Ok(())
}
