//! The end of a lane.

ghost use Rattle.std.specs.Prelude.{◌≡◌, ◌≤◌, [], ◌++◌, map, vec_capacity};
ghost use Rattle.crossbeam_channel.specs.Claims.{view, IsSeatAt};
ghost use Rattle.crossbeam_channel.specs.Ends.{receives_on, ruled_capacity, sends_on};
ghost use Rattle.sv_lane.specs.Ends.{AreAllPosters, made, posted};
ghost use Rattle.sv_lane.specs.Order.{Settles};
ghost use Rattle.sv_lane.specs.Roles.{IsFinishing, closed_in, left_in, taken_in};
ghost use Rattle.sv_lane.specs.declared.role.Role.TheVariants.{Seating};

use crate::poster::Poster;
use crate::role::Role;
use crate::rule::Rule;
use crate::seats::Seats;
use crate::steps::{Empties, Gathers};
use crossbeam_channel::{Pass, RuledReceiver, RuledSender};
use std::sync::Wait;

/// The pass of the seats, which has taken in the passes of these posters.
pub(crate) fn gather<T: Drop>(seats: Seats<T>, posters: Vec<Poster<T>>) -> Pass<T, Role<T>>
    requires posters { AreAllPosters seats posters.items }
    ensures seated { IsSeatAt (sends_on seats.sender) result }
    ensures gathered { view result
        ≡ Seating (ruled_capacity (sends_on seats.sender)) (made seats) (map posted posters.items) }
{
    let (sender, pass) = seats.into_ends();
    let mut pass = pass;
    for poster in posters {
        sender.absorb::<Gathers>(&mut pass, poster.into_pass());
    }
    pass
}

/// The items that are left in the channel, oldest first.
pub(crate) fn empty<T: Drop, R: Wait>(
    rt: &R,
    receiver: &RuledReceiver<T, Role<T>, Rule>,
    pass: Pass<T, Role<T>>,
    rest: Vec<T>,
) -> Vec<T>
    requires seated { IsSeatAt (receives_on receiver.now) pass }
    requires all { IsFinishing (view pass) }
    requires room { left_in (view pass) ≤ vec_capacity rest }
    requires none { rest.items ≡ [] }
    ensures rest { Settles (taken_in (view pass)) (closed_in (view pass)) result.items }
{
    let mut pass = pass;
    let mut rest = rest;
    for _ in rt.forever() {
        match receiver.try_recv_as::<Empties, R>(rt, &mut pass) {
            Ok(item) => rest.push_reserved(item),
            Err(_) => return rest,
        }
    }
    unreachable!()
}
