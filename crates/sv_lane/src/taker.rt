//! The taker's end of a lane.

ghost use Rattle.std.specs.Prelude.{◌≡◌, ◌≤◌, [], vec_capacity};
ghost use Rattle.crossbeam_channel.specs.Claims.{view, IsSeatAt};
ghost use Rattle.crossbeam_channel.specs.Ends.{receives_on, ruled_capacity, sends_on};
ghost use Rattle.sv_lane.specs.Roles.{IsTaking};

use crate::finishing::{empty, gather};
use crate::poster::Poster;
use crate::role::Role;
use crate::rule::Rule;
use crate::seats::Seats;
use crate::steps::{Closes, Takes};
use crossbeam_channel::{Pass, RuledReceiver, RuledSender};
use std::sync::Wait;

/// The one taker of a lane. It keeps both ends of the channel, and room for all that the channel may hold at the end.
pub struct Taker<T: Drop> {
    pub(crate) sender: RuledSender<T, Role<T>, Rule>,
    pub(crate) receiver: RuledReceiver<T, Role<T>, Rule>,
    pub(crate) pass: Pass<T, Role<T>>,
    pub(crate) rest: Vec<T>,
    ghost seated: { IsSeatAt (sends_on sender) pass },
    ghost paired: { receives_on receiver ≡ sends_on sender },
    ghost taking: { IsTaking (ruled_capacity (sends_on sender)) (view pass) },
    ghost room: { ruled_capacity (sends_on sender) ≤ vec_capacity rest },
    ghost none: { rest.items ≡ [] },
}

impl<T: Drop> Drop for Taker<T> {
    fn drop(self) {
        let Self {
            sender: _,
            receiver: _,
            pass: _,
            rest: _,
        } = self;
    }
}

impl<T: Drop> Taker<T> {
    ghost use Rattle.std.specs.Prelude.{ℕ, ◌∷◌, ◌++◌, map};
    ghost use Rattle.sv_lane.specs.Ends.{AreAllPosters, IsLaneOf, IsSameTaker, posted, taken};
    ghost use Rattle.sv_lane.specs.Order.{AreFronts, Settles};

    /// Takes the item at the front, which some seat posted. Waits while the channel is empty: for ever, where nothing
    /// more is posted.
    pub fn take<R: Wait>(&mut self, rt: &R) -> T
        ensures taken { (seat : ℕ) × (taken self.new ≡ taken self.old ++ (seat, result) ∷ []) }
        ensures same { IsSameTaker self.old self.new }
    {
        for _ in rt.forever() {
            if let Ok(item) = self.receiver.recv_as::<Takes, R>(rt, &mut self.pass) {
                return item;
            }
        }
        unreachable!()
    }

    /// Takes in the seats and the posters of all seats that were made, in the order of their numbers, and gives the
    /// items that were not taken, oldest first. It takes no memory: the list was made with the lane.
    pub fn finish<R: Wait>(self, rt: &R, seats: Seats<T>, posters: Vec<Poster<T>>) -> Vec<T>
        requires lane { IsLaneOf seats self }
        requires posters { AreAllPosters seats posters.items }
        ensures rest { Settles (taken self) (map posted posters.items) result.items }
        ensures fronts { AreFronts (taken self) (map posted posters.items) }
    {
        let seating = gather(seats, posters);
        let Self {
            sender,
            receiver,
            mut pass,
            rest,
        } = self;
        sender.absorb::<Closes>(&mut pass, seating);
        empty(rt, &receiver, pass, rest)
    }
}
