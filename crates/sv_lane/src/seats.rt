//! The seats of a lane, and how they are made.

ghost use Rattle.std.specs.Prelude.{◌≡◌};
ghost use Rattle.crossbeam_channel.specs.Claims.{view, IsSeatAt};
ghost use Rattle.crossbeam_channel.specs.Ends.{ruled_capacity, sends_on};
ghost use Rattle.sv_lane.specs.Roles.{IsSeating};

use crate::poster::Poster;
use crate::role::Role;
use crate::rule::Rule;
use crate::steps::NewSeat;
use crossbeam_channel::{Pass, RuledReceiver, RuledSender};
use std::alloc::AllocError;

/// The seats of a lane. They are numbered from 0 in the order in which they are made; no number is kept at run time.
pub struct Seats<T: Drop> {
    pub(crate) sender: RuledSender<T, Role<T>, Rule>,
    pub(crate) receiver: RuledReceiver<T, Role<T>, Rule>,
    pub(crate) pass: Pass<T, Role<T>>,
    ghost seated: { IsSeatAt (sends_on sender) pass },
    ghost seating: { IsSeating (ruled_capacity (sends_on sender)) (view pass) },
}

impl<T: Drop> Drop for Seats<T> {
    fn drop(self) {
        let Self {
            sender: _,
            receiver: _,
            pass: _,
        } = self;
    }
}

impl<T: Drop> Seats<T> {
    /// The end that sends, and the pass.
    pub(crate) fn into_ends(self) -> (RuledSender<T, Role<T>, Rule>, Pass<T, Role<T>>)
        ensures { result ≡ (self.sender, self.pass) }
    {
        let Self {
            sender,
            receiver: _,
            pass,
        } = self;
        (sender, pass)
    }
}

impl<T: Drop> Seats<T> {
    ghost use Rattle.std.specs.Prelude.{◌+◌, [], IfOk, is_ok, if◌then◌else◌};
    ghost use Rattle.sv_lane.specs.Ends.{AreSameSeats, IsPosterOf, made, posted, seat_of};

    /// Makes a seat, which has posted nothing. A refusal makes none.
    pub fn seat(&mut self) -> Result<Poster<T>, AllocError>
        ensures poster { IfOk result (λ p. IsPosterOf self.new p) }
        ensures seat { IfOk result (λ p. seat_of p ≡ made self.old) }
        ensures posted { IfOk result (λ p. posted p ≡ []) }
        ensures made { made self.new ≡ (if is_ok result then made self.old + 1 else made self.old) }
        ensures same { AreSameSeats self.old self.new }
    {
        let sender = self.sender.try_clone()?;
        let receiver = self.receiver.try_clone()?;
        let pass = self.sender.another::<NewSeat>(&mut self.pass);
        Ok(Poster {
            sender,
            receiver,
            pass,
        })
    }
}
