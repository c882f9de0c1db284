//! A seat's end of a lane.

ghost use Rattle.std.specs.Prelude.{◌≡◌};
ghost use Rattle.crossbeam_channel.specs.Claims.{view, IsSeatAt};
ghost use Rattle.crossbeam_channel.specs.Ends.{ruled_capacity, sends_on};
ghost use Rattle.sv_lane.specs.Roles.{IsPosting};

use crate::role::Role;
use crate::rule::Rule;
use crate::steps::Posts;
use crossbeam_channel::{Pass, RuledReceiver, RuledSender};
use std::sync::Wait;

/// The poster of one seat. It keeps both ends of the channel, so that no post meets a closed lane.
pub struct Poster<T: Drop> {
    pub(crate) sender: RuledSender<T, Role<T>, Rule>,
    pub(crate) receiver: RuledReceiver<T, Role<T>, Rule>,
    pub(crate) pass: Pass<T, Role<T>>,
    ghost seated: { IsSeatAt (sends_on sender) pass },
    ghost posting: { IsPosting (ruled_capacity (sends_on sender)) (view pass) },
}

impl<T: Drop> Drop for Poster<T> {
    fn drop(self) {
        let Self {
            sender: _,
            receiver: _,
            pass: _,
        } = self;
    }
}

impl<T: Drop> Poster<T> {
    /// The pass.
    pub(crate) fn into_pass(self) -> Pass<T, Role<T>>
        ensures { result ≡ self.pass }
    {
        let Self {
            sender: _,
            receiver: _,
            pass,
        } = self;
        pass
    }
}

impl<T: Drop> Poster<T> {
    ghost use Rattle.std.specs.Prelude.{[], ◌∷◌, ◌++◌};
    ghost use Rattle.sv_lane.specs.Ends.{IsSameSeat, posted};

    /// Posts an item, after all that this seat posted before. Waits while the channel is full; if it returns, the
    /// item was posted.
    pub fn post<R: Wait>(&mut self, rt: &R, item: T)
        ensures posted { posted self.new ≡ posted self.old ++ item ∷ [] }
        ensures same { IsSameSeat self.old self.new }
    {
        let mut item = item;
        for _ in rt.forever() {
            match self.sender.send_as::<Posts, R>(rt, &mut self.pass, item) {
                Ok(()) => return,
                Err(refused) => item = refused.into_inner(),
            }
        }
        unreachable!()
    }
}
