//! The making of a lane.

ghost use Rattle.std.specs.Prelude.{◌≡◌, ◌≤◌, [], IfOk};
ghost use Rattle.crossbeam_channel.specs.Claims.{view, IsSeatAt};
ghost use Rattle.crossbeam_channel.specs.Ends.{ruled_capacity, sends_on};
ghost use Rattle.sv_lane.specs.Ends.{IsLaneOf, made, room, taken};
ghost use Rattle.sv_lane.specs.declared.role.Role.TheVariants.{Opening, Seating, Taking};

use crate::role::Role;
use crate::rule::Rule;
use crate::seats::Seats;
use crate::steps::{Opens, Room};
use crate::taker::Taker;
use crossbeam_channel::{Pass, RuledSender, bounded_with};
use std::alloc::{AllocError, Global};
use std::marker::Brand;

/// Makes a lane whose channel holds at most `capacity` items, with no seat yet.
pub fn lane<T: Drop>(alloc: Global, capacity: u32) -> Result<(Taker<T>, Seats<T>), AllocError>
    requires { 1 ≤ capacity }
    ensures lane { IfOk result (λ ends. IsLaneOf ends.1 ends.0) }
    ensures room { IfOk result (λ ends. room ends.0 ≡ capacity) }
    ensures taken { IfOk result (λ ends. taken ends.0 ≡ []) }
    ensures made { IfOk result (λ ends. made ends.1 ≡ 0) }
{
    let capacity = capacity as usize;
    let rest = Vec::with_capacity(alloc, capacity)?;
    let (sender, receiver, mut pass) = bounded_with::<T, Role<T>, Rule, Global>(alloc, capacity)?;
    let seats_sender = sender.try_clone()?;
    let seats_receiver = receiver.try_clone()?;
    let seats_pass = open::<T, Brand>(&sender, &mut pass);
    let taker = Taker {
        sender,
        receiver,
        pass,
        rest,
    };
    let seats = Seats {
        sender: seats_sender,
        receiver: seats_receiver,
        pass: seats_pass,
    };
    Ok((taker, seats))
}

/// Makes the pass of `Seats`; the first pass is then the taker's.
fn open<T: Drop, N: Room>(
    sender: &RuledSender<T, Role<T>, Rule>,
    pass: &mut Pass<T, Role<T>>,
) -> Pass<T, Role<T>>
    requires room { N.room ≡ ruled_capacity (sends_on sender.now) }
    requires seated { IsSeatAt (sends_on sender.now) pass.old }
    requires first { view pass.old ≡ Opening }
    ensures seated { IsSeatAt (sends_on sender.now) pass.new }
    ensures made { IsSeatAt (sends_on sender.now) result }
    ensures taking { view pass.new ≡ Taking (ruled_capacity (sends_on sender.now)) [] }
    ensures seating { view result ≡ Seating (ruled_capacity (sends_on sender.now)) 0 [] }
{
    sender.another::<Opens<N>>(pass)
}
