//! What one thread does: it posts a list, or takes a number of items.

ghost use Rattle.std.specs.Prelude.{◌≡◌, ◌≤◌, [], ◌++◌, IfOk, map, vec_capacity};
ghost use Rattle.sv_lane.specs.Ends.{AreAllPosters, IsLaneOf, IsSameSeat, IsSameTaker, posted};
ghost use Rattle.sv_lane.specs.Ends.{taken};
ghost use Rattle.sv_lane.specs.Order.{items_of};
ghost use Rattle.sv_lane.specs.Interleaving.{Interleaves};

use crate::{Poster, Seats, Taker};
use std::alloc::AllocError;
use std::sync::Wait;

/// Posts these items, in their order.
pub(crate) fn post_all<T: Drop, R: Wait>(rt: &R, poster: Poster<T>, items: Vec<T>) -> Poster<T>
    ensures posted { posted result ≡ posted poster ++ items.items }
    ensures same { IsSameSeat poster result }
{
    let mut poster = poster;
    for item in items {
        poster.post(rt, item);
    }
    poster
}

/// Takes so many items, for which the list has room.
pub(crate) fn take_some<T: Drop, R: Wait>(
    rt: &R,
    taker: Taker<T>,
    room: Vec<T>,
    count: usize,
) -> (Taker<T>, Vec<T>)
    requires room { count ≤ vec_capacity room }
    requires none { room.items ≡ [] }
    ensures taken { items_of (taken result.0) ≡ items_of (taken taker) ++ result.1.items }
    ensures same { IsSameTaker taker result.0 }
{
    let mut taker = taker;
    let mut all = room;
    for _ in 0..count {
        all.push_reserved(taker.take(rt));
    }
    (taker, all)
}

/// Finishes the lane, and gives what was taken and after it what was left.
pub(crate) fn finish_behind<T: Drop, R: Wait>(
    rt: &R,
    taker: Taker<T>,
    seats: Seats<T>,
    posters: Vec<Poster<T>>,
    all: Vec<T>,
) -> Result<Vec<T>, AllocError>
    requires lane { IsLaneOf seats taker }
    requires posters { AreAllPosters seats posters.items }
    requires taken { items_of (taken taker) ≡ all.items }
    ensures { IfOk result (λ all. Interleaves (map posted posters.items) all.items) }
{
    let mut all = all;
    let mut rest = taker.finish(rt, seats, posters);
    all.append(&mut rest)?;
    Ok(all)
}
