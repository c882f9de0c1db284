//! Two threads post, and a third takes.

ghost use Rattle.std.specs.Prelude.{◌≡◌, ◌≤◌, [], ◌∷◌, ◌++◌, IfOk, vec_capacity};
ghost use Rattle.sv_lane.specs.Ends.{IsSameSeat, IsSameTaker, posted, taken};
ghost use Rattle.sv_lane.specs.Order.{items_of};
ghost use Rattle.sv_lane.specs.Interleaving.{Interleaves};

use crate::lane;
use crate::parts::{finish_behind, post_all, take_some};
use std::alloc::{AllocError, Global};
use std::sync::Wait;
use std::thread::{Threads, join};

/// Two threads post these lists into a lane of this capacity, and a third takes so many items. The result is what was
/// taken and then what was left: the two lists put together. Waits for ever where more items are to be taken than there
/// are, or more are left than the channel holds. `AllocError` where memory is refused.
pub fn post_from_two<T: Drop + Send, R: Threads + Wait + Sync>(
    rt: &R,
    alloc: Global,
    capacity: u32,
    first: Vec<T>,
    second: Vec<T>,
    takes: usize,
) -> Result<Vec<T>, AllocError>
    requires capacity { 1 ≤ capacity }
    ensures whole { IfOk result (λ all. Interleaves (first.items ∷ second.items ∷ []) all.items) }
{
    let (taker, mut seats) = lane(alloc, capacity)?;
    let one = seats.seat()?;
    let two = seats.seat()?;
    let mut posters = Vec::with_capacity(alloc, 2)?;
    let room = Vec::with_capacity(alloc, takes)?;
    let ((one, two), (taker, all)) = join(
        rt,
        move ||
            ensures { (posted result.0 ≡ posted one ++ first.items) × IsSameSeat one result.0
                × (posted result.1 ≡ posted two ++ second.items) × IsSameSeat two result.1 }
        {
            join(
                rt,
                move ||
                    ensures { (posted result ≡ posted one ++ first.items) × IsSameSeat one result }
                { post_all(rt, one, first) },
                move ||
                    ensures { (posted result ≡ posted two ++ second.items) × IsSameSeat two result }
                { post_all(rt, two, second) },
            )
        },
        move ||
            requires { (takes ≤ vec_capacity room) × (room.items ≡ []) }
            ensures { (items_of (taken result.0) ≡ items_of (taken taker) ++ result.1.items)
                × IsSameTaker taker result.0 }
        { take_some(rt, taker, room, takes) },
    );
    posters.push_reserved(one);
    posters.push_reserved(two);
    finish_behind(rt, taker, seats, posters, all)
}
