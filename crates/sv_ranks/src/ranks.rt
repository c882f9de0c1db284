//! Places in the start order.
ghost use Rattle.std.specs.Prelude.{◌≡◌, ◌≤◌, [], IfOk, OnOk, length};
ghost use Rattle.std.specs.List.{prefix_len};
ghost use Rattle.std.specs.Ordering.{is_lt};
ghost use Rattle.sv_base.specs.Order.{start_order};
ghost use Rattle.sv_ranks.specs.Ranks.{placed, sorted_from};

use std::alloc::AllocError;
use sv_base::items::Items;
use sv_base::ranked::{Ranked, start_order};

/// How many of these, from the first on, start before this one.
pub fn place_for<T: Ranked>(done: &[T], one: &T) -> usize
    ensures value { result
        ≡ prefix_len (λ other. is_lt (start_order T.priority_of T.name_of other one.now)) done.now }
    ensures within { result ≤ length done.now }
{
    done.iter()
        .take_while(|other| start_order(*other, one).is_lt())
        .count()
}

/// Puts one more into its place among those that stand in start order.
#[tactic(auto, unfolding(crate::specs::Ranks::placed))]
pub fn place<T: Ranked + Drop>(done: &mut Vec<T>, one: T) -> Result<(), AllocError>
    ensures { OnOk result (done.new.items ≡ placed T.priority_of T.name_of done.old.items one) }
{
    let place = place_for(done.as_slice(), &one);
    done.insert(place, one)?;
    Ok(())
}

/// These in start order; of those that tie the later one comes first, as if each were put into its place in turn.
pub fn sorted<T: Ranked + Drop>(items: Items<T>) -> Result<Vec<T>, AllocError>
    ensures { IfOk result (λ sorted. sorted.items ≡ sorted_from T.priority_of T.name_of [] items) }
{
    let mut sorted = items.into_vec();
    sorted.reverse();
    sorted.sort_by(|one, other| start_order(one, other))?;
    Ok(sorted)
}
