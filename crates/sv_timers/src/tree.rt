//! The deadlines of children in a row as a tree, in which each fork knows the earliest below it.
ghost use Rattle.std.specs.Prelude.{◌≡◌, ◌≤◌, ◌<◌, ◌+◌, ◌^◌, None, IfOk, IsTrue, length, replicate};
ghost use Rattle.std.specs.Prelude.{slice_set};
ghost use Rattle.sv_timers.specs.Deadlines.{earliest_of, earlier, is_due, due_from};
ghost use Rattle.sv_timers.specs.DeadlineTree.{deadlines, IsRight};
ghost use Rattle.sv_timers.specs.Looks.{LooksAt};

use crate::row::Rows;
use std::alloc::{AllocError, Global};
use sv_base::{ChildId, Deadline, Moment};

/// The deadlines of one child or of several in a row.
#[derive(Drop)]
pub(crate) enum Tree {
    Leaf(Option<Deadline>),
    Fork {
        /// The earliest of both sides.
        earliest: Option<Deadline>,
        /// How many children the first side has.
        count: u32,
        first: Box<Tree>,
        second: Box<Tree>,
    },
}

impl Tree {
    /// No deadlines of so many children.
    #[tactic(auto, using(crate::proofs::DueLaws::new_earliest, crate::proofs::DueLaws::new_deadlines, crate::proofs::DueLaws::new_length))]
    pub(crate) fn new(alloc: Global, children: u32) -> Result<Tree, AllocError>
        requires { 1 ≤ children }
        ensures right { IfOk result (λ t. IsRight t) }
        ensures deadlines { IfOk result (λ t. deadlines t ≡ replicate children None) }
    {
        if children == 1 {
            return Ok(Tree::Leaf(None));
        }
        let count = children / 2;
        Ok(Tree::Fork {
            earliest: None,
            count,
            first: Box::new(alloc, Tree::new(alloc, count)?)?,
            second: Box::new(alloc, Tree::new(alloc, children - count)?)?,
        })
    }

    /// The earliest deadline.
    pub(crate) fn earliest(&self) -> Option<Deadline>
        requires { IsRight self.now }
        ensures { result ≡ earliest_of (deadlines self.now) }
    {
        match self {
            Tree::Leaf(deadline) => *deadline,
            Tree::Fork { earliest, .. } => *earliest,
        }
    }

    /// Sets or clears the deadline at this place.
    #[tactic(auto, using(crate::proofs::DueLaws::earlier_both, crate::proofs::DueLaws::put_first, crate::proofs::DueLaws::put_second, crate::proofs::DueLaws::put_length))]
    pub(crate) fn put(&mut self, place: u32, deadline: Option<Deadline>)
        requires right { IsRight self.old }
        requires within { place < length (deadlines self.old) }
        ensures right { IsRight self.new }
        ensures deadlines { deadlines self.new ≡ slice_set (deadlines self.old) place deadline }
    {
        match self {
            Tree::Leaf(own) => *own = deadline,
            Tree::Fork {
                earliest,
                count,
                first,
                second,
            } => {
                if place < *count {
                    first.put(place, deadline);
                    *earliest = earlier(first.earliest(), second.earliest());
                } else {
                    second.put(place - *count, deadline);
                    *earliest = earlier(first.earliest(), second.earliest());
                }
            }
        }
    }

    /// Looks at the children that are due, of which the first of this tree has this number.
    pub(crate) fn settle<R: Rows>(&self, from: u32, now: Moment, rows: &mut R)
        requires right { IsRight self.now }
        requires numbers { from + length (deadlines self.now) ≤ 2 ^ 32 }
        ensures { LooksAt R.room R.looked R.looks rows.old rows.new
            (due_from from now (deadlines self.now)) }
    {
        if !is_due(self.earliest(), now) {
            return;
        }
        match self {
            Tree::Leaf(_) => rows.look(ChildId(from)),
            Tree::Fork {
                count,
                first,
                second,
                ..
            } => {
                first.settle(from, now, rows);
                second.settle(from + *count, now, rows);
            }
        }
    }
}

/// The earlier of the two; one that isn't there is no deadline.
fn earlier(one: Option<Deadline>, other: Option<Deadline>) -> Option<Deadline>
    ensures { result ≡ earlier one other }
{
    match (one, other) {
        (Some(one), Some(other)) => Some(one.at_most(other)),
        (Some(one), None) => Some(one),
        (None, other) => other,
    }
}

/// Whether this deadline is there and has come.
pub(crate) fn is_due(deadline: Option<Deadline>, now: Moment) -> bool
    ensures { result ≡ is_due deadline now }
{
    match deadline {
        Some(deadline) => deadline.is_reached(now),
        None => false,
    }
}
