//! The table of deadlines.
ghost use Rattle.std.specs.Prelude.{◌≡◌, ◌<◌, ◌≤◌, Some, None, IfOk, length, replicate, slice_set};
ghost use Rattle.sv_timers.specs.Deadlines.{earliest_of, due_from};
ghost use Rattle.sv_timers.specs.DeadlineTree.{IsRightTree, deadlines_in};
ghost use Rattle.sv_timers.specs.Looks.{LooksAt};

use crate::row::Rows;
use crate::tree::Tree;
use std::alloc::{AllocError, Global};
use std::marker::Model;
use sv_base::{ChildId, Deadline, Moment};

/// The deadlines of children, at most one each, which contracts see as a list: at the place of each child its deadline,
/// or none.
#[derive(Drop)]
pub struct Due {
    tree: Option<Tree>,
}

impl Model for Due {
    ghost use Rattle.std.specs.Prelude.{List, Option, ℕ};
    ghost use Rattle.sv_timers.specs.DeadlineTree.{IsRightTree, deadlines_in};

    ghost Value = { List (Option ℕ) };

    ghost view = { λ due. deadlines_in due.tree };

    ghost invariant = { λ due. IsRightTree due.tree };
}

impl Due {
    /// No deadlines, with room for all of so many children.
    pub fn new(alloc: Global, children: u32) -> Result<Due, AllocError>
        ensures { IfOk result (λ due. due ≡ replicate children None) }
    {
        let tree = if children == 0 {
            None
        } else {
            Some(Tree::new(alloc, children)?)
        };
        Ok(Due { tree })
    }

    /// Sets the deadline of the child in this place of the start order, or clears it. It takes no memory.
    pub fn put(&mut self, place: usize, deadline: Option<Deadline>)
        requires { place < length self.old }
        ensures { self.new ≡ slice_set self.old place deadline }
    {
        if let Some(tree) = &mut self.tree {
            tree.put(place as u32, deadline);
        }
    }

    /// Sets the deadline of this child, in the place of the one that it had. It takes no memory.
    pub fn set(&mut self, child: ChildId, at: Deadline)
        requires { child.0 < length self.old }
        ensures { self.new ≡ slice_set self.old child.0 (Some at) }
    {
        if let Some(tree) = &mut self.tree {
            tree.put(child.0, Some(at));
        }
    }

    /// Clears the deadline of this child. It takes no memory.
    pub fn clear(&mut self, child: ChildId)
        requires { child.0 < length self.old }
        ensures { self.new ≡ slice_set self.old child.0 None }
    {
        if let Some(tree) = &mut self.tree {
            tree.put(child.0, None);
        }
    }

    /// The earliest deadline, or `None` exactly where no child has one.
    pub fn earliest(&self) -> Option<Deadline>
        ensures { result ≡ earliest_of self.now }
    {
        match &self.tree {
            Some(tree) => tree.earliest(),
            None => None,
        }
    }

    /// Looks at each child whose deadline has come, in start order. It changes no deadline, and looks at no other child.
    pub fn settle<R: Rows>(&self, now: Moment, rows: &mut R)
        ensures { LooksAt R.room R.looked R.looks rows.old rows.new (due_from 0 now self.now) }
    {
        if let Some(tree) = &self.tree {
            tree.settle(0, now, rows);
        }
    }
}
