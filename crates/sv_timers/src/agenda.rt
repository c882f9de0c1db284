//! The due in start order, one at a time, while their deadlines change.
ghost use Rattle.std.specs.Prelude.{◌≡◌, ◌<◌, ◌≤◌, None, IfOk, IsTrue, length, replicate, slice_set};
ghost use Rattle.sv_timers.specs.Deadlines.{due_from};
ghost use Rattle.sv_timers.specs.NextDue.{next_due};

use crate::due::Due;
use crate::list::DueList;
use crate::tree::is_due;
use std::alloc::{AllocError, Global};
use std::marker::Model;
use sv_base::{ChildId, Deadline, Moment};

/// Who is next.
#[derive(Clone, Copy)]
pub struct Next {
    /// The first child from the place on that is due, if there is one.
    pub child: Option<ChildId>,
    /// How many children were looked at to find it.
    pub looks: usize,
}

/// The deadlines of children, at most one each, which contracts see as a list. Those that are due are told one after the
/// other in start order, from one settle; only where a deadline changed that comes later is there another settle.
pub struct Agenda {
    due: Due,
    list: DueList,
}

impl Drop for Agenda {
    fn drop(self) {
        let Self { due: _, list: _ } = self;
    }
}

impl Model for Agenda {
    ghost use Rattle.std.specs.Prelude.{List, Option, ℕ};
    ghost use Rattle.sv_timers.specs.NextDue.{IsList};

    ghost Value = { List (Option ℕ) };

    ghost view = { λ agenda. agenda.due };

    ghost invariant = { λ agenda. IsList agenda.list agenda.due };
}

impl Agenda {
    /// No deadlines, with room for all of so many children.
    pub fn new(alloc: Global, children: u32) -> Result<Agenda, AllocError>
        ensures { IfOk result (λ agenda. agenda ≡ replicate children None) }
    {
        Ok(Agenda {
            due: Due::new(alloc, children)?,
            list: DueList::new(alloc, children)?,
        })
    }

    /// Sets the deadline of the child in this place of the start order, or clears it. It takes no memory.
    pub fn put(&mut self, place: usize, deadline: Option<Deadline>)
        requires { place < length self.old }
        ensures { self.new ≡ slice_set self.old place deadline }
    {
        self.list.change(place);
        self.due.put(place, deadline);
    }

    /// Whether nobody is due, which the earliest deadline tells. It looks at no child.
    pub fn none_due(&self, now: Moment) -> bool
        ensures { IsTrue result → next_due 0 now self.now ≡ None }
    {
        !is_due(self.due.earliest(), now)
    }

    /// The first child from this place on that is due. It takes no memory.
    pub fn next(&mut self, from: usize, now: Moment) -> Next
        ensures kept { self.new ≡ self.old }
        ensures next { result.child ≡ next_due from now self.old }
        ensures looks { result.looks ≤ length (due_from 0 now self.old) }
    {
        let looks = self.list.settle(&self.due, from, now);
        let child = self.list.tell(from, now);
        Next { child, looks }
    }
}
