//! What a method that acts still has to do.
ghost use Rattle.std.specs.Prelude.{◌≡◌, Some};
ghost use Rattle.sv_calls.specs.CallBook.{new_task, request_begun, request_of, task_set_back};

use crate::setback::Setback;
use std::alloc::Global;
use std::collections::VecDeque;
use std::mem;
use sv_base::items::Items;
use sv_methods::{Request, Waiting};

/// What a method that acts still has to do.
#[derive(Drop)]
pub(crate) struct Task {
    /// The requests that aren't begun.
    pub(crate) requests: VecDeque<Request>,
    /// What it waits for.
    pub(crate) waiting: Waiting,
}

impl Task {
    ghost use Rattle.sv_calls.specs.StandsFor.{task_view};

    /// These requests are to be carried out. It takes no memory.
    pub(crate) fn new(requests: Items<Request>, waiting: Waiting) -> Task
        ensures { task_view result ≡ new_task requests waiting }
    {
        Task {
            requests: VecDeque::from_vec(requests.into_vec()),
            waiting,
        }
    }

    /// The next request, which is then begun.
    pub(crate) fn take_request(&mut self) -> Option<Request>
        ensures request { result ≡ request_of (Some (task_view self.old)) }
        ensures begun { Some (task_view self.new) ≡ request_begun (Some (task_view self.old)) }
    {
        self.requests.pop_front()
    }

    /// The request that was begun last went wrong.
    pub(crate) fn set_back(&mut self, alloc: Global, setback: Setback)
        ensures { Some (task_view self.new) ≡ task_set_back setback (Some (task_view self.old)) }
    {
        let rows = mem::replace(&mut self.waiting.rows, Items::new(alloc));
        let mut rows = rows.into_vec();
        let place = rows
            .len()
            .saturating_sub(self.requests.len())
            .saturating_sub(1);
        setback.mark(rows.as_mut_slice(), place);
        self.waiting.rows = Items::from_vec(rows);
    }
}
