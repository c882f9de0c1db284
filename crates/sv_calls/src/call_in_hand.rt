//! A call in hand.
ghost use Rattle.std.specs.Prelude.{◌≡◌, IfOk, IfSome, None, OnOk, Some, length};
ghost use Rattle.std.specs.List.{slice_get};
ghost use Rattle.std.specs.Option.{option_copied, option_map};
ghost use Rattle.sv_calls.specs.CallBook.{acts, answer_of, are_answered, end_with, free_parts};
ghost use Rattle.sv_calls.specs.CallBook.{is_answered, is_set_back, new_call, new_several};
ghost use Rattle.sv_calls.specs.CallBook.{parts_of, request_of, takes_part, takes_request};
ghost use Rattle.sv_calls.specs.CallBook.{waiting_of};
ghost use Rattle.sv_multi.specs.Views.{part_view, parts_view};
ghost use Rattle.sv_xmlcall.specs.Trees.{reply_view};

use crate::answer::Answer;
use crate::setback::Setback;
use crate::several::Several;
use crate::task::Task;
use std::alloc::{AllocError, Global};
use sv_base::items::Items;
use sv_methods::{Request, Waiting};
use sv_multi::Part;
use sv_xmlcall::Answered;

/// A call in hand.
pub(crate) struct CallInHand {
    /// Whether its link closes after the reply.
    pub(crate) close: bool,
    /// Whether it is several calls in one.
    pub(crate) several: Option<Several>,
    /// What the call that was begun last still has to do.
    pub(crate) task: Option<Task>,
}

impl Drop for CallInHand {
    fn drop(self) {
        let Self {
            close: _,
            several: _,
            task: _,
        } = self;
    }
}

impl CallInHand {
    ghost use Rattle.sv_calls.specs.StandsFor.{answer_view, call_view};

    /// One call.
    pub(crate) fn new(close: bool) -> CallInHand
        ensures { call_view result ≡ new_call close }
    {
        CallInHand {
            close,
            several: None,
            task: None,
        }
    }

    /// Several calls in one.
    pub(crate) fn new_several(alloc: Global, close: bool, parts: Vec<Part>) -> CallInHand
        ensures { call_view result ≡ new_several close (parts_view parts.items) }
    {
        CallInHand {
            close,
            several: Some(Several::new(alloc, parts)),
            task: None,
        }
    }

    /// How many parts can be begun.
    pub(crate) fn parts_left(&self) -> usize
        ensures { result ≡ length (free_parts (Some (call_view self.now))) }
    {
        match (&self.task, &self.several) {
            (None, Some(several)) => several.parts.len(),
            _ => 0,
        }
    }

    /// The next part, which is then begun; none while a call isn't answered.
    pub(crate) fn take_part(&mut self) -> Option<Part>
        ensures part { option_map part_view result
            ≡ slice_get (free_parts (Some (call_view self.old))) 0 }
        ensures begun { Some (call_view self.new) ≡ takes_part (Some (call_view self.old)) }
    {
        if self.task.is_some() {
            return None;
        }
        match &mut self.several {
            None => None,
            Some(several) => several.take_part(),
        }
    }

    /// These requests are to be carried out.
    pub(crate) fn act(&mut self, requests: Items<Request>, waiting: Waiting)
        ensures { Some (call_view self.new)
            ≡ acts requests waiting (Some (call_view self.old)) }
    {
        self.task = Some(Task::new(requests, waiting));
    }

    /// The next request, which is then begun.
    pub(crate) fn take_request(&mut self) -> Option<Request>
        ensures request { result ≡ request_of (call_view self.old).task }
        ensures begun { Some (call_view self.new) ≡ takes_request (Some (call_view self.old)) }
    {
        match &mut self.task {
            None => None,
            Some(task) => task.take_request(),
        }
    }

    /// The request that was begun last went wrong.
    pub(crate) fn set_back(&mut self, alloc: Global, setback: Setback)
        ensures { Some (call_view self.new)
            ≡ is_set_back setback (Some (call_view self.old)) }
    {
        match &mut self.task {
            None => {}
            Some(task) => task.set_back(alloc, setback),
        }
    }

    /// What it waits for.
    pub(crate) fn waiting(&self) -> Option<&Waiting>
        ensures { option_copied result ≡ waiting_of (call_view self.now).task }
    {
        match &self.task {
            None => None,
            Some(task) => Some(&task.waiting),
        }
    }

    /// One of several calls in one is answered, if it is several.
    pub(crate) fn add(&mut self, alloc: Global, answered: Answered) -> Result<(), AllocError>
        ensures { OnOk result (IfSome self.old.several (λ several. Some (call_view self.new)
            ≡ is_answered (reply_view answered) (Some (call_view self.old)))) }
    {
        self.task = None;
        match &mut self.several {
            None => Ok(()),
            Some(several) => {
                several.add(alloc, answered)?;
                Ok(())
            }
        }
    }

    /// Whether it is several calls in one that were all answered.
    pub(crate) fn is_over(&self) -> bool
        ensures { result ≡ are_answered (call_view self.now).several (call_view self.now).task }
    {
        match (&self.several, &self.task) {
            (Some(several), None) => several.parts.len() == 0,
            _ => false,
        }
    }

    /// What several calls in one are answered.
    pub(crate) fn end(self) -> Result<Option<Answer>, AllocError>
        ensures { IfOk result (λ answer. option_map answer_view answer
            ≡ end_with (call_view self).close (call_view self).several) }
    {
        let CallInHand {
            close,
            several,
            task: _,
        } = self;
        match several {
            None => Ok(None),
            Some(several) => {
                let value = several.value()?;
                Ok(Some(Answer {
                    close,
                    answered: Answered::Value(value),
                }))
            }
        }
    }
}
