//! Several calls in one.
ghost use Rattle.std.specs.Prelude.{◌≡◌, [], IfOk, OnOk, Some};
ghost use Rattle.std.specs.List.{slice_get};
ghost use Rattle.std.specs.Option.{option_map};
ghost use Rattle.sv_calls.specs.CallBook.{with_answer, part_begun, whole};
ghost use Rattle.sv_multi.specs.Views.{part_view, parts_view};
ghost use Rattle.sv_xmlcall.specs.Trees.{reply_view, view};

use std::alloc::{AllocError, Global};
use std::collections::VecDeque;
use sv_multi::{Gather, Part};
use sv_xmlcall::{Answered, Value};

/// Several calls in one.
#[derive(Drop)]
pub(crate) struct Several {
    /// What those before were answered.
    pub(crate) gather: Gather,
    /// The parts that aren't begun.
    pub(crate) parts: VecDeque<Part>,
}

impl Several {
    ghost use Rattle.sv_calls.specs.StandsFor.{several_view};

    /// These parts are to be answered. It takes no memory.
    pub(crate) fn new(alloc: Global, parts: Vec<Part>) -> Several
        ensures { several_view result ≡ record { results = []; parts = parts_view parts.items } }
    {
        Several {
            gather: Gather::new(alloc),
            parts: VecDeque::from_vec(parts),
        }
    }

    /// The next part, which is then begun.
    #[tactic(auto, using(crate::proofs::Parts::first_part, crate::proofs::Parts::other_parts))]
    pub(crate) fn take_part(&mut self) -> Option<Part>
        ensures part { option_map part_view result ≡ slice_get (several_view self.old).parts 0 }
        ensures begun { Some (several_view self.new) ≡ part_begun (Some (several_view self.old)) }
    {
        self.parts.pop_front()
    }

    /// A part is answered. Out of memory nothing is known of the answers.
    pub(crate) fn add(&mut self, alloc: Global, answered: Answered) -> Result<(), AllocError>
        ensures { OnOk result (several_view self.new
            ≡ with_answer (reply_view answered) (several_view self.old)) }
    {
        self.gather.add(alloc, answered)?;
        Ok(())
    }

    /// The value that the answers make.
    pub(crate) fn value(self) -> Result<Value, AllocError>
        ensures { IfOk result (λ value. view value ≡ whole (several_view self)) }
    {
        let Several { gather, parts: _ } = self;
        let value = gather.value()?;
        Ok(value)
    }
}
