//! The calls in hand of the links.
ghost use Rattle.std.specs.Prelude.{◌≡◌, IfOk, OnOk};
ghost use Rattle.std.specs.Option.{option_copied, option_map};
ghost use Rattle.sv_calls.specs.CallBook.{CallBook, acting, answer_at, answered, begun, call_at};
ghost use Rattle.sv_calls.specs.CallBook.{end_at, ended, is_over, new_call, new_several, no_calls};
ghost use Rattle.sv_calls.specs.CallBook.{part_at, part_taken, parts_left, request_at};
ghost use Rattle.sv_calls.specs.CallBook.{request_taken, set_back, waiting_at};
ghost use Rattle.sv_multi.specs.Views.{part_view, parts_view};
ghost use Rattle.sv_xmlcall.specs.Trees.{reply_view};

use crate::answer::Answer;
use crate::call_in_hand::CallInHand;
use crate::setback::Setback;
use std::alloc::{AllocError, Global};
use std::collections::BTreeMap;
use sv_base::ids::LinkId;
use sv_base::items::Items;
use sv_methods::{Request, Waiting};
use sv_multi::Part;
use sv_xmlcall::Answered;

/// The calls in hand of the links, each from its begin to its answer.
///
/// After out of memory it stands for nothing.
#[derive(Drop)]
pub struct Calls {
    /// By the numbers of their links.
    pub(crate) calls: BTreeMap<u32, CallInHand>,
}

impl Calls {
    ghost use Rattle.sv_calls.specs.StandsFor.{StandsFor, answer_view};

    /// No call is in hand. It takes no memory.
    pub fn new(alloc: Global) -> Calls
        ensures { StandsFor result no_calls }
    {
        Calls {
            calls: BTreeMap::new(alloc),
        }
    }

    /// A call of a link is begun, after whose reply the link closes or not.
    pub fn begin(&mut self, link: LinkId, close: bool) -> Result<(), AllocError>
        ensures { OnOk result ((book : CallBook) → StandsFor self.old book
            → StandsFor self.new (begun link (new_call close) book)) }
    {
        self.calls.insert(link.0, CallInHand::new(close))?;
        Ok(())
    }

    /// Several calls in one of a link are begun, with these parts.
    pub fn begin_several(
        &mut self,
        alloc: Global,
        link: LinkId,
        close: bool,
        parts: Vec<Part>,
    ) -> Result<(), AllocError>
        ensures { OnOk result ((book : CallBook) → StandsFor self.old book
            → StandsFor self.new (begun link (new_several close (parts_view parts.items)) book)) }
    {
        let call = CallInHand::new_several(alloc, close, parts);
        self.calls.insert(link.0, call)?;
        Ok(())
    }

    /// How many parts of the call of a link can be begun; none while one of them isn't answered.
    pub fn parts_left(&self, link: LinkId) -> usize
        ensures { (book : CallBook) → StandsFor self.now book → result ≡ parts_left link book }
    {
        match self.calls.get(&link.0) {
            None => 0,
            Some(call) => call.parts_left(),
        }
    }

    /// The next part of the call of a link, which is then begun.
    pub fn take_part(&mut self, link: LinkId) -> Option<Part>
        ensures kept { (book : CallBook) → StandsFor self.old book
            → StandsFor self.new (part_taken link book) }
        ensures part { (book : CallBook) → StandsFor self.old book
            → option_map part_view result ≡ part_at link book }
    {
        match self.calls.get_mut(&link.0) {
            None => None,
            Some(call) => call.take_part(),
        }
    }

    /// These requests are to be carried out for the call of a link, and then it waits for this.
    pub fn act(&mut self, link: LinkId, requests: Items<Request>, waiting: Waiting)
        ensures { (book : CallBook) → StandsFor self.old book
            → StandsFor self.new (acting link requests waiting book) }
    {
        match self.calls.get_mut(&link.0) {
            None => {}
            Some(call) => call.act(requests, waiting),
        }
    }

    /// The next request of the call of a link, which is then begun.
    pub fn take_request(&mut self, link: LinkId) -> Option<Request>
        ensures kept { (book : CallBook) → StandsFor self.old book
            → StandsFor self.new (request_taken link book) }
        ensures request { (book : CallBook) → StandsFor self.old book
            → result ≡ request_at link book }
    {
        match self.calls.get_mut(&link.0) {
            None => None,
            Some(call) => call.take_request(),
        }
    }

    /// The request of the call of a link that was begun last went wrong.
    pub fn set_back(&mut self, alloc: Global, link: LinkId, setback: Setback)
        ensures { (book : CallBook) → StandsFor self.old book
            → StandsFor self.new (set_back link setback book) }
    {
        match self.calls.get_mut(&link.0) {
            None => {}
            Some(call) => call.set_back(alloc, setback),
        }
    }

    /// What the call of a link waits for, where it is a method that acts.
    pub fn waiting(&self, link: LinkId) -> Option<&Waiting>
        ensures { (book : CallBook) → StandsFor self.now book
            → option_copied result ≡ waiting_at link book }
    {
        match self.calls.get(&link.0) {
            None => None,
            Some(call) => call.waiting(),
        }
    }

    /// The call of a link that was begun last is answered. One call is then done with, and this is its answer; of several calls
    /// in one the answers are gathered first.
    pub fn answer(
        &mut self,
        alloc: Global,
        link: LinkId,
        reply: Answered,
    ) -> Result<Option<Answer>, AllocError>
        ensures kept { IfOk result (λ answer. (book : CallBook) → StandsFor self.old book
            → StandsFor self.new (answered link (reply_view reply) book)) }
        ensures answer { IfOk result (λ answer. (book : CallBook) → StandsFor self.old book
            → option_map answer_view answer ≡ answer_at link (reply_view reply) book) }
    {
        match self.calls.get_mut(&link.0) {
            None => Ok(None),
            Some(call) => {
                if call.several.is_some() {
                    call.add(alloc, reply)?;
                    return Ok(None);
                }
                let close = call.close;
                self.calls.remove(&link.0);
                Ok(Some(Answer {
                    close,
                    answered: reply,
                }))
            }
        }
    }

    /// The several calls in one of a link are done with, where all of them were answered: this is then their answer.
    #[tactic(auto, using(crate::proofs::Ended::over_ended, crate::proofs::Ended::others_stay))]
    pub fn finish(&mut self, link: LinkId) -> Result<Option<Answer>, AllocError>
        ensures kept { IfOk result (λ answer. (book : CallBook) → StandsFor self.old book
            → StandsFor self.new (ended link book)) }
        ensures answer { IfOk result (λ answer. (book : CallBook) → StandsFor self.old book
            → option_map answer_view answer ≡ end_at link book) }
    {
        if !self.is_over(link) {
            return Ok(None);
        }
        match self.calls.remove(&link.0) {
            None => Ok(None),
            Some(call) => {
                let answer = call.end()?;
                Ok(answer)
            }
        }
    }

    /// Whether the call of a link is several calls in one that were all answered.
    fn is_over(&self, link: LinkId) -> bool
        ensures { (book : CallBook) → StandsFor self.now book
            → result ≡ is_over (call_at link book) }
    {
        match self.calls.get(&link.0) {
            None => false,
            Some(call) => call.is_over(),
        }
    }
}
