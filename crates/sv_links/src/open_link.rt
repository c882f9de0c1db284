//! What is kept of a link that is open.
ghost use Rattle.std.specs.Prelude.{◌≡◌, ◌&&◌, ◌∷◌, [], Bool, List, IfSome, IfNone, IsTrue, OnOk};
ghost use Rattle.std.specs.Prelude.{drop, is_some, length, not, slice_get};
ghost use Rattle.sv_links.specs.LinkBook.{LinkRecord, asks, begins, gets_more, is_due, longer};
ghost use Rattle.sv_links.specs.LinkBook.{new_link};

use std::alloc::{AllocError, Global};
use std::collections::VecDeque;
use sv_http::{Ask, Guard, HttpReader};

/// A link that is open.
pub struct OpenLink {
    /// Who may ask, and the undecided bytes.
    pub(crate) reader: HttpReader,
    /// The requests that aren't begun.
    pub(crate) waiting: VecDeque<Ask>,
    /// Whether a piece came since its last More.
    pub(crate) is_fed: bool,
    /// Whether its last order is More.
    pub(crate) has_more: bool,
}

impl Drop for OpenLink {
    fn drop(self) {
        let Self {
            reader: _,
            waiting: _,
            is_fed: _,
            has_more: _,
        } = self;
    }
}

impl OpenLink {
    ghost use Rattle.sv_links.specs.StandsFor.{Reads};

    /// A link that begins, and has got More. It takes no memory.
    #[tactic(auto, using(crate::proofs::Readings::new_reads))]
    pub(crate) fn new(alloc: Global, guard: Guard) -> OpenLink
        ensures { Reads result (new_link guard) }
    {
        OpenLink {
            reader: HttpReader::new(alloc, guard),
            waiting: VecDeque::new(alloc),
            is_fed: false,
            has_more: true,
        }
    }

    /// Takes the next bytes.
    #[tactic(auto, using(crate::proofs::Readings::fed_reads))]
    pub(crate) fn feed(&mut self, alloc: Global, piece: &[u8]) -> Result<(), AllocError>
        ensures { OnOk result ((r : LinkRecord) → Reads self.old r
            → Reads self.new (longer piece.now r)) }
    {
        let asks = self.reader.feed(alloc, piece)?;
        self.waiting.append(&mut VecDeque::from_vec(asks))?;
        self.is_fed = true;
        Ok(())
    }

    /// The next request, which is then begun.
    #[tactic(auto, using(crate::proofs::Readings::popped_ask, crate::proofs::Readings::begun_reads))]
    pub(crate) fn take_ask(&mut self) -> Option<Ask>
        ensures ask { (r : LinkRecord) → Reads self.old r → result ≡ slice_get (asks r) r.begun }
        ensures begun { IfSome result (λ ask. (r : LinkRecord) → Reads self.old r
            → Reads self.new (begins r)) }
        ensures none { IfNone result ((r : LinkRecord) → Reads self.old r → Reads self.new r) }
    {
        self.waiting.pop_front()
    }

    /// How many requests aren't begun.
    pub(crate) fn left(&self) -> usize
        ensures { (r : LinkRecord) → Reads self.now r → result ≡ length (drop r.begun (asks r)) }
    {
        self.waiting.len()
    }

    /// Whether bytes came since the last More, and no request waits to be begun.
    pub(crate) fn has_nothing_left(&self) -> bool
        ensures { (r : LinkRecord) → Reads self.now r
            → result ≡ (r.is_fed && not (is_some (slice_get (asks r) r.begun))) }
    {
        self.is_fed && self.waiting.is_empty()
    }
}
