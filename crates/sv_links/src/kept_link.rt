//! What is kept of a link that is open, or has a request in hand.
ghost use Rattle.std.specs.Prelude.{◌≡◌, OnOk, is_some, length};
ghost use Rattle.sv_links.specs.LinkBook.{Ending, LinkRecord, answers, ends, gets_more, hears};
ghost use Rattle.sv_links.specs.LinkBook.{is_busy, is_due, is_open, may_feed, new_link, next_ask};
ghost use Rattle.sv_links.specs.LinkBook.{sends, takes, waiting};

use crate::open_link::OpenLink;
use std::alloc::{AllocError, Global};
use sv_http::{Ask, Guard};

/// A link that is open, or has a request in hand.
pub struct KeptLink {
    /// What is read of it, until it is over.
    pub(crate) reading: Option<OpenLink>,
    /// Whether the request that was begun last waits for its answer.
    pub(crate) in_hand: bool,
}

impl Drop for KeptLink {
    fn drop(self) {
        let Self {
            reading: _,
            in_hand: _,
        } = self;
    }
}

impl KeptLink {
    ghost use Rattle.sv_links.specs.StandsFor.{Keeps, may_come};

    /// A link that begins, and has got More. It takes no memory.
    pub(crate) fn new(alloc: Global, guard: Guard) -> KeptLink
        ensures { Keeps result (new_link guard) }
    {
        KeptLink {
            reading: Some(OpenLink::new(alloc, guard)),
            in_hand: false,
        }
    }

    /// Whether it isn't over.
    pub(crate) fn is_open(&self) -> bool
        ensures read { result ≡ is_some self.now.reading }
        ensures not_over { (r : LinkRecord) → Keeps self.now r → result ≡ is_open r }
    {
        self.reading.is_some()
    }

    /// Whether it is open or has a request in hand.
    pub(crate) fn is_busy(&self) -> bool
        ensures { (r : LinkRecord) → Keeps self.now r → result ≡ is_busy r }
    {
        self.is_open() || self.in_hand
    }

    /// Whether a piece may come: its last order is More, or it is over.
    pub(crate) fn may_feed(&self) -> bool
        ensures fed { (r : LinkRecord) → Keeps self.now r → result ≡ may_feed r }
        ensures told { result ≡ may_come self.now.reading }
    {
        match &self.reading {
            None => true,
            Some(open) => open.has_more,
        }
    }

    /// Takes the next bytes, unless it is over.
    pub(crate) fn feed(&mut self, alloc: Global, piece: &[u8]) -> Result<(), AllocError>
        ensures { OnOk result ((r : LinkRecord) → Keeps self.old r
            → Keeps self.new (hears piece.now r)) }
    {
        match &mut self.reading {
            None => Ok(()),
            Some(open) => {
                open.feed(alloc, piece)?;
                Ok(())
            }
        }
    }

    /// It is over: whether it was open.
    pub(crate) fn end(&mut self) -> bool
        ensures kept { (ending : Ending) (r : LinkRecord) → Keeps self.old r
            → Keeps self.new (ends ending r) }
        ensures was_open { (r : LinkRecord) → Keeps self.old r → result ≡ is_open r }
    {
        self.reading.take().is_some()
    }

    /// The next request, which is then begun; none where it is over, or a request is in hand.
    pub(crate) fn take_ask(&mut self) -> Option<Ask>
        ensures kept { (r : LinkRecord) → Keeps self.old r → Keeps self.new (takes r) }
        ensures ask { (r : LinkRecord) → Keeps self.old r → result ≡ next_ask r }
    {
        match &mut self.reading {
            Some(open) if !self.in_hand => {
                let ask = open.take_ask();
                self.in_hand = ask.is_some();
                ask
            }
            _ => None,
        }
    }

    /// How many requests aren't begun; none where it is over.
    pub(crate) fn left(&self) -> usize
        ensures { (r : LinkRecord) → Keeps self.now r → result ≡ length (waiting r) }
    {
        match &self.reading {
            None => 0,
            Some(open) => open.left(),
        }
    }

    /// The request in hand is answered: whether the answer is sent.
    pub(crate) fn answer(&mut self, closes: bool) -> bool
        ensures kept { (r : LinkRecord) → Keeps self.old r → Keeps self.new (answers closes r) }
        ensures sent { (r : LinkRecord) → Keeps self.old r → result ≡ sends r }
    {
        match &mut self.reading {
            Some(open) if self.in_hand => {
                self.in_hand = false;
                if closes {
                    self.reading = None;
                } else {
                    open.has_more = false;
                }
                true
            }
            _ => {
                self.in_hand = false;
                false
            }
        }
    }

    /// Gives it More where this is due: whether it is.
    pub(crate) fn give_more(&mut self) -> bool
        ensures kept { (r : LinkRecord) → Keeps self.old r → Keeps self.new (gets_more r) }
        ensures due { (r : LinkRecord) → Keeps self.old r → result ≡ is_due r }
    {
        match &mut self.reading {
            Some(open) if !self.in_hand && open.has_nothing_left() => {
                open.is_fed = false;
                open.has_more = true;
                true
            }
            _ => false,
        }
    }
}
