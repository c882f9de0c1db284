//! The links of the daemon.
ghost use Rattle.std.specs.Prelude.{◌≡◌, ◌&&◌, ◌-◌, List, [], IfOk, OnOk, IsTrue, None, false};
ghost use Rattle.std.specs.Prelude.{if◌then◌else◌};
ghost use Rattle.std.specs.BTreeMap.{Updates};
ghost use Rattle.std.specs.Ordering.{nat_cmp};
ghost use Rattle.sv_links.specs.LinkBook.{Ending, LinkRecord, answered, ask_at, busy_links, ended};
ghost use Rattle.sv_links.specs.LinkBook.{fed, has_room, is_issued, is_next, is_sent, left_at};
ghost use Rattle.sv_links.specs.LinkBook.{more_given, more_is_due, open_links, opened, taken};
ghost use Rattle.sv_links.specs.LinkBook.{takes_piece};
ghost use Rattle.sv_links.specs.LinkBook.Ending.{Closed, Ended, Failed};

use crate::kept_link::KeptLink;
use std::alloc::{AllocError, Global};
use std::collections::BTreeMap;
use sv_base::ids::LinkId;
use sv_http::{Ask, Guard};

/// The most links that are open at once.
pub const LINK_LIMIT: usize = 64;

/// The links, each from its opening until it is over and its request in hand is answered.
///
/// After out of memory it stands for nothing.
#[derive(Drop)]
pub struct Links {
    /// By their numbers.
    pub(crate) kept: BTreeMap<u32, KeptLink>,
    /// How many of them are open.
    pub(crate) open_count: usize,
    /// How many were ever opened.
    pub(crate) opened: u32,
}

impl Links {
    ghost use Rattle.sv_links.specs.StandsFor.{StandsFor, follows, has_opened, may_bring};

    /// Before any link. It takes no memory.
    pub fn new(alloc: Global) -> Links
        ensures { StandsFor result [] }
    {
        Links {
            kept: BTreeMap::new(alloc),
            open_count: 0,
            opened: 0,
        }
    }

    /// Whether this is the number of the next link to be opened.
    pub fn is_next(&self, link: LinkId) -> bool
        ensures next { (book : List LinkRecord) → StandsFor self.now book
            → result ≡ is_next link book }
        ensures told { result ≡ follows self.now link }
    {
        link.0.checked_sub(1) == Some(self.opened)
    }

    /// Whether a link of this number was opened.
    pub fn is_issued(&self, link: LinkId) -> bool
        ensures issued { (book : List LinkRecord) → StandsFor self.now book
            → result ≡ is_issued link book }
        ensures told { result ≡ has_opened self.now link }
    {
        1 <= link.0 && link.0 <= self.opened
    }

    /// Whether a piece of this link may come: its last order is More, or it is over.
    pub fn takes_piece(&self, link: LinkId) -> bool
        ensures takes { (book : List LinkRecord) → StandsFor self.now book
            → IsTrue (is_issued link book) → result ≡ takes_piece link book }
        ensures told { result ≡ may_bring self.now link }
    {
        match self.kept.get(&link.0) {
            None => true,
            Some(kept) => kept.may_feed(),
        }
    }

    /// The next link is opened, and has this number: whether it is served, and gets More; else it gets Close.
    pub fn begin(&mut self, alloc: Global, link: LinkId, guard: Guard) -> Result<bool, AllocError>
        ensures kept { OnOk result ((book : List LinkRecord) → StandsFor self.old book
            → IsTrue (is_next link book) → StandsFor self.new (opened guard book)) }
        ensures served { IfOk result (λ served. (book : List LinkRecord) → StandsFor self.old book
            → served ≡ has_room book) }
    {
        self.opened = link.0;
        if self.open_count < LINK_LIMIT {
            self.kept.insert(link.0, KeptLink::new(alloc, guard))?;
            self.open_count += 1;
            Ok(true)
        } else {
            Ok(false)
        }
    }

    /// Takes the next bytes of a link, unless it is over.
    pub fn feed(&mut self, alloc: Global, link: LinkId, piece: &[u8]) -> Result<(), AllocError>
        ensures { OnOk result ((book : List LinkRecord) → StandsFor self.old book
            → StandsFor self.new (fed link piece.now book)) }
    {
        match self.kept.get_mut(&link.0) {
            None => Ok(()),
            Some(kept) => {
                kept.feed(alloc, piece)?;
                Ok(())
            }
        }
    }

    /// The client of a link ended.
    pub fn end(&mut self, link: LinkId)
        ensures { (book : List LinkRecord) → StandsFor self.old book
            → StandsFor self.new (ended link Ended book) }
    {
        self.stop(link);
    }

    /// An order of a link failed.
    pub fn lose(&mut self, link: LinkId)
        ensures { (book : List LinkRecord) → StandsFor self.old book
            → StandsFor self.new (ended link Failed book) }
    {
        self.stop(link);
    }

    /// A link is given Close, other than after an answer that closes it.
    pub fn close(&mut self, link: LinkId)
        ensures { (book : List LinkRecord) → StandsFor self.old book
            → StandsFor self.new (ended link Closed book) }
    {
        self.stop(link);
    }

    /// A link is over: a request in hand goes on, and its answer will be forgotten.
    fn stop(&mut self, link: LinkId)
        ensures { (ending : Ending) (book : List LinkRecord) → StandsFor self.old book
            → StandsFor self.new (ended link ending book) }
    {
        if let Some(kept) = self.kept.get_mut(&link.0) {
            let was_open = kept.end();
            let is_busy = kept.is_busy();
            self.settle(link, was_open, is_busy);
        }
    }

    /// One link less is open, if so; and this one is kept where it is busy.
    fn settle(&mut self, link: LinkId, is_less: bool, is_busy: bool)
        ensures opened { self.new.opened ≡ self.old.opened }
        ensures count { self.new.open_count
            ≡ (if is_less then self.old.open_count - 1 else self.old.open_count) }
        ensures busy { IsTrue is_busy → self.new.kept ≡ self.old.kept }
        ensures idle { is_busy ≡ false → Updates nat_cmp self.old.kept self.new.kept link.0 None }
    {
        if is_less {
            self.open_count = self.open_count.saturating_sub(1);
        }
        if !is_busy {
            self.kept.remove(&link.0);
        }
    }

    /// The next request of a link, which is then begun; none where the link is over, or a request of it is in hand.
    pub fn take_ask(&mut self, link: LinkId) -> Option<Ask>
        ensures kept { (book : List LinkRecord) → StandsFor self.old book
            → StandsFor self.new (taken link book) }
        ensures ask { (book : List LinkRecord) → StandsFor self.old book
            → result ≡ ask_at link book }
    {
        match self.kept.get_mut(&link.0) {
            None => None,
            Some(kept) => kept.take_ask(),
        }
    }

    /// The request in hand of a link is answered, and the answer closes the link or not: whether the answer is sent. Of a link
    /// that is over it is forgotten.
    pub fn answer(&mut self, link: LinkId, closes: bool) -> bool
        ensures kept { (book : List LinkRecord) → StandsFor self.old book
            → StandsFor self.new (answered link closes book) }
        ensures sent { (book : List LinkRecord) → StandsFor self.old book
            → result ≡ is_sent link book }
    {
        match self.kept.get_mut(&link.0) {
            None => false,
            Some(kept) => {
                let is_sent = kept.answer(closes);
                let is_busy = kept.is_busy();
                let is_less = closes_now(is_sent, closes);
                self.settle(link, is_less, is_busy);
                is_sent
            }
        }
    }

    /// Gives a link More where bytes came since the last, and nothing is left to answer: whether it does.
    pub fn give_more(&mut self, link: LinkId) -> bool
        ensures kept { (book : List LinkRecord) → StandsFor self.old book
            → StandsFor self.new (more_given link book) }
        ensures due { (book : List LinkRecord) → StandsFor self.old book
            → result ≡ more_is_due link book }
    {
        match self.kept.get_mut(&link.0) {
            None => false,
            Some(kept) => kept.give_more(),
        }
    }

    /// Whether no link is open or has a request in hand.
    pub fn are_idle(&self) -> bool
        ensures { (book : List LinkRecord) → StandsFor self.now book → IsTrue result
            → busy_links book ≡ [] }
    {
        self.kept.is_empty()
    }

    /// The links that are open or have a request in hand, in rising number.
    #[tactic(auto, using(crate::proofs::Listed::all_numbered, crate::proofs::Listed::numbers_more))]
    pub fn busy_links(&self, alloc: Global) -> Result<Vec<LinkId>, AllocError>
        ensures { IfOk result (λ links. (book : List LinkRecord) → StandsFor self.now book
            → links.items ≡ busy_links book) }
    {
        let mut links = Vec::new(alloc);
        for (number, _) in self.kept.iter() {
            links.push(LinkId(*number))?;
        }
        Ok(links)
    }

    /// How many requests of a link aren't begun; none where it is over.
    pub fn left(&self, link: LinkId) -> usize
        ensures { (book : List LinkRecord) → StandsFor self.now book → result ≡ left_at link book }
    {
        match self.kept.get(&link.0) {
            None => 0,
            Some(kept) => kept.left(),
        }
    }

    /// The links that are open, in rising number.
    #[tactic(auto, using(crate::proofs::Listed::all_listed, crate::proofs::Listed::ids_more, crate::proofs::Listed::ids_less))]
    pub fn open_links(&self, alloc: Global) -> Result<Vec<LinkId>, AllocError>
        ensures { IfOk result (λ links. (book : List LinkRecord) → StandsFor self.now book
            → links.items ≡ open_links book) }
    {
        let mut links = Vec::new(alloc);
        for (number, kept) in self.kept.iter() {
            if kept.is_open() {
                links.push(LinkId(*number))?;
            }
        }
        Ok(links)
    }
}

/// Whether an answer ends its link: it is sent, and closes.
fn closes_now(is_sent: bool, closes: bool) -> bool
    ensures { result ≡ (is_sent && closes) }
{
    is_sent && closes
}
