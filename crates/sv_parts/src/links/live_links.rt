//! The links that are open for the loop.
ghost use Rattle.std.specs.Prelude.{◌≡◌, []};
ghost use Rattle.sv_parts.specs.Links.Links.{is_lost, place_of, waiting_at};

use crate::links::life::LinkLife;
use std::alloc::{AllocError, Global};
use sv_base::LinkId;

/// An accepted link that waits for its first order.
#[derive(Drop)]
pub struct Waiting<K: Drop> {
    /// Its number.
    pub link: LinkId,
    /// The link itself.
    pub object: K,
}

/// The links, and how many there were. A link stands in one of the three lists, until it is over.
pub struct LiveLinks<K: Drop> {
    /// How many links were taken; this is the number of the last one.
    pub count: u32,
    /// Those that wait for their first order.
    pub waiting: Vec<Waiting<K>>,
    /// Those whose jobs were started.
    pub lives: Vec<LinkLife>,
    /// Those whose jobs came back: each order of them fails.
    pub lost: Vec<LinkId>,
}

impl<K: Drop> Drop for LiveLinks<K> {
    fn drop(self) {
        let Self {
            count: _,
            waiting: _,
            lives: _,
            lost: _,
        } = self;
    }
}

impl<K: Drop> LiveLinks<K> {
    ghost use Rattle.sv_parts.specs.Links.Opening.{Opens};

    /// No link yet.
    pub fn new(alloc: Global) -> LiveLinks<K>
        ensures count { result.count ≡ 0 }
        ensures waiting { result.waiting.items ≡ [] }
        ensures lives { result.lives.items ≡ [] }
        ensures lost { result.lost.items ≡ [] }
    {
        LiveLinks {
            count: 0,
            waiting: Vec::new(alloc),
            lives: Vec::new(alloc),
            lost: Vec::new(alloc),
        }
    }

    /// Takes an accepted link: it gets the next number. None is left after 4,294,967,295; the link is let go then.
    pub fn opened(&mut self, object: K) -> Result<Option<LinkId>, AllocError>
        ensures opens { Opens object self.old self.new result }
    {
        let Some(number) = self.count.checked_add(1) else {
            return Ok(None);
        };
        let link = LinkId(number);
        self.waiting.push(Waiting { link, object })?;
        self.count = number;
        Ok(Some(link))
    }

    /// Where a link whose job was started stands.
    pub(crate) fn place_of(&self, link: LinkId) -> Option<usize>
        ensures { result ≡ place_of link.0 self.now.lives.items }
    {
        self.lives.iter().position(|life| life.link.0 == link.0)
    }

    /// Where a link that waits for its first order stands.
    pub fn waiting_at(&self, link: LinkId) -> Option<usize>
        ensures { result ≡ waiting_at link.0 self.now.waiting.items }
    {
        self.waiting
            .iter()
            .position(|waiting| waiting.link.0 == link.0)
    }

    /// Whether the link's job came back.
    pub(crate) fn is_lost(&self, link: LinkId) -> bool
        ensures { result ≡ is_lost link.0 self.now.lost.items }
    {
        self.lost.iter().any(|lost| lost.0 == link.0)
    }
}
