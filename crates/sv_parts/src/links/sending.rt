//! The orders to send over a link and to read on.
ghost use Rattle.std.specs.Prelude.{◌≡◌};
ghost use Rattle.sv_parts.specs.Links.Sending.{Asks, Sends};

use crate::links::live_links::LiveLinks;
use std::alloc::AllocError;
use std::sync::Wait;
use sv_base::{Bytes, LinkId};
use sv_outside::Handed;

impl<K: Drop> LiveLinks<K> {
    /// Sends bytes over a link: one word to its lane. It fails where 16 Sends of it are unwritten, and its job is then
    /// told to end; and where an order of the link failed before. Of a link without a job nothing changes.
    pub fn send<R: Wait>(
        &mut self,
        rt: &R,
        link: LinkId,
        bytes: &Bytes,
    ) -> Result<Handed, AllocError>
        ensures sends { Sends link.0 bytes.now self.old.lost.items
            self.old.lives.items self.new.lives.items result }
        ensures same { self.new ≡ record self.old { lives = self.new.lives } }
    {
        if self.is_lost(link) {
            return Ok(Handed::Failed);
        }
        let Some(place) = self.place_of(link) else {
            return Ok(Handed::Done);
        };
        if self.lives[place].failed {
            return Ok(Handed::Failed);
        }
        if self.lives[place].is_full() {
            self.lives[place].fail(rt);
            return Ok(Handed::Failed);
        }
        let bytes = bytes.clone()?;
        self.lives[place].send(rt, bytes);
        Ok(Handed::Done)
    }

    /// Asks for one piece more of a link: one word to its lane. It fails where an order of the link failed before. Of a
    /// link without a job nothing changes.
    pub fn more<R: Wait>(&mut self, rt: &R, link: LinkId) -> Handed
        ensures asks { Asks link.0 self.old.lost.items
            self.old.lives.items self.new.lives.items result }
        ensures same { self.new ≡ record self.old { lives = self.new.lives } }
    {
        if self.is_lost(link) {
            return Handed::Failed;
        }
        let Some(place) = self.place_of(link) else {
            return Handed::Done;
        };
        if self.lives[place].failed {
            return Handed::Failed;
        }
        self.lives[place].more(rt);
        Handed::Done
    }
}
