//! The order to close a link.
ghost use Rattle.std.specs.Prelude.{◌≡◌, MatchOption, remove};
ghost use Rattle.sv_parts.specs.Links.Closing.{Closes};
ghost use Rattle.sv_parts.specs.Links.Links.{waiting_at};

use crate::links::live_links::LiveLinks;
use std::sync::Wait;
use sv_base::LinkId;
use sv_outside::Handed;

impl<K: Drop> LiveLinks<K> {
    /// Closes a link: one word to its lane. A link for which this is the first order is let go. It fails where an order
    /// of the link failed before. Of another link nothing changes.
    pub fn close<R: Wait>(&mut self, rt: &R, link: LinkId) -> Handed
        ensures closes { Closes link.0 self.old.lost.items self.old.waiting.items
            self.new.waiting.items self.old.lives.items self.new.lives.items result }
        ensures same { self.new
            ≡ record self.old { lives = self.new.lives; waiting = self.new.waiting } }
    {
        if self.is_lost(link) {
            return Handed::Failed;
        }
        let Some(place) = self.place_of(link) else {
            self.drop_waiting(link);
            return Handed::Done;
        };
        if self.lives[place].failed {
            return Handed::Failed;
        }
        self.lives[place].close(rt);
        Handed::Done
    }

    /// Lets a link go that waits for its first order.
    fn drop_waiting(&mut self, link: LinkId)
        ensures waiting { MatchOption (waiting_at link.0 self.old.waiting.items)
            (self.new.waiting.items ≡ self.old.waiting.items)
            (λ place. self.new.waiting.items ≡ remove self.old.waiting.items place) }
        ensures same { self.new ≡ record self.old { waiting = self.new.waiting } }
    {
        if let Some(place) = self.waiting_at(link) {
            self.waiting.remove(place);
        }
    }
}
