//! What the notes of a link change.
ghost use Rattle.std.specs.Prelude.{◌≡◌, ◌-◌, MatchOption, remove};
ghost use Rattle.sv_parts.specs.Links.Links.{ChangesAt, place_of};
ghost use Rattle.sv_parts.specs.Links.Noting.{Settles};

use crate::links::live_links::LiveLinks;
use sv_base::LinkId;

impl<K: Drop> LiveLinks<K> {
    /// The bytes of a Send were written.
    pub fn sent(&mut self, link: LinkId)
        ensures lives { MatchOption (place_of link.0 self.old.lives.items)
            (self.new.lives ≡ self.old.lives)
            (λ place. ChangesAt place Settles self.old.lives.items self.new.lives.items) }
        ensures same { self.new ≡ record self.old { lives = self.new.lives } }
    {
        if let Some(place) = self.place_of(link) {
            let life = &mut self.lives[place];
            life.unwritten = life.unwritten.saturating_sub(1);
        }
    }

    /// A link is over: its job ended, and nothing is kept of it.
    pub fn ended(&mut self, link: LinkId)
        ensures lives { MatchOption (place_of link.0 self.old.lives.items)
            (self.new.lives ≡ self.old.lives)
            (λ place. self.new.lives.items ≡ remove self.old.lives.items place) }
        ensures same { self.new ≡ record self.old { lives = self.new.lives } }
    {
        if let Some(place) = self.place_of(link) {
            self.lives.remove(place);
        }
    }
}
