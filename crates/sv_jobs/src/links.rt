//! The jobs of links: those that accept them, one for each side, and those that serve them, one for each link.
ghost use Rattle.std.specs.Prelude.{◌≡◌, ◌≤◌};
ghost use Rattle.sv_jobs.specs.Accepting.{Accepted};
ghost use Rattle.sv_jobs.specs.Serving.{Served};
ghost use Rattle.sv_lane.specs.Ends.{IsSameSeat, IsSameTaker, posted, taken};
ghost use Rattle.sv_out.specs.Faults.{RisesWhere};
ghost use Rattle.sv_outside.specs.declared.jobs.JobWord.TheVariants.{Link, Links};
ghost use Rattle.sv_outside.specs.declared.jobs.PumpEnd.TheVariants.{Ended, Failed};

use crate::{LinkWord, Note, accept_links, serve_link};
use std::alloc::Global;
use std::sync::Wait;
use sv_base::{LinkId, Side};
use sv_lane::{Poster, Taker};
use sv_outside::{Job, JobWord, Listen, PumpEnd};

/// Accepts the links of one side, so many times.
pub struct LinksJob<L: Listen + Drop> {
    pub side: Side,
    pub listen: L,
    pub turns: u64,
    pub poster: Poster<Note>,
    pub links: Poster<L::Link>,
}

impl<L: Listen + Drop> Drop for LinksJob<L> {
    fn drop(self) {
        let Self {
            side: _,
            listen: _,
            turns: _,
            poster: _,
            links: _,
        } = self;
    }
}

/// Reads and writes one link.
pub struct LinkJob<K: Drop> {
    pub number: LinkId,
    pub link: K,
    pub poster: Poster<Note>,
    pub words: Taker<LinkWord>,
    pub alloc: Global,
}

impl<K: Drop> Drop for LinkJob<K> {
    fn drop(self) {
        let Self {
            number: _,
            link: _,
            poster: _,
            words: _,
            alloc: _,
        } = self;
    }
}

impl<L: Listen + Drop> Job for LinksJob<L> {
    ghost names = { λ j. Links j.side };

    ghost does = { λ j end k.
        Accepted j.side j.turns (L.told j.listen) (L.told k.listen) (posted j.links) (posted k.links)
        (posted j.poster) (posted k.poster)
        × (L.faults j.listen ≤ L.faults k.listen)
        × IsSameSeat j.poster k.poster × IsSameSeat j.links k.links × (end ≡ Ended) };

    fn word(&self) -> JobWord {
        JobWord::Links(self.side)
    }

    fn work<R: Wait>(&mut self, rt: &R) -> PumpEnd {
        accept_links(
            rt,
            &mut self.listen,
            self.side,
            self.turns,
            &mut self.poster,
            &mut self.links,
        );
        PumpEnd::Ended
    }
}

impl<K: sv_out::Link + Drop> Job for LinkJob<K> {
    ghost names = { λ j. Link j.number };

    ghost does = { λ j end k.
        Served j.number end (K.told j.link) (K.told k.link) (taken j.words) (taken k.words)
        (posted j.poster) (posted k.poster)
        × RisesWhere (K.faults j.link) (K.faults k.link) (end ≡ Failed)
        × IsSameSeat j.poster k.poster × IsSameTaker j.words k.words };

    fn word(&self) -> JobWord {
        JobWord::Link(self.number)
    }

    fn work<R: Wait>(&mut self, rt: &R) -> PumpEnd {
        serve_link(
            rt,
            self.alloc,
            &mut self.link,
            self.number,
            &mut self.poster,
            &mut self.words,
        )
    }
}
