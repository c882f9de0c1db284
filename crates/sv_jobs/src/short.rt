//! The console's job, and the ticker's.
ghost use Rattle.std.specs.Prelude.{◌≡◌, ◌++◌, replicate};
ghost use Rattle.sv_jobs.specs.Consoling.{Consoled};
ghost use Rattle.sv_jobs.specs.declared.notes.Note.TheVariants.{Tick};
ghost use Rattle.sv_lane.specs.Ends.{IsSameSeat, posted};
ghost use Rattle.sv_out.specs.Faults.{RisesWhere};
ghost use Rattle.sv_outside.specs.Told.{GrowsWhileTold};
ghost use Rattle.sv_outside.specs.declared.jobs.JobWord.TheVariants.{Console, Ticker};
ghost use Rattle.sv_outside.specs.declared.jobs.PumpEnd.TheVariants.{Ended, Failed};

use crate::{Note, console, ticker};
use std::alloc::Global;
use std::sync::Wait;
use sv_lane::Poster;
use sv_out::source::Source;
use sv_outside::{Clock, Job, JobWord, PumpEnd};

/// Reads the daemon's own standard input.
pub struct ConsoleJob<Q: Drop> {
    pub source: Q,
    pub poster: Poster<Note>,
    pub alloc: Global,
}

impl<Q: Drop> Drop for ConsoleJob<Q> {
    fn drop(self) {
        let Self {
            source: _,
            poster: _,
            alloc: _,
        } = self;
    }
}

/// Brings so many ticks.
pub struct TickerJob<C: Drop> {
    pub clock: C,
    pub turns: u64,
    pub poster: Poster<Note>,
}

impl<C: Drop> Drop for TickerJob<C> {
    fn drop(self) {
        let Self {
            clock: _,
            turns: _,
            poster: _,
        } = self;
    }
}

impl<Q: Source + Drop> Job for ConsoleJob<Q> {
    ghost names = { λ j. Console };

    ghost does = { λ j end k.
        Consoled end (Q.left j.source) (Q.left k.source) (posted j.poster) (posted k.poster)
        × RisesWhere (Q.faults j.source) (Q.faults k.source) (end ≡ Failed)
        × IsSameSeat j.poster k.poster };

    fn word(&self) -> JobWord {
        JobWord::Console
    }

    fn work<R: Wait>(&mut self, rt: &R) -> PumpEnd {
        console(rt, self.alloc, &mut self.source, &mut self.poster)
    }
}

impl<C: Clock + Drop> Job for TickerJob<C> {
    ghost names = { λ j. Ticker };

    ghost does = { λ j end k.
        GrowsWhileTold (C.paused j.clock) (C.paused k.clock) (replicate j.turns 1000)
        × (posted k.poster ≡ posted j.poster ++ replicate j.turns Tick)
        × IsSameSeat j.poster k.poster × (end ≡ Ended) };

    fn word(&self) -> JobWord {
        JobWord::Ticker
    }

    fn work<R: Wait>(&mut self, rt: &R) -> PumpEnd {
        ticker(rt, &mut self.clock, self.turns, &mut self.poster);
        PumpEnd::Ended
    }
}
