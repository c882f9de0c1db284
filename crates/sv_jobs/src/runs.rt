//! The jobs of a run.
ghost use Rattle.std.specs.Prelude.{◌≡◌};
ghost use Rattle.sv_jobs.specs.Pumping.{Pumped};
ghost use Rattle.sv_jobs.specs.StdinWriting.{Wrote};
ghost use Rattle.sv_jobs.specs.Watching.{Watched};
ghost use Rattle.sv_lane.specs.Ends.{IsSameSeat, IsSameTaker, posted, taken};
ghost use Rattle.sv_base.specs.declared.state.Stream.TheVariants as streams;
ghost use Rattle.sv_out.specs.Faults.{RisesWhere};
ghost use Rattle.sv_outside.specs.declared.jobs.JobWord.TheVariants.{Pump, Stdin, Watch};
ghost use Rattle.sv_outside.specs.declared.jobs.PumpEnd.TheVariants.{Failed};

use crate::{Note, StdinWord, pump, watch, write_stdin};
use std::alloc::Global;
use std::sync::Wait;
use sv_base::{Run, Stream};
use sv_lane::{Poster, Taker};
use sv_out::sink::Sink;
use sv_out::source::Source;
use sv_outside::{Job, JobWord, PumpEnd, Waiter};

/// Reads a run's standard output.
pub struct OutPump<O: Drop> {
    pub run: Run,
    pub source: O,
    pub poster: Poster<Note>,
    pub alloc: Global,
}

impl<O: Drop> Drop for OutPump<O> {
    fn drop(self) {
        let Self {
            run: _,
            source: _,
            poster: _,
            alloc: _,
        } = self;
    }
}

/// Reads a run's standard error output.
pub struct ErrPump<E: Drop> {
    pub run: Run,
    pub source: E,
    pub poster: Poster<Note>,
    pub alloc: Global,
}

impl<E: Drop> Drop for ErrPump<E> {
    fn drop(self) {
        let Self {
            run: _,
            source: _,
            poster: _,
            alloc: _,
        } = self;
    }
}

/// Writes a run's standard input.
pub struct StdinJob<K: Drop> {
    pub run: Run,
    pub sink: K,
    pub poster: Poster<Note>,
    pub words: Taker<StdinWord>,
}

impl<K: Drop> Drop for StdinJob<K> {
    fn drop(self) {
        let Self {
            run: _,
            sink: _,
            poster: _,
            words: _,
        } = self;
    }
}

/// Waits for the end of a run's process.
pub struct WatchJob<W: Drop> {
    pub run: Run,
    pub waiter: W,
    pub poster: Poster<Note>,
}

impl<W: Drop> Drop for WatchJob<W> {
    fn drop(self) {
        let Self {
            run: _,
            waiter: _,
            poster: _,
        } = self;
    }
}

impl<O: Source + Drop> Job for OutPump<O> {
    ghost names = { λ j. Pump j.run streams.Out };

    ghost does = { λ j end k.
        Pumped j.run streams.Out end (O.left j.source) (O.left k.source) (posted j.poster) (posted k.poster)
        × RisesWhere (O.faults j.source) (O.faults k.source) (end ≡ Failed)
        × IsSameSeat j.poster k.poster };

    fn word(&self) -> JobWord {
        JobWord::Pump(self.run, Stream::Out)
    }

    fn work<R: Wait>(&mut self, rt: &R) -> PumpEnd {
        pump(
            rt,
            self.alloc,
            &mut self.source,
            self.run,
            Stream::Out,
            &mut self.poster,
        )
    }
}

impl<E: Source + Drop> Job for ErrPump<E> {
    ghost names = { λ j. Pump j.run streams.Err };

    ghost does = { λ j end k.
        Pumped j.run streams.Err end (E.left j.source) (E.left k.source) (posted j.poster) (posted k.poster)
        × RisesWhere (E.faults j.source) (E.faults k.source) (end ≡ Failed)
        × IsSameSeat j.poster k.poster };

    fn word(&self) -> JobWord {
        JobWord::Pump(self.run, Stream::Err)
    }

    fn work<R: Wait>(&mut self, rt: &R) -> PumpEnd {
        pump(
            rt,
            self.alloc,
            &mut self.source,
            self.run,
            Stream::Err,
            &mut self.poster,
        )
    }
}

impl<K: Sink + Drop> Job for StdinJob<K> {
    ghost names = { λ j. Stdin j.run };

    ghost does = { λ j end k.
        Wrote j.run end (K.written j.sink) (K.written k.sink) (taken j.words) (taken k.words)
        (posted j.poster) (posted k.poster)
        × RisesWhere (K.faults j.sink) (K.faults k.sink) (end ≡ Failed)
        × IsSameSeat j.poster k.poster × IsSameTaker j.words k.words };

    fn word(&self) -> JobWord {
        JobWord::Stdin(self.run)
    }

    fn work<R: Wait>(&mut self, rt: &R) -> PumpEnd {
        write_stdin(
            rt,
            &mut self.sink,
            self.run,
            &mut self.poster,
            &mut self.words,
        )
    }
}

impl<W: Waiter + Drop> Job for WatchJob<W> {
    ghost names = { λ j. Watch j.run };

    ghost does = { λ j end k.
        Watched W.answers j.run end j.waiter k.waiter (posted j.poster) (posted k.poster)
        × RisesWhere (W.faults j.waiter) (W.faults k.waiter) (end ≡ Failed)
        × IsSameSeat j.poster k.poster };

    fn word(&self) -> JobWord {
        JobWord::Watch(self.run)
    }

    fn work<R: Wait>(&mut self, rt: &R) -> PumpEnd {
        watch(rt, &mut self.waiter, self.run, &mut self.poster)
    }
}
