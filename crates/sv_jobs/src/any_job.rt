//! One enum of all jobs of a world.
ghost use Rattle.std.specs.Prelude.{◌≡◌};
ghost use Rattle.sv_outside.specs.declared.jobs.JobWord.TheVariants as words;
ghost use Rattle.sv_outside.specs.declared.jobs.PumpEnd.TheVariants.{Ended};
ghost use Rattle.sv_base.specs.declared.state.Stream.TheVariants as streams;

use crate::links::{LinkJob, LinksJob};
use crate::runs::{ErrPump, OutPump, StdinJob, WatchJob};
use crate::short::{ConsoleJob, TickerJob};
use std::sync::Wait;
use sv_out::sink::Sink;
use sv_out::source::Source;
use sv_outside::{Clock, Job, JobWord, Listen, PumpEnd, Waiter};

/// A job of a world with these parts: what takes a standard input, what gives the two outputs, what waits for an end,
/// what accepts links, the console, the clock, and the job of its board.
pub enum AnyJob<K: Drop, O: Drop, E: Drop, W: Drop, L: Listen + Drop, Q: Drop, C: Drop, B: Drop> {
    Stdin(StdinJob<K>),
    Out(OutPump<O>),
    Err(ErrPump<E>),
    Watch(WatchJob<W>),
    Links(LinksJob<L>),
    Link(LinkJob<L::Link>),
    Console(ConsoleJob<Q>),
    Ticker(TickerJob<C>),
    Board(B),
}

impl<K: Drop, O: Drop, E: Drop, W: Drop, L: Listen + Drop, Q: Drop, C: Drop, B: Drop> Drop
    for AnyJob<K, O, E, W, L, Q, C, B> {
    fn drop(self) {
        match self {
            Self::Stdin(_) => {}
            Self::Out(_) => {}
            Self::Err(_) => {}
            Self::Watch(_) => {}
            Self::Links(_) => {}
            Self::Link(_) => {}
            Self::Console(_) => {}
            Self::Ticker(_) => {}
            Self::Board(_) => {}
        }
    }
}

/// The job of a world without a board: it is about the board, and has nothing to do.
#[derive(Drop)]
pub struct NoBoard {}

impl Job for NoBoard {
    ghost names = { λ j. words.Board };

    ghost does = { λ j end k. end ≡ Ended };

    fn word(&self) -> JobWord {
        JobWord::Board
    }

    fn work<R: Wait>(&mut self, _rt: &R) -> PumpEnd {
        PumpEnd::Ended
    }
}

impl<
    K: Sink + Drop,
    O: Source + Drop,
    E: Source + Drop,
    W: Waiter + Drop,
    L: Listen + Drop,
    Q: Source + Drop,
    C: Clock + Drop,
    B: Job,
> Job for AnyJob<K, O, E, W, L, Q, C, B> {
    ghost use Rattle.sv_jobs.specs.declared.any_job.AnyJob.TheVariants as kinds;

    ghost names = { elim [
      | kinds.Stdin j ↦ words.Stdin j.run
      | kinds.Out j ↦ words.Pump j.run streams.Out
      | kinds.Err j ↦ words.Pump j.run streams.Err
      | kinds.Watch j ↦ words.Watch j.run
      | kinds.Links j ↦ words.Links j.side
      | kinds.Link j ↦ words.Link j.number
      | kinds.Console j ↦ words.Console
      | kinds.Ticker j ↦ words.Ticker
      | kinds.Board j ↦ B.names j
    ] };

    ghost does = { λ a end b. elim a [
      | kinds.Stdin j ↦ elim b [ kinds.Stdin k ↦ ⟦<StdinJob<K> as Job>⟧.does j end k | _ ↦ ⊥ ]
      | kinds.Out j ↦ elim b [ kinds.Out k ↦ ⟦<OutPump<O> as Job>⟧.does j end k | _ ↦ ⊥ ]
      | kinds.Err j ↦ elim b [ kinds.Err k ↦ ⟦<ErrPump<E> as Job>⟧.does j end k | _ ↦ ⊥ ]
      | kinds.Watch j ↦ elim b [ kinds.Watch k ↦ ⟦<WatchJob<W> as Job>⟧.does j end k | _ ↦ ⊥ ]
      | kinds.Links j ↦ elim b [ kinds.Links k ↦ ⟦<LinksJob<L> as Job>⟧.does j end k | _ ↦ ⊥ ]
      | kinds.Link j ↦ elim b [ kinds.Link k ↦ ⟦<LinkJob<L::Link> as Job>⟧.does j end k | _ ↦ ⊥ ]
      | kinds.Console j ↦ elim b [ kinds.Console k ↦ ⟦<ConsoleJob<Q> as Job>⟧.does j end k | _ ↦ ⊥ ]
      | kinds.Ticker j ↦ elim b [ kinds.Ticker k ↦ ⟦<TickerJob<C> as Job>⟧.does j end k | _ ↦ ⊥ ]
      | kinds.Board j ↦ elim b [ kinds.Board k ↦ B.does j end k | _ ↦ ⊥ ]
    ] };

    fn word(&self) -> JobWord {
        match self {
            AnyJob::Stdin(job) => job.word(),
            AnyJob::Out(job) => job.word(),
            AnyJob::Err(job) => job.word(),
            AnyJob::Watch(job) => job.word(),
            AnyJob::Links(job) => job.word(),
            AnyJob::Link(job) => job.word(),
            AnyJob::Console(job) => job.word(),
            AnyJob::Ticker(job) => job.word(),
            AnyJob::Board(job) => job.word(),
        }
    }

    fn work<R: Wait>(&mut self, rt: &R) -> PumpEnd {
        match self {
            AnyJob::Stdin(job) => job.work(rt),
            AnyJob::Out(job) => job.work(rt),
            AnyJob::Err(job) => job.work(rt),
            AnyJob::Watch(job) => job.work(rt),
            AnyJob::Links(job) => job.work(rt),
            AnyJob::Link(job) => job.work(rt),
            AnyJob::Console(job) => job.work(rt),
            AnyJob::Ticker(job) => job.work(rt),
            AnyJob::Board(job) => job.work(rt),
        }
    }
}
