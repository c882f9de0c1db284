//! How the gate is handed the jobs that a world of threads begins with.
ghost use Rattle.std.specs.Prelude.{is_some};
ghost use Rattle.sv_threads.specs.FirstJobs.Handing.{Hands, HandsLinks};
ghost use Rattle.sv_outside.specs.declared.jobs.JobWord.TheVariants.{Console, Ticker};

use sv_base::Side;
use sv_jobs::{AnyJob, ConsoleJob, LinksJob, Note, TickerJob};
use sv_lane::Poster;
use sv_out::sink::Sink;
use sv_out::source::Source;
use sv_outside::{Clock, Gate, Job, Listen, Ready, Waiter, hand};

/// Hands the gate the job of the console.
pub fn hand_console<
    K: Sink + Drop,
    O: Source + Drop,
    E: Source + Drop,
    W: Waiter + Drop,
    L: Listen + Drop,
    Q: Source + Drop,
    C: Clock + Drop,
    B: Job,
    G: Gate<AnyJob<K, O, E, W, L, Q, C, B>> + Drop,
>(gate: &mut Ready<AnyJob<K, O, E, W, L, Q, C, B>, G>, job: ConsoleJob<Q>)
    ensures { Hands Console gate.old.0 gate.old.1 gate.new.0 gate.new.1 }
{
    hand(gate, AnyJob::Console(job));
}

/// Hands the gate the job of the ticker.
pub fn hand_ticker<
    K: Sink + Drop,
    O: Source + Drop,
    E: Source + Drop,
    W: Waiter + Drop,
    L: Listen + Drop,
    Q: Source + Drop,
    C: Clock + Drop,
    B: Job,
    G: Gate<AnyJob<K, O, E, W, L, Q, C, B>> + Drop,
>(gate: &mut Ready<AnyJob<K, O, E, W, L, Q, C, B>, G>, job: TickerJob<C>)
    ensures { Hands Ticker gate.old.0 gate.old.1 gate.new.0 gate.new.1 }
{
    hand(gate, AnyJob::Ticker(job));
}

/// Hands the gate the job that accepts the links of a side, where there is a server.
pub fn hand_links<
    K: Sink + Drop,
    O: Source + Drop,
    E: Source + Drop,
    W: Waiter + Drop,
    L: Listen + Drop,
    Q: Source + Drop,
    C: Clock + Drop,
    B: Job,
    G: Gate<AnyJob<K, O, E, W, L, Q, C, B>> + Drop,
>(
    gate: &mut Ready<AnyJob<K, O, E, W, L, Q, C, B>, G>,
    side: Side,
    listen: Option<L>,
    poster: Poster<Note>,
    links: Poster<L::Link>,
)
    ensures { HandsLinks side (is_some listen) gate.old.0 gate.old.1 gate.new.0 gate.new.1 }
{
    if let Some(listen) = listen {
        hand(
            gate,
            AnyJob::Links(LinksJob {
                side,
                listen,
                turns: u64::MAX,
                poster,
                links,
            }),
        );
    }
}
