//! The jobs of a run, handed to the gate.
ghost use Rattle.std.specs.Prelude.{◌≡◌, false};
ghost use Rattle.sv_out.specs.Faults.{RisesWhere};
ghost use Rattle.sv_parts.specs.Runs.JobWords.{Starts};
ghost use Rattle.sv_parts.specs.Runs.RunWords.{words_of_jobs};

use sv_jobs::{AnyJob, ErrPump, OutPump, StdinJob, WatchJob};
use sv_out::sink::Sink;
use sv_out::source::Source;
use sv_outside::{Clock, Gate, Job, Listen, Ready, Waiter, hand};

/// The jobs of one run.
#[derive(Drop)]
pub(crate) struct RunJobs<K: Drop, O: Drop, E: Drop, W: Drop> {
    pub(crate) stdin: StdinJob<K>,
    pub(crate) out: OutPump<O>,
    pub(crate) err: ErrPump<E>,
    pub(crate) watch: WatchJob<W>,
}

/// Hands the gate the jobs of a run, in their order, up to the first that comes back: whether all were kept.
#[tactic(auto, using(crate::proofs::RunsLemmas::Keeping::first_back, crate::proofs::RunsLemmas::Keeping::second_back, crate::proofs::RunsLemmas::Keeping::third_back, crate::proofs::RunsLemmas::Keeping::last_handed))]
pub(crate) fn start_jobs<
    K: Sink + Drop,
    O: Source + Drop,
    E: Source + Drop,
    W: Waiter + Drop,
    L: Listen + Drop,
    Q: Source + Drop,
    C: Clock + Drop,
    B: Job,
    G: Gate<AnyJob<K, O, E, W, L, Q, C, B>> + Drop,
>(gate: &mut Ready<AnyJob<K, O, E, W, L, Q, C, B>, G>, jobs: RunJobs<K, O, E, W>) -> bool
    ensures starts { Starts (words_of_jobs jobs) result gate.old.0 gate.new.0 }
    ensures cause { RisesWhere gate.old.1 gate.new.1 (result ≡ false) }
{
    let RunJobs {
        stdin,
        out,
        err,
        watch,
    } = jobs;
    if !hand(gate, AnyJob::Stdin(stdin)) {
        return false;
    }
    if !hand(gate, AnyJob::Out(out)) {
        return false;
    }
    if !hand(gate, AnyJob::Err(err)) {
        return false;
    }
    hand(gate, AnyJob::Watch(watch))
}
