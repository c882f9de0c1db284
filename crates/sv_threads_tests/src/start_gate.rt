//! A gate that starts a thread for each job.
ghost use Rattle.std.specs.Prelude.{None};

use crossbeam_channel::{Receiver, bounded};
use std::alloc::Global;
use std::sync::Wait;
use sv_outside::{Gate, Job};

/// Starts each job in a thread of its own, by a function that starts one which receives its job.
#[derive(Drop)]
pub(crate) struct StartGate<R: Drop, F: Drop> {
    rt: R,
    alloc: Global,
    starts: F,
    faults: u64,
}

impl<R: Drop, F: Drop> StartGate<R, F> {
    ghost use Rattle.std.specs.Prelude.{◌≡◌};

    pub(crate) fn new(rt: R, alloc: Global, starts: F) -> StartGate<R, F>
        ensures { result.starts ≡ starts }
    {
        StartGate {
            rt,
            alloc,
            starts,
            faults: 0,
        }
    }
}

impl<R: Wait + Drop, J: Job, F: Fn(Receiver<J>) -> bool + Drop> Gate<J> for StartGate<R, F> {
    ghost ready = { λ g. F.IsAlwaysCallable g.starts };

    ghost kept = { λ g. None };

    ghost faults = { λ g. g.faults };

    fn start(&mut self, job: J) -> Result<(), J> {
        let Ok((to, from)) = bounded(self.alloc, 1) else {
            self.faults = self.faults.saturating_add(1);
            return Err(job);
        };
        if !(self.starts)(from) {
            self.faults = self.faults.saturating_add(1);
            return Err(job);
        }
        match to.send(&self.rt, job) {
            Ok(()) => Ok(()),
            Err(refused) => {
                self.faults = self.faults.saturating_add(1);
                Err(refused.into_inner())
            }
        }
    }
}

/// Receives a job, and does its work.
pub(crate) fn receive_and_work<J: Job, R: Wait>(rt: &R, from: &Receiver<J>) {
    if let Ok(mut job) = from.recv(rt) {
        job.work(rt);
    }
}
