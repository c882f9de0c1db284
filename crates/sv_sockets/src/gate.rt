//! The gate whose jobs run in threads of their own.
ghost use Rattle.std.specs.Prelude.{◌≡◌, Err, None, IfErr, is_ok};
ghost use Rattle.sv_out.specs.Faults.{HasCause};

use crate::links::{LinkTable, MOST_LINKS};
use crossbeam_channel::{Receiver, Sender, bounded};
use std::alloc::{AllocError, Global};
use std::rt::Clock;
use std::sync::atomic::{AtomicU64, Ordering};
use std::sync::{Arc, Wait};
use std::thread;
use std::time::Duration;
use sv_base::Side;
use sv_outside::{Gate, Job, JobWord};
use sv_standard::Teller;

/// What is told where no thread can be made for a link.
const NO_THREAD: &str =
    "no thread can be made for a further link: idle ones are closed; raise the limit of processes (ulimit -u)";

/// How many jobs of links are at work: from their start to their end, after which each has closed its link.
#[derive(Drop)]
pub struct LinksAtWork {
    count: Arc<AtomicU64>,
}

impl LinksAtWork {
    /// None is at work.
    pub fn new(alloc: Global) -> Result<LinksAtWork, AllocError> {
        Ok(LinksAtWork {
            count: Arc::new(alloc, AtomicU64::new(0))?,
        })
    }

    /// The same number, for another holder.
    pub fn another(&self) -> Result<LinksAtWork, AllocError> {
        Ok(LinksAtWork {
            count: Arc::try_clone(&self.count)?,
        })
    }

    /// How many are at work now.
    pub fn number(&self) -> u64 {
        self.count.load(Ordering::SeqCst)
    }

    /// Waits until none is at work, so many milliseconds at most: whether none is.
    pub fn wait_for_none<R: Clock>(&self, rt: &R, milliseconds: u32) -> bool {
        for _ in 0..milliseconds {
            if self.number() == 0 {
                return true;
            }
            thread::sleep(rt, Duration::from_millis(1));
        }
        self.number() == 0
    }

    /// Counts a job of a link.
    fn begun(&self, word: JobWord) -> Result<Mark, AllocError> {
        match word {
            JobWord::Link(_) => {
                let links = self.another()?;
                links.count.fetch_add(1, Ordering::SeqCst);
                Ok(Mark {
                    links: Some(links),
                    short: None,
                })
            }
            _ => Ok(Mark {
                links: None,
                short: None,
            }),
        }
    }
}

/// That a job is at work.
#[derive(Drop)]
struct Mark {
    links: Option<LinksAtWork>,
    /// The links among which it is one that has no thread of its own.
    short: Option<LinkTable>,
}

impl Mark {
    fn ended(self) {
        let Mark { links, short } = self;
        if let Some(links) = &links {
            links.count.fetch_sub(1, Ordering::SeqCst);
        }
        if let Some(table) = &short {
            table.end_short();
        }
    }
}

/// A job on the way to its thread.
#[derive(Drop)]
pub struct Errand<J: Drop> {
    job: J,
    mark: Mark,
}

/// Both ends of the way to the threads that are made at the start, for the links that come when no further thread can be
/// made.
pub struct SpareThreads<J: Drop> {
    to: Sender<Errand<J>>,
    from: Receiver<Errand<J>>,
}

impl<J: Drop> Drop for SpareThreads<J> {
    fn drop(self) {
        let Self { to: _, from: _ } = self;
    }
}

impl<J: Drop> SpareThreads<J> {
    /// The way to threads that aren't made yet.
    pub fn new(alloc: Global) -> Result<SpareThreads<J>, AllocError> {
        let (to, from) = bounded(alloc, MOST_LINKS)?;
        Ok(SpareThreads { to, from })
    }

    /// What one of these threads receives its jobs by, for `receive_and_work_all`.
    pub fn receiver(&self) -> Result<Receiver<Errand<J>>, AllocError> {
        self.from.clone()
    }
}

/// Starts a thread for each job, by a function that it was given, and sends the job there. Where none can be made, the job of a
/// link goes to one of the threads that were made at the start, and links that are idle are closed; any other job comes
/// back. It counts each job that comes back as a fault, and tells nothing.
pub struct OsGate<R, F, J: Drop> {
    rt: R,
    alloc: Global,
    work: LinksAtWork,
    links: LinkTable,
    teller: Teller<R>,
    spare: SpareThreads<J>,
    starts: F,
    faults: u64,
}

impl<R: Drop, F: Drop, J: Drop> Drop for OsGate<R, F, J> {
    fn drop(self) {
        let Self {
            rt: _,
            alloc: _,
            work: _,
            links: _,
            teller: _,
            spare: _,
            starts: _,
            faults: _,
        } = self;
    }
}

impl<R: Wait + Clock + Copy, F, J: Drop> OsGate<R, F, J> {
    /// A gate that starts threads by `starts`: whether a thread was made that calls `receive_and_work` over this end.
    pub fn new(
        rt: R,
        alloc: Global,
        work: LinksAtWork,
        links: LinkTable,
        teller: Teller<R>,
        spare: SpareThreads<J>,
        starts: F,
    ) -> OsGate<R, F, J>
        ensures starts { result.starts ≡ starts }
        ensures faults { result.faults ≡ 0 }
    {
        OsGate {
            rt,
            alloc,
            work,
            links,
            teller,
            spare,
            starts,
            faults: 0,
        }
    }
}

impl<R: Wait + Clock + Copy, F, J: Job> OsGate<R, F, J> {
    /// Gives the job back.
    fn refuse(&mut self, job: J) -> Result<(), J>
        ensures starts { self.new.starts ≡ self.old.starts }
        ensures back { result ≡ Err job }
        ensures cause { HasCause self.old.faults self.new.faults result }
    {
        self.faults = self.faults.saturating_add(1);
        Err(job)
    }

    /// That the job of a link is at work in a thread that was made at the start. The first of them is told.
    fn begun_short(&self, word: JobWord) -> Result<Mark, AllocError> {
        let table = self.links.another()?;
        let mut mark = self.work.begun(word)?;
        if table.begin_short() {
            self.teller.tell(self.alloc, NO_THREAD);
        }
        mark.short = Some(table);
        Ok(mark)
    }

    /// Sends the job of a link to a thread that was made at the start, and ends the links that may go.
    fn send_spare(&mut self, job: J) -> Result<(), J>
        ensures starts { self.new.starts ≡ self.old.starts }
        ensures back { IfErr result (λ same. same ≡ job) }
        ensures cause { HasCause self.old.faults self.new.faults result }
    {
        if !matches!(job.word(), JobWord::Link(_)) {
            return self.refuse(job);
        }
        self.links.close_idle(&self.rt);
        let Ok(mark) = self.begun_short(job.word()) else {
            return self.refuse(job);
        };
        match self.spare.to.try_send(&self.rt, Errand { job, mark }) {
            Ok(()) => Ok(()),
            Err(refused) => {
                let Errand { job, mark } = refused.into_inner();
                mark.ended();
                self.refuse(job)
            }
        }
    }
}

impl<R: Wait + Clock + Copy, J: Job, F: Fn(Receiver<Errand<J>>) -> bool> Gate<J>
    for OsGate<R, F, J> {
    ghost ready = { λ g. F.IsAlwaysCallable g.starts };

    ghost kept = { λ _. None };

    ghost faults = { λ g. g.faults };

    fn start(&mut self, job: J) -> Result<(), J> {
        let Ok((to, from)) = bounded(self.alloc, 1) else {
            return self.refuse(job);
        };
        if !(self.starts)(from) {
            return self.send_spare(job);
        }
        let Ok(mark) = self.work.begun(job.word()) else {
            return self.refuse(job);
        };
        match to.send(&self.rt, Errand { job, mark }) {
            Ok(()) => Ok(()),
            Err(refused) => {
                let Errand { job, mark } = refused.into_inner();
                mark.ended();
                self.refuse(job)
            }
        }
    }
}

/// What the thread of a job does: it receives the job, and does its work.
pub fn receive_and_work<J: Job, R: Wait>(rt: &R, from: &Receiver<Errand<J>>) {
    if let Ok(errand) = from.recv(rt) {
        work_off(rt, errand);
    }
}

/// What a thread does that is made at the start: it receives jobs, and does the work of each, one after the other.
pub fn receive_and_work_all<J: Job, R: Wait>(rt: &R, from: &Receiver<Errand<J>>) {
    for errand in from.iter(rt) {
        work_off(rt, errand);
    }
}

/// Does the work of a job, and lets it go.
fn work_off<J: Job, R: Wait>(rt: &R, errand: Errand<J>) {
    let Errand { job, mark } = errand;
    let mut job = job;
    job.work(rt);
    drop(job);
    mark.ended();
}
