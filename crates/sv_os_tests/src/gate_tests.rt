//! Jobs in threads of their own.

use crate::checks::check;
use crate::listen_tests::{table_of, teller_of};
use crossbeam_channel::{Receiver, Sender, bounded};
use std::alloc::Global;
use std::process::Abort;
use std::rt::Clock;
use std::sync::Wait;
use std::thread;
use std::thread::Threads;
use sv_base::LinkId;
use sv_outside::{Gate, Job, JobWord, PumpEnd, Ready, hand};
use sv_sockets::{
    Errand, LinksAtWork, OsGate, SpareThreads, receive_and_work, receive_and_work_all,
};

/// Starts these jobs in threads, by one gate, which counts the links that are at work.
pub(crate) fn start_in_threads<
    R: Abort + Threads + Wait + Clock + Copy + Send + 'static,
    J: Job + Send + 'static,
>(rt: R, alloc: Global, links: &LinksAtWork, jobs: Vec<J>) {
    let gate = OsGate::new(
        rt,
        alloc,
        another(&rt, links),
        table_of(&rt, alloc),
        teller_of(rt, alloc),
        spare_of(&rt, alloc),
        move |from: Receiver<Errand<J>>| {
            thread::spawn(&rt, move || receive_and_work(&rt, &from)).is_ok()
        },
    );
    start_all(&rt, gate, jobs);
}

/// The way to threads that nobody makes.
fn spare_of<J: Drop>(rt: &impl Abort, alloc: Global) -> SpareThreads<J> {
    SpareThreads::new(alloc).expect(rt, "ample memory")
}

/// Starts these jobs, all of which the gate keeps.
fn start_all<J: Job, G: Gate<J> + Drop>(rt: &impl Abort, gate: G, jobs: Vec<J>)
    requires { G.ready gate }
{
    let mut gate = Ready::new(gate);
    for job in jobs {
        check(rt, hand(&mut gate, job));
    }
}

/// A job that waits to be let go, and then tells its number.
#[derive(Drop)]
struct Waits {
    word: JobWord,
    go: Receiver<()>,
    done: Sender<u32>,
    number: u32,
}

impl Job for Waits {
    ghost use Rattle.std.specs.Prelude.{◌≡◌};
    ghost use Rattle.sv_outside.specs.declared.jobs.PumpEnd.TheVariants.{Ended};

    ghost names = { λ j. j.word };

    ghost does = { λ j end k. end ≡ Ended };

    fn word(&self) -> JobWord {
        self.word
    }

    fn work<R: Wait>(&mut self, rt: &R) -> PumpEnd {
        let _ = self.go.recv(rt);
        let _ = self.done.send(rt, self.number);
        PumpEnd::Ended
    }
}

/// Both ends of a channel.
#[derive(Drop)]
struct Ends<T: Drop> {
    to: Sender<T>,
    from: Receiver<T>,
}

/// Both ends of a channel with room for two.
fn ends_of<T: Drop>(rt: &impl Abort, alloc: Global) -> Ends<T> {
    let (to, from) = bounded(alloc, 2).expect(rt, "ample memory");
    Ends { to, from }
}

/// What lets jobs go, and what they tell.
#[derive(Drop)]
struct Talk {
    go: Ends<()>,
    done: Ends<u32>,
}

fn talk_of(rt: &impl Abort, alloc: Global) -> Talk {
    Talk {
        go: ends_of(rt, alloc),
        done: ends_of(rt, alloc),
    }
}

/// A further receiver of these ends.
fn receiver_of<T: Drop>(rt: &impl Abort, ends: &Ends<T>) -> Receiver<T> {
    ends.from.clone().expect(rt, "ample memory")
}

/// A further sender of these ends.
fn sender_of<T: Drop>(rt: &impl Abort, ends: &Ends<T>) -> Sender<T> {
    ends.to.clone().expect(rt, "ample memory")
}

/// A job about this with this number, which waits to be let go, and tells.
fn waiting_job(rt: &impl Abort, word: JobWord, number: u32, talk: &Talk) -> Waits {
    Waits {
        word,
        go: receiver_of(rt, &talk.go),
        done: sender_of(rt, &talk.done),
        number,
    }
}

/// The jobs of a link and of the console, with the numbers 3 and 4.
fn two_jobs(rt: &impl Abort, alloc: Global, talk: &Talk) -> Vec<Waits> {
    let mut jobs = Vec::new(alloc);
    add(
        rt,
        &mut jobs,
        waiting_job(rt, JobWord::Link(LinkId(1)), 3, talk),
    );
    add(rt, &mut jobs, waiting_job(rt, JobWord::Console, 4, talk));
    jobs
}

/// Adds a job.
pub(crate) fn add<J: Drop>(rt: &impl Abort, jobs: &mut Vec<J>, job: J) {
    jobs.push(job).expect(rt, "ample memory");
}

/// Lets two jobs go, and hears the numbers 3 and 4.
fn let_go<R: Abort + Wait>(rt: &R, talk: &Talk) {
    for _ in 0..2 {
        check(rt, talk.go.to.send(rt, ()).is_ok());
    }
    let first = talk.done.from.recv(rt).expect(rt, "a job is done");
    let second = talk.done.from.recv(rt).expect(rt, "the other job is done");
    check(rt, (first, second) == (3, 4) || (first, second) == (4, 3));
}

/// None of the jobs of links is at work yet.
pub(crate) fn links_of(rt: &impl Abort, alloc: Global) -> LinksAtWork {
    LinksAtWork::new(alloc).expect(rt, "ample memory")
}

/// Two jobs, of which one is that of a link, wait to be let go, and end.
fn two_jobs_run<R: Abort + Threads + Wait + Clock + Copy + Send + 'static>(
    rt: R,
    alloc: Global,
    links: &LinksAtWork,
) {
    let talk = talk_of(&rt, alloc);
    start_in_threads(rt, alloc, links, two_jobs(&rt, alloc, &talk));
    check(&rt, links.number() == 1 && !links.wait_for_none(&rt, 2));
    let_go(&rt, &talk);
}

#[test]
fn jobs_run_in_threads(rt: HostRuntime) {
    let links = links_of(&rt, rt.alloc());
    two_jobs_run(rt, rt.alloc(), &links);
    check(&rt, links.wait_for_none(&rt, 10_000));
}

/// The job of the console with the number 7.
fn seventh_job(rt: &impl Abort, alloc: Global) -> Waits {
    waiting_job(rt, JobWord::Console, 7, &talk_of(rt, alloc))
}

/// Whether the job with the number 7 came back.
fn came_back(answer: &Result<(), Waits>) -> bool {
    match answer {
        Ok(()) => false,
        Err(job) => job.number == 7,
    }
}

/// Starts this job by a gate that makes no thread, but has these ones.
fn start_without<R: Abort + Wait + Clock + Copy>(
    rt: R,
    alloc: Global,
    work: LinksAtWork,
    spare: SpareThreads<Waits>,
    job: Waits,
) -> Result<(), Waits> {
    let mut gate = OsGate::new(
        rt,
        alloc,
        work,
        table_of(&rt, alloc),
        teller_of(rt, alloc),
        spare,
        |from: Receiver<Errand<Waits>>| {
            drop(from);
            false
        },
    );
    gate.start(job)
}

/// A gate that starts no thread gives a job back that isn't of a link.
fn gives_back<R: Abort + Wait + Clock + Copy>(rt: R, alloc: Global, others: LinksAtWork) {
    let spare = spare_of(&rt, alloc);
    let answer = start_without(rt, alloc, others, spare, seventh_job(&rt, alloc));
    check(&rt, came_back(&answer));
}

/// The job of a link is done by a thread that was made before.
fn is_done_by_spare<R: Abort + Threads + Wait + Clock + Copy + Send + 'static>(
    rt: R,
    alloc: Global,
    work: LinksAtWork,
) {
    let spare = spare_of(&rt, alloc);
    let from = spare.receiver().expect(&rt, "ample memory");
    let thread = thread::spawn(&rt, move || receive_and_work_all(&rt, &from));
    check(&rt, thread.is_ok());
    let talk = talk_of(&rt, alloc);
    let job = waiting_job(&rt, JobWord::Link(LinkId(1)), 5, &talk);
    check(&rt, start_without(rt, alloc, work, spare, job).is_ok());
    check(&rt, talk.go.to.send(&rt, ()).is_ok());
    check(&rt, matches!(talk.done.from.recv(&rt), Ok(5)));
}

#[test]
fn a_link_without_a_thread_gets_a_spare_one(rt: HostRuntime) {
    let links = links_of(&rt, rt.alloc());
    is_done_by_spare(rt, rt.alloc(), another(&rt, &links));
    check(&rt, links.wait_for_none(&rt, 10_000));
}

/// The same number of links at work, for another holder.
fn another(rt: &impl Abort, links: &LinksAtWork) -> LinksAtWork {
    links.another().expect(rt, "ample memory")
}

#[test]
fn a_job_without_a_thread_comes_back(rt: HostRuntime) {
    let links = links_of(&rt, rt.alloc());
    gives_back(rt, rt.alloc(), another(&rt, &links));
    check(&rt, links.number() == 0);
}
