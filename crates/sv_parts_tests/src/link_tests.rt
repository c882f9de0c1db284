//! Links over a gate in memory.
use crate::checks::check;
use crate::quiet::{QuietLink, TestGate, TestJob};
use std::alloc::Global;
use std::process::Abort;
use std::sync::Wait;
use sv_base::{Bytes, LinkId};
use sv_jobs::{AnyJob, LinkWord, Note};
use sv_lane::{Seats, lane};
use sv_outside::{Handed, HoldGate, Job, JobWord, Ready};
use sv_parts::links::{LiveLinks, start_link};

type TestLinks = LiveLinks<QuietLink>;

fn gate_of(rt: &impl Abort, alloc: Global, room: usize) -> TestGate {
    Ready::new(HoldGate::new(alloc, room, Vec::new(alloc)).expect(rt, "ample memory"))
}

fn seats_of(rt: &impl Abort, alloc: Global) -> Seats<Note> {
    let (_taker, seats) = lane(alloc, 8).expect(rt, "ample memory");
    seats
}

/// Takes in a link: its number.
fn open(rt: &impl Abort, links: &mut TestLinks) -> u32 {
    match links.opened(QuietLink {}).expect(rt, "ample memory") {
        Some(link) => link.0,
        None => 0,
    }
}

/// Takes in a link, which gets this number.
fn is_opened(rt: &impl Abort, links: &mut TestLinks, number: u32) {
    check(rt, open(rt, links) == number);
}

/// The first order of a link, where it isn't a Close.
fn start(
    rt: &impl Abort,
    alloc: Global,
    links: &mut TestLinks,
    gate: &mut TestGate,
    link: u32,
) -> bool {
    let mut seats = seats_of(rt, alloc);
    start_link(alloc, links, &mut seats, gate, LinkId(link)).expect(rt, "ample memory")
}

/// Takes in a link with the number 1, and starts it.
fn open_and_start(rt: &impl Abort, alloc: Global, links: &mut TestLinks, gate: &mut TestGate) {
    is_opened(rt, links, 1);
    check(rt, start(rt, alloc, links, gate, 1));
}

/// Starts a link with the number 1.
fn start_one(rt: &impl Abort, alloc: Global, links: &mut TestLinks) {
    let mut gate = gate_of(rt, alloc, 9);
    open_and_start(rt, alloc, links, &mut gate);
    let _held = gate.into_gate();
}

/// Links of which one, with the number 1, was started.
fn one_link(rt: &impl Abort, alloc: Global) -> TestLinks {
    let mut links: TestLinks = LiveLinks::new(alloc);
    start_one(rt, alloc, &mut links);
    links
}

fn send<R: Abort + Wait>(rt: &R, alloc: Global, links: &mut TestLinks, link: u32) -> Handed {
    let bytes = Bytes::from_slice(alloc, b"x").expect(rt, "ample memory");
    links
        .send(rt, LinkId(link), &bytes)
        .expect(rt, "ample memory")
}

/// These jobs are those of the links of these digits.
fn are_words(rt: &impl Abort, jobs: &[TestJob], digits: &str) {
    check(rt, jobs.len() == digits.len());
    for (job, digit) in jobs.iter().zip(digits.as_bytes()) {
        check(rt, word_digit(job.word()) == *digit);
    }
}

/// A gate kept the jobs of the links of these digits.
fn kept(rt: &impl Abort, gate: TestGate, digits: &str) {
    let held = gate.into_gate();
    are_words(rt, held.jobs(), digits);
}

fn word_digit(word: JobWord) -> u8 {
    match word {
        JobWord::Link(LinkId(1)) => b'1',
        JobWord::Link(LinkId(2)) => b'2',
        JobWord::Link(LinkId(3)) => b'3',
        _ => b'?',
    }
}

/// Two links are started in the other order than they came, each once.
fn are_started_once(rt: &impl Abort, alloc: Global, links: &mut TestLinks, gate: &mut TestGate) {
    is_opened(rt, links, 1);
    is_opened(rt, links, 2);
    check(rt, links.waiting.len() == 2);
    check(rt, start(rt, alloc, links, gate, 2));
    check(rt, start(rt, alloc, links, gate, 1));
    check(rt, start(rt, alloc, links, gate, 2));
    check(rt, start(rt, alloc, links, gate, 9));
    check(rt, links.waiting.is_empty());
    check(rt, links.lives.len() == 2);
    is_opened(rt, links, 3);
}

#[test]
fn links_are_numbered_and_started_once(rt: HostRuntime) {
    let mut links: TestLinks = LiveLinks::new(rt.alloc());
    let mut gate = gate_of(&rt, rt.alloc(), 9);
    are_started_once(&rt, rt.alloc(), &mut links, &mut gate);
    kept(&rt, gate, "21");
}

/// Sends sixteen times, which all are taken.
fn send_16<R: Abort + Wait>(rt: &R, alloc: Global, links: &mut TestLinks) {
    for _ in 0..16 {
        check(rt, send(rt, alloc, links, 1) == Handed::Done);
    }
}

/// The 17th send that isn't written yet fails.
fn fails_at_17<R: Abort + Wait>(rt: &R, alloc: Global, links: &mut TestLinks) {
    send_16(rt, alloc, links);
    links.sent(LinkId(2));
    links.sent(LinkId(1));
    check(rt, send(rt, alloc, links, 1) == Handed::Done);
    check(rt, send(rt, alloc, links, 1) == Handed::Failed);
}

#[test]
fn the_17th_unwritten_send_fails(rt: HostRuntime) {
    let mut links = one_link(&rt, rt.alloc());
    fails_at_17(&rt, rt.alloc(), &mut links);
}

/// A letter for a word to the job of a link: `m` for a More, `s` for a Send, `.` for the Close.
fn letter(word: &LinkWord) -> u8 {
    match word {
        LinkWord::More => b'm',
        LinkWord::Send(_) => b's',
        LinkWord::Close => b'.',
    }
}

/// The words to this job, that of a link, are those of these letters.
fn is_told<R: Abort + Wait>(rt: &R, job: &mut TestJob, letters: &str) {
    match job {
        AnyJob::Link(job) => {
            for expected in letters.as_bytes() {
                check(rt, letter(&job.words.take(rt)) == *expected);
            }
        }
        _ => assert!(rt; false),
    }
}

/// The words to the job of the one link that a gate kept, up to its Close, are those of these letters.
fn are_link_words<R: Abort + Wait>(rt: &R, gate: TestGate, letters: &str) {
    let mut jobs = gate.into_gate().into_jobs();
    is_told(rt, jobs.last_mut().expect(rt, "a job"), letters);
}

/// A link whose order fails is closed.
fn is_closed_once<R: Abort + Wait>(
    rt: &R,
    alloc: Global,
    links: &mut TestLinks,
    gate: &mut TestGate,
) {
    open_and_start(rt, alloc, links, gate);
    check(rt, links.more(rt, LinkId(1)) == Handed::Done);
    send_16(rt, alloc, links);
    check(rt, send(rt, alloc, links, 1) == Handed::Failed);
    check(rt, links.more(rt, LinkId(1)) == Handed::Failed);
}

#[test]
fn a_link_with_a_failed_order_is_closed_once(rt: HostRuntime) {
    let mut links: TestLinks = LiveLinks::new(rt.alloc());
    let mut gate = gate_of(&rt, rt.alloc(), 9);
    is_closed_once(&rt, rt.alloc(), &mut links, &mut gate);
    are_link_words(&rt, gate, "mssssssssssssssss.");
}

/// Each order fails.
fn all_fail<R: Abort + Wait>(rt: &R, alloc: Global, links: &mut TestLinks) {
    check(rt, links.more(rt, LinkId(1)) == Handed::Failed);
    check(rt, links.close(rt, LinkId(1)) == Handed::Failed);
    check(rt, send(rt, alloc, links, 1) == Handed::Failed);
}

/// After an order that failed each one fails, until the link has ended.
fn fails_on<R: Abort + Wait>(rt: &R, alloc: Global, links: &mut TestLinks) {
    send_16(rt, alloc, links);
    check(rt, send(rt, alloc, links, 1) == Handed::Failed);
    for _ in 0..20 {
        all_fail(rt, alloc, links);
    }
    links.sent(LinkId(1));
    check(rt, send(rt, alloc, links, 1) == Handed::Failed);
    links.ended(LinkId(1));
    check(rt, links.lives.is_empty());
    check(rt, send(rt, alloc, links, 1) == Handed::Done);
}

#[test]
fn after_a_failed_order_each_one_fails(rt: HostRuntime) {
    let mut links = one_link(&rt, rt.alloc());
    fails_on(&rt, rt.alloc(), &mut links);
}

/// A link that is closed before it was started is let go.
fn is_let_go<R: Abort + Wait>(rt: &R, alloc: Global, links: &mut TestLinks, gate: &mut TestGate) {
    is_opened(rt, links, 1);
    is_opened(rt, links, 2);
    check(rt, links.close(rt, LinkId(1)) == Handed::Done);
    check(rt, links.waiting.len() == 1);
    check(rt, start(rt, alloc, links, gate, 1));
    check(rt, links.more(rt, LinkId(1)) == Handed::Done);
    check(rt, links.lives.is_empty());
}

#[test]
fn a_link_whose_first_order_is_close_is_let_go(rt: HostRuntime) {
    let mut links: TestLinks = LiveLinks::new(rt.alloc());
    let mut gate = gate_of(&rt, rt.alloc(), 9);
    is_let_go(&rt, rt.alloc(), &mut links, &mut gate);
    kept(&rt, gate, "");
}

/// The second of two links, whose job comes back, is lost.
fn is_lost<R: Abort + Wait>(rt: &R, alloc: Global, links: &mut TestLinks, gate: &mut TestGate) {
    is_opened(rt, links, 1);
    is_opened(rt, links, 2);
    check(rt, start(rt, alloc, links, gate, 1));
    check(rt, !start(rt, alloc, links, gate, 2));
    check(rt, links.more(rt, LinkId(1)) == Handed::Done);
    check(rt, links.more(rt, LinkId(2)) == Handed::Failed);
    check(rt, links.close(rt, LinkId(2)) == Handed::Failed);
    check(rt, links.waiting.is_empty());
    check(rt, links.lives.len() == 1);
}

#[test]
fn a_link_whose_job_comes_back_is_lost(rt: HostRuntime) {
    let mut links: TestLinks = LiveLinks::new(rt.alloc());
    let mut gate = gate_of(&rt, rt.alloc(), 1);
    is_lost(&rt, rt.alloc(), &mut links, &mut gate);
    kept(&rt, gate, "1");
}

/// A link that is closed is kept until it has ended.
fn is_kept<R: Abort + Wait>(rt: &R, links: &mut TestLinks) {
    check(rt, links.more(rt, LinkId(1)) == Handed::Done);
    check(rt, links.close(rt, LinkId(1)) == Handed::Done);
    check(rt, links.lives.len() == 1);
    links.ended(LinkId(2));
    check(rt, links.lives.len() == 1);
    links.ended(LinkId(1));
    check(rt, links.lives.is_empty());
    check(rt, links.close(rt, LinkId(1)) == Handed::Done);
}

#[test]
fn a_closed_link_is_kept_until_it_is_over(rt: HostRuntime) {
    let mut links = one_link(&rt, rt.alloc());
    is_kept(&rt, &mut links);
}
