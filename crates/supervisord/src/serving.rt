//! The daemon over the machine that it runs on.

use crate::addresses::remove;
use crate::ending::end_programs;
use crate::preparing::{Given, Prepared};
use crate::streams::Streams;
use std::alloc::{AllocError, Global};
use std::io::Read;
use std::net::Net;
use std::process::Processes;
use std::rt::{Clock as Time, Files, Runtime};
use std::sync::Wait;
use sv_alarms::{AlarmClock, AlarmedSpawner};
use sv_base::{Host, Text};
use sv_disk::OsShelf;
use sv_jobs::{AnyJob, NoBoard};
use sv_os::OsClock;
use sv_out::Shelf;
use sv_out::sink::Sink;
use sv_out::source::Source;
use sv_outside::{Clock, Gate, Listen, Spawner, World};
use sv_sockets::{LinksAtWork, OsListen, OwnSocket};
use sv_standard::{Console, JournalSink};
use sv_supervise::supervise;
use sv_threads::ThreadWorld;

/// How long the replies at the end may take, in milliseconds.
const LAST_REPLIES: u32 = 500;

/// The descriptor of standard input.
const STANDARD_INPUT: i32 = 0;

/// Any job of the daemon, whose console is such a reader. A job is moved to its thread by value, so the reader has no buffer in itself.
pub type DaemonJob<R, I> = AnyJob<
    <AlarmedSpawner<R> as Spawner>::Stdin,
    <AlarmedSpawner<R> as Spawner>::Stdout,
    <AlarmedSpawner<R> as Spawner>::Stderr,
    <AlarmedSpawner<R> as Spawner>::Waiter,
    OsListen<R>,
    Console<R, I>,
    AlarmClock<R>,
    NoBoard,
>;

/// What is done over a world, once it is made.
pub trait Course {
    /// Goes through the world's inputs: the status.
    fn over<W: World>(&mut self, world: &mut W) -> u8;
}

/// The daemon's own call, with all that it is given but the world.
struct Daemon<R, O> {
    rt: R,
    words: Vec<Text>,
    host: Host,
    journal: JournalSink<R>,
    out: O,
}

impl<R: Drop, O: Drop> Drop for Daemon<R, O> {
    fn drop(self) {
        let Self {
            rt: _,
            words: _,
            host: _,
            journal: _,
            out: _,
        } = self;
    }
}

impl<R: Runtime + AllocGlobal + Wait + Copy + Drop, O: Sink> Course for Daemon<R, O> {
    fn over<W: World>(&mut self, world: &mut W) -> u8 {
        supervise(
            self.rt.alloc(),
            self.words.as_slice(),
            &self.host,
            &mut OsShelf::new(self.rt),
            world,
            &mut self.journal,
            &mut self.out,
        )
    }
}

/// Runs a daemon that was prepared, over this console and this gate: the status. Then the programs that still live are ended,
/// the last replies are sent and the last bytes written, and the socket's file is removed.
pub fn run<
    R: Runtime + Net + Processes + AllocGlobal + Wait + Copy + Drop,
    I: Read + Drop,
    O: Sink + Drop,
    G: Gate<DaemonJob<R, I>> + Drop,
>(rt: R, console: I, out: O, given: Given, prepared: Prepared<R>, gate: G) -> u8
    requires { G.ready gate }
{
    let alloc = rt.alloc();
    let (streams, parts) = prepared.into_parts();
    let (clients, programs, shelf, journal) = parts.into_parts();
    let (addresses, work) = clients.into_parts();
    let (inet, unix, socket) = addresses.into_parts();
    let (spawner, living, alarms) = programs.into_parts();
    let (words, host) = given.into_parts();
    let mut daemon = Daemon {
        rt,
        words,
        host,
        journal,
        out,
    };
    let console = Console::new(rt, console, STANDARD_INPUT);
    let ticker = AlarmClock::new(OsClock::new(rt), Some(alarms));
    let clock = AlarmClock::new(OsClock::new(rt), None);
    let status = over_threads(
        rt,
        alloc,
        spawner,
        inet,
        unix,
        console,
        ticker,
        clock,
        shelf,
        gate,
        &mut daemon,
    );
    let status = end_programs(rt, alloc, status, &living, &streams.teller);
    close(rt, &work, socket, &streams);
    status
}

/// Waits for the last replies, removes the socket's file, and waits for the last bytes of the streams.
fn close<R: Files + Time + Wait + Copy + Drop>(
    rt: R,
    work: &LinksAtWork,
    socket: Option<OwnSocket>,
    streams: &Streams<R>,
) {
    work.wait_for_none(&rt, LAST_REPLIES);
    remove(&rt, socket);
    streams.finish(&rt);
}

/// Goes through a course over the world made of these parts: the status.
fn over_threads<
    P: Spawner + Drop,
    L: Listen + Drop,
    Q: Source + Drop,
    C: Clock + Drop,
    S: Shelf + Drop,
    G: Gate<AnyJob<P::Stdin, P::Stdout, P::Stderr, P::Waiter, L, Q, C, NoBoard>> + Drop,
    R: Wait + Copy,
    D: Course,
>(
    rt: R,
    alloc: Global,
    spawner: P,
    inet: Option<L>,
    unix: Option<L>,
    console: Q,
    ticker: C,
    clock: C,
    shelf: S,
    gate: G,
    daemon: &mut D,
) -> Result<u8, AllocError>
    requires { G.ready gate }
{
    let mut world = ThreadWorld::new(
        rt, alloc, spawner, inet, unix, console, ticker, clock, shelf, gate,
    )?;
    Ok(daemon.over(&mut world))
}
