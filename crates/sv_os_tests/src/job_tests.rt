//! The jobs of a program, of an address and of the console, over real parts.

ghost use Rattle.std.specs.Prelude.{◌≤◌};

use crate::checks::check;
use crate::gate_tests::{add, links_of, start_in_threads};
use crate::listen_tests::opening;
use crate::os_tests::socket_at;
use std::alloc::Global;
use std::io::Stdin;
use std::net::Net;
use std::process::{Abort, ChildStdin};
use std::sync::Wait;
use std::{env, fs, io, process};
use sv_base::{Bytes, How, Items, LinkId, Place, Run, Side, Stream, Text};
use sv_jobs::{
    AnyJob, ConsoleJob, ErrPump, LinkJob, LinkWord, LinksJob, NoBoard, Note, OutPump, StdinJob,
    StdinWord, TickerJob, WatchJob,
};
use sv_lane::{Poster, Seats, Taker, lane};
use sv_os::{OsClock, ReadSource, WriteSink};
use sv_out::order::SpawnOrder;
use sv_out::{Dial, Link};
use sv_outside::{Clock, Listen, Spawner, Started, Waiter};
use sv_processes::{OsSpawner, OsWaiter, PipeSource};
use sv_sockets::{OsDial, OsLink, OsListen};

type RealJob<W, L, C> = AnyJob<
    WriteSink<ChildStdin>,
    PipeSource,
    PipeSource,
    W,
    L,
    ReadSource<Stdin>,
    C,
    NoBoard,
>;

type RealProgram<W> = Started<WriteSink<ChildStdin>, PipeSource, PipeSource, W>;

/// The one word `cat`.
fn word_cat(rt: &impl Abort, alloc: Global) -> Items<Text> {
    let mut words = Items::new(alloc);
    words.push(Text::fixed("cat")).expect(rt, "ample memory");
    words
}

/// An order for these words.
fn order_of(alloc: Global, words: Items<Text>) -> SpawnOrder {
    SpawnOrder {
        run: Run(1),
        group: Text::fixed("g"),
        name: Text::fixed("p"),
        directory: Text::fixed(""),
        umask: Text::fixed(""),
        user: Text::fixed(""),
        words,
        environment: Items::new(alloc),
    }
}

/// Starts `cat`.
fn started_cat<S: Spawner>(
    rt: &impl Abort,
    alloc: Global,
    spawner: &mut S,
) -> Started<S::Stdin, S::Stdout, S::Stderr, S::Waiter> {
    let order = order_of(alloc, word_cat(rt, alloc));
    spawner.spawn(alloc, &order).expect(rt, "cat is started")
}

/// A lane for so many items, with one seat.
fn lane_of<T: Drop>(rt: &impl Abort, alloc: Global, room: u32) -> (Taker<T>, Poster<T>)
    requires { 1 ≤ room }
{
    let (taker, mut seats) = lane(alloc, room).expect(rt, "ample memory");
    let poster = seats.seat().expect(rt, "ample memory");
    (taker, poster)
}

/// A further seat.
fn seat_of<T: Drop>(rt: &impl Abort, seats: &mut Seats<T>) -> Poster<T> {
    seats.seat().expect(rt, "ample memory")
}

/// The job that writes the standard input of a program, which takes these words.
fn stdin_job<W: Waiter + Drop, L: Listen + Drop, C: Clock + Drop>(
    sink: WriteSink<ChildStdin>,
    words: Taker<StdinWord>,
    poster: Poster<Note>,
) -> RealJob<W, L, C> {
    AnyJob::Stdin(StdinJob {
        run: Run(1),
        sink,
        poster,
        words,
    })
}

/// The job that reads the standard output of a program.
fn out_job<W: Waiter + Drop, L: Listen + Drop, C: Clock + Drop>(
    alloc: Global,
    source: PipeSource,
    poster: Poster<Note>,
) -> RealJob<W, L, C> {
    AnyJob::Out(OutPump {
        run: Run(1),
        source,
        poster,
        alloc,
    })
}

/// The job that reads the standard error output of a program.
fn err_job<W: Waiter + Drop, L: Listen + Drop, C: Clock + Drop>(
    alloc: Global,
    source: PipeSource,
    poster: Poster<Note>,
) -> RealJob<W, L, C> {
    AnyJob::Err(ErrPump {
        run: Run(1),
        source,
        poster,
        alloc,
    })
}

/// The job that waits for the end of a program.
fn watch_job<W: Waiter + Drop, L: Listen + Drop, C: Clock + Drop>(
    waiter: W,
    poster: Poster<Note>,
) -> RealJob<W, L, C> {
    AnyJob::Watch(WatchJob {
        run: Run(1),
        waiter,
        poster,
    })
}

/// The job of the clock, for one tick.
fn ticker_job<W: Waiter + Drop, L: Listen + Drop, C: Clock + Drop>(
    clock: C,
    poster: Poster<Note>,
) -> RealJob<W, L, C> {
    AnyJob::Ticker(TickerJob {
        clock,
        turns: 1,
        poster,
    })
}

/// The job of the console.
fn console_job<W: Waiter + Drop, L: Listen + Drop, C: Clock + Drop>(
    alloc: Global,
    console: Stdin,
    poster: Poster<Note>,
) -> RealJob<W, L, C> {
    AnyJob::Console(ConsoleJob {
        source: ReadSource::new(console),
        poster,
        alloc,
    })
}

/// Adds the jobs of a program, whose standard input takes these words.
fn add_program<W: Waiter + Drop, L: Listen + Drop, C: Clock + Drop>(
    rt: &impl Abort,
    alloc: Global,
    jobs: &mut Vec<RealJob<W, L, C>>,
    program: RealProgram<W>,
    words: Taker<StdinWord>,
    seats: &mut Seats<Note>,
) {
    add(
        rt,
        jobs,
        stdin_job(program.stdin, words, seat_of(rt, seats)),
    );
    add(rt, jobs, out_job(alloc, program.stdout, seat_of(rt, seats)));
    add(rt, jobs, err_job(alloc, program.stderr, seat_of(rt, seats)));
    add(rt, jobs, watch_job(program.waiter, seat_of(rt, seats)));
}

/// The jobs of this program, whose standard input takes these words, of the clock and of the console.
fn all_jobs<W: Waiter + Drop, L: Listen + Drop, C: Clock + Drop>(
    rt: &impl Abort,
    alloc: Global,
    program: RealProgram<W>,
    clock: C,
    console: Stdin,
    words: Taker<StdinWord>,
    seats: &mut Seats<Note>,
) -> Vec<RealJob<W, L, C>> {
    let mut jobs = Vec::new(alloc);
    add_program(rt, alloc, &mut jobs, program, words, seats);
    add(rt, &mut jobs, ticker_job(clock, seat_of(rt, seats)));
    add(
        rt,
        &mut jobs,
        console_job(alloc, console, seat_of(rt, seats)),
    );
    jobs
}

/// Writes `hello` to the standard input, and closes it.
fn write_hello<R: Abort + Wait>(rt: &R, alloc: Global, poster: &mut Poster<StdinWord>) {
    let bytes = Bytes::from_slice(alloc, b"hello").expect(rt, "ample memory");
    poster.post(rt, StdinWord::Write(bytes));
    poster.post(rt, StdinWord::Close);
}

/// What was heard of a program: how many bytes it wrote, and a bit for each other note.
#[derive(Drop)]
struct Heard {
    said: usize,
    seen: u32,
}

/// Takes a note in.
fn take_in(rt: &impl Abort, heard: &mut Heard, note: &Note) {
    match note {
        Note::Out(_, Stream::Out, piece) => {
            heard.said = heard.said.wrapping_add(piece.as_slice().len())
        }
        Note::Wrote(_) => heard.seen |= 1,
        Note::StdinEnd(_) => heard.seen |= 2,
        Note::OutEnd(_, Stream::Out) => heard.seen |= 4,
        Note::OutEnd(_, Stream::Err) => heard.seen |= 8,
        Note::Exit(_, How::Code(0)) => heard.seen |= 16,
        Note::Tick => heard.seen |= 32,
        _ => assert!(rt; false, "cat causes no such note"),
    }
}

/// Hears `hello` from the program, its ends and a tick.
fn hear_hello<R: Abort + Wait>(rt: &R, notes: &mut Taker<Note>) {
    let mut heard = Heard { said: 0, seen: 0 };
    for _ in 0..64 {
        if heard.seen == 63 {
            break;
        }
        take_in(rt, &mut heard, &notes.take(rt));
    }
    check(rt, heard.seen == 63 && heard.said == 5);
}

#[test]
fn a_program_has_its_jobs(rt: HostRuntime) {
    let alloc = rt.alloc();
    let (mut notes, mut seats) = lane(alloc, 256).expect(&rt, "ample memory");
    let (taker, mut words) = lane_of(&rt, alloc, 65);
    write_hello(&rt, alloc, &mut words);
    let mut spawner = OsSpawner::plain(rt, alloc).expect(&rt, "ample memory");
    let cat = started_cat(&rt, alloc, &mut spawner);
    let (clock, console) = (OsClock::new(rt), rt.stdin());
    let jobs: Vec<RealJob<OsWaiter<HostRuntime>, OsListen<HostRuntime>, OsClock<HostRuntime>>> =
        all_jobs(&rt, alloc, cat, clock, console, taker, &mut seats);
    start_in_threads(rt, alloc, &links_of(&rt, alloc), jobs);
    hear_hello(&rt, &mut notes);
}

/// The path of a socket of this process alone.
fn socket_path(rt: &HostRuntime) -> io::Result<String> {
    let above = env::temp_dir(rt)?;
    let above = above.display();
    let pid = process::id(rt.process());
    Ok(format!(in rt.alloc(); "{above}/sv_os_jobs_{pid}")?)
}

/// A lane: its taker, and its seats.
struct Hall<T: Drop> {
    taker: Taker<T>,
    seats: Seats<T>,
}

impl<T: Drop> Drop for Hall<T> {
    fn drop(self) {
        let Self { taker: _, seats: _ } = self;
    }
}

/// A lane for so many items.
fn hall_of<T: Drop>(rt: &impl Abort, alloc: Global, room: u32) -> Hall<T>
    requires { 1 ≤ room }
{
    let (taker, seats) = lane(alloc, room).expect(rt, "ample memory");
    Hall { taker, seats }
}

/// An address, and what hears the jobs of it and takes its links.
struct Address<K: Link + Drop> {
    place: Place,
    notes: Hall<Note>,
    links: Hall<K>,
}

impl<K: Link + Drop> Drop for Address<K> {
    fn drop(self) {
        let Self {
            place: _,
            notes: _,
            links: _,
        } = self;
    }
}

/// The address of this path.
fn address_of<K: Link + Drop>(rt: &impl Abort, alloc: Global, path: &str) -> Address<K> {
    Address {
        place: socket_at(rt, alloc, path),
        notes: hall_of(rt, alloc, 256),
        links: hall_of(rt, alloc, 64),
    }
}

/// The job that accepts one link at the address.
fn links_job<W: Waiter + Drop, L: Listen + Drop, C: Clock + Drop>(
    rt: &impl Abort,
    listen: L,
    address: &mut Address<L::Link>,
) -> RealJob<W, L, C> {
    AnyJob::Links(LinksJob {
        side: Side::Unix,
        listen,
        turns: 1,
        poster: seat_of(rt, &mut address.notes.seats),
        links: seat_of(rt, &mut address.links.seats),
    })
}

/// A new link is told.
fn is_told<R: Abort + Wait>(rt: &R, notes: &mut Taker<Note>) {
    check(rt, matches!(&notes.take(rt), Note::Open(Side::Unix)));
}

/// A client of the address, which is told as a new link.
fn client_of<R: Abort + Wait + Net, K: Link + Drop>(
    rt: &R,
    alloc: Global,
    address: &mut Address<K>,
) -> OsLink<R::Stream> {
    let client = OsDial::new(rt)
        .connect(alloc, &address.place)
        .expect(rt, "a client");
    is_told(rt, &mut address.notes.taker);
    client
}

/// The job that serves the accepted link, which takes these words.
fn link_job<R: Abort + Wait, W: Waiter + Drop, L: Listen + Drop, C: Clock + Drop>(
    rt: &R,
    alloc: Global,
    address: &mut Address<L::Link>,
    words: Taker<LinkWord>,
) -> RealJob<W, L, C> {
    AnyJob::Link(LinkJob {
        number: LinkId(1),
        link: address.links.taker.take(rt),
        poster: seat_of(rt, &mut address.notes.seats),
        words,
        alloc,
    })
}

/// Has `pong` sent, and the link closed.
fn send_pong<R: Abort + Wait>(rt: &R, alloc: Global, poster: &mut Poster<LinkWord>) {
    let bytes = Bytes::from_slice(alloc, b"pong").expect(rt, "ample memory");
    poster.post(rt, LinkWord::Send(bytes));
    poster.post(rt, LinkWord::Close);
}

/// A piece of a link is told.
fn piece_is_told<R: Abort + Wait>(rt: &R, notes: &mut Taker<Note>) {
    check(rt, matches!(&notes.take(rt), Note::Piece(_, _)));
}

/// A client sends `ping`, and gets `pong` and the end.
fn talk<R: Abort + Wait, K: Link>(
    rt: &R,
    alloc: Global,
    client: &mut K,
    notes: &mut Taker<Note>,
    poster: &mut Poster<LinkWord>,
) {
    poster.post(rt, LinkWord::More);
    check(rt, matches!(client.write(b"ping"), Ok(4)));
    piece_is_told(rt, notes);
    send_pong(rt, alloc, poster);
    let mut piece = [0u8; 8];
    check(rt, matches!(client.read(&mut piece), Ok(4)));
    check(rt, matches!(client.read(&mut piece), Ok(0)));
}

/// This job alone.
fn only<J: Drop>(rt: &impl Abort, alloc: Global, job: J) -> Vec<J> {
    let mut jobs = Vec::new(alloc);
    add(rt, &mut jobs, job);
    jobs
}

type AddressJob = RealJob<OsWaiter<HostRuntime>, OsListen<HostRuntime>, OsClock<HostRuntime>>;

#[test]
fn an_address_has_its_jobs(rt: HostRuntime) {
    let alloc = rt.alloc();
    let path = socket_path(&rt).expect(&rt, "the system does it");
    let links = links_of(&rt, alloc);
    let mut address = address_of(&rt, alloc, path.as_str());
    let (listen, _socket) = opening(rt, alloc, &address.place)
        .ok()
        .expect(&rt, "it opens");
    let accepting: AddressJob = links_job(&rt, listen, &mut address);
    start_in_threads(rt, alloc, &links, only(&rt, alloc, accepting));
    let mut client = client_of(&rt, alloc, &mut address);
    let (words, mut poster) = lane_of(&rt, alloc, 18);
    let serving: AddressJob = link_job(&rt, alloc, &mut address, words);
    start_in_threads(rt, alloc, &links, only(&rt, alloc, serving));
    talk(
        &rt,
        alloc,
        &mut client,
        &mut address.notes.taker,
        &mut poster,
    );
    check(&rt, links.wait_for_none(&rt, 10_000));
    fs::remove_file(&rt, path.as_str()).expect(&rt, "the system does it");
}
