//! A daemon with two clients, of which the first waits for a start.

use crate::checks::check;
use crate::clients::{ClientLink, Clients, LateConsole, StageClock, StageSpawner, StageWaiter};
use crate::course::{Course, Parts, go_over};
use crate::daemon::{bytes_of, journal_of, orders_of, text_of};
use crate::start_gate::{StartGate, receive_and_work};
use crossbeam_channel::{Receiver, Sender, bounded};
use std::alloc::Global;
use std::collections::VecDeque;
use std::process::Abort;
use std::sync::Wait;
use std::thread;
use sv_jobs::{AnyJob, NoBoard};
use sv_out::MapShelf;
use sv_out::sink::ListSink;
use sv_out::source::ListSource;
use sv_outside::World;

const CONF: &str = "[supervisord]\nlogfile=NONE\n[inet_http_server]\nport=9001\n\
[rpcinterface:supervisor]\n[program:x]\ncommand=x\nautostart=false\nstartsecs=1\n\
stdout_logfile=NONE\nstderr_logfile=NONE\n";

const START: &str = "POST /RPC2 HTTP/1.1\r\nHost: x\r\nContent-Length: 138\r\n\r\n\
<methodCall><methodName>supervisor.startProcess</methodName>\
<params><param><value><string>x</string></value></param></params></methodCall>";

const STATE: &str = "POST /RPC2 HTTP/1.1\r\nHost: x\r\nContent-Length: 69\r\n\r\n\
<methodCall><methodName>supervisor.getState</methodName></methodCall>";

type ClientJob<R> = AnyJob<
    ListSink,
    ListSource,
    ListSource,
    StageWaiter<R>,
    Clients<R>,
    LateConsole<R>,
    StageClock<R>,
    NoBoard,
>;

fn source(rt: &impl Abort, alloc: Global, text: &str) -> ListSource {
    let bytes = Vec::from_slice(alloc, text.as_bytes()).expect(rt, "ample memory");
    ListSource::new(bytes, 65_536, Vec::new(alloc))
}

/// What is done: the daemon answers the second client before the first one, and shuts down.
struct TwoClients;

impl Course for TwoClients {
    fn over<W: World>(&self, rt: &impl Abort, alloc: Global, world: &mut W) {
        let journal = journal_of(rt, alloc, bytes_of(rt, alloc, CONF), world);
        answers_second_first(rt, alloc, &journal);
    }
}

/// This journal answers the second client before the first one.
fn answers_second_first(rt: &impl Abort, alloc: Global, journal: &ListSink) {
    let orders = orders_of(rt, alloc, text_of(rt, journal));
    second_comes_first(rt, orders.as_str());
}

/// These orders answer the second client before the first one.
fn second_comes_first(rt: &impl Abort, orders: &str) {
    let second = orders.find("\nsend 2 ");
    let first = orders.find("\nsend 1 ");
    check(rt, second.is_some() && first.is_some() && second < first);
}

/// Adds one of those who are told of a reply.
fn add(rt: &impl Abort, told: &mut Vec<Sender<()>>, one: Sender<()>) {
    told.push(one).expect(rt, "ample memory");
}

/// The first client, which asks for a start; its reply ends the child and the daemon.
fn first_client<R: Abort + Copy>(
    rt: R,
    alloc: Global,
    ends_child: Sender<()>,
    ends_daemon: Sender<()>,
) -> ClientLink<R> {
    let mut told = Vec::new(alloc);
    add(&rt, &mut told, ends_child);
    add(&rt, &mut told, ends_daemon);
    ClientLink {
        rt,
        begins: None,
        source: source(&rt, alloc, START),
        reply: "<boolean>1</boolean>",
        told,
    }
}

/// The second client, which asks for the state once it is told to begin.
fn second_client<R: Abort + Copy>(
    rt: R,
    alloc: Global,
    begins: Receiver<()>,
    answers: Sender<()>,
) -> ClientLink<R> {
    let mut told = Vec::new(alloc);
    add(&rt, &mut told, answers);
    ClientLink {
        rt,
        begins: Some(begins),
        source: source(&rt, alloc, STATE),
        reply: "RUNNING",
        told,
    }
}

/// Adds a client.
fn add_client<R: Abort + Copy>(rt: R, links: &mut VecDeque<ClientLink<R>>, client: ClientLink<R>) {
    links.push_back(client).expect(&rt, "ample memory");
}

/// What accepts these two clients, the first one first.
fn both_clients<R: Abort + Copy>(
    rt: R,
    alloc: Global,
    first: ClientLink<R>,
    second: ClientLink<R>,
) -> Clients<R> {
    let mut links = VecDeque::new(alloc);
    add_client(rt, &mut links, first);
    add_client(rt, &mut links, second);
    Clients {
        rt,
        links,
        faults: 0,
    }
}

/// Both ends of what tells something once.
#[derive(Drop)]
struct Ends {
    tells: Sender<()>,
    hears: Receiver<()>,
}

fn ends_of(rt: &impl Abort, alloc: Global) -> Ends {
    let (tells, hears) = bounded(alloc, 1).expect(rt, "ample memory");
    Ends { tells, hears }
}

/// What the parts tell each other: that the child and the daemon end, that the child was started, and that the second client has its
/// reply.
#[derive(Drop)]
struct Stages {
    child: Ends,
    daemon: Ends,
    start: Ends,
    reply: Ends,
}

fn stages_of(rt: &impl Abort, alloc: Global) -> Stages {
    Stages {
        child: ends_of(rt, alloc),
        daemon: ends_of(rt, alloc),
        start: ends_of(rt, alloc),
        reply: ends_of(rt, alloc),
    }
}

/// A console that asks for the end once it hears this.
fn console_of<R: Abort + Copy>(rt: R, alloc: Global, until: Receiver<()>) -> LateConsole<R> {
    LateConsole {
        rt,
        until: Some(until),
        source: source(&rt, alloc, "signal TERM\n"),
    }
}

/// The first client asks for a start, and the second one, once the child was started, for the daemon's state. The clock moves on only
/// once the second client has its reply, or after 10,000 takes, and the first one gets its own only then; that ends the
/// child, and the daemon.
fn parts<R: Abort + Wait + std::time::Clock + Copy>(
    rt: R,
    alloc: Global,
    stages: Stages,
) -> Parts<StageSpawner<R>, Clients<R>, LateConsole<R>, StageClock<R>, MapShelf> {
    let Stages {
        child,
        daemon,
        start,
        reply,
    } = stages;
    let first = first_client(rt, alloc, child.tells, daemon.tells);
    let second = second_client(rt, alloc, start.hears, reply.tells);
    Parts {
        spawner: StageSpawner {
            rt,
            started: start.tells,
            until: Some(child.hears),
        },
        inet: Some(both_clients(rt, alloc, first, second)),
        console: console_of(rt, alloc, daemon.hears),
        ticker: StageClock::new(rt, None),
        clock: StageClock::new(rt, Some(reply.hears)),
        shelf: MapShelf::new(alloc, Vec::new(alloc)),
    }
}

#[test]
fn links_are_served_side_by_side(rt: HostRuntime) {
    let parts = parts(rt, rt.alloc(), stages_of(&rt, rt.alloc()));
    let gate = StartGate::new(
        rt,
        rt.alloc(),
        move |from: Receiver<ClientJob<HostRuntime>>| {
            thread::spawn(&rt, move || receive_and_work(&rt, &from)).is_ok()
        },
    );
    go_over(rt, rt.alloc(), parts, gate, &TwoClients);
}
