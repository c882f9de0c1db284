//! Orders have their lines.

use crate::columns::is_order;
use std::alloc::Global;
use std::process::Abort;
use sv_base::bytes::Bytes;
use sv_base::ids::{LinkId, Run};
use sv_base::items::Items;
use sv_base::signal::Signal;
use sv_base::state::State;
use sv_base::text::Text;
use sv_out::order::{Order, SpawnOrder};

/// The edges of the process `a b` of the group g, and the lines of their orders.
const STATES: [(State, State, &str); 8] = [
    (
        State::Stopped,
        State::Starting,
        "state g a%20b STOPPED STARTING",
    ),
    (
        State::Starting,
        State::Running,
        "state g a%20b STARTING RUNNING",
    ),
    (
        State::Starting,
        State::Backoff,
        "state g a%20b STARTING BACKOFF",
    ),
    (State::Backoff, State::Fatal, "state g a%20b BACKOFF FATAL"),
    (
        State::Running,
        State::Stopping,
        "state g a%20b RUNNING STOPPING",
    ),
    (
        State::Running,
        State::Exited,
        "state g a%20b RUNNING EXITED",
    ),
    (
        State::Stopping,
        State::Stopped,
        "state g a%20b STOPPING STOPPED",
    ),
    (
        State::Fatal,
        State::Starting,
        "state g a%20b FATAL STARTING",
    ),
];

/// Runs and signals, whether their process groups get them too, and the lines of their orders.
const KILLS: [(u32, Signal, bool, &str); 8] = [
    (1, Signal::Term, false, "kill 1 TERM child"),
    (2, Signal::Hup, false, "kill 2 HUP child"),
    (30, Signal::Int, true, "kill 30 INT group"),
    (400, Signal::Quit, true, "kill 400 QUIT group"),
    (1, Signal::Kill, true, "kill 1 KILL group"),
    (1, Signal::Usr1, false, "kill 1 USR1 child"),
    (0, Signal::Usr2, false, "kill 0 USR2 child"),
    (
        4_294_967_295,
        Signal::Usr2,
        true,
        "kill 4294967295 USR2 group",
    ),
];

/// The order that reports this edge.
fn report(from: State, to: State) -> Order {
    Order::State {
        group: Text::fixed("g"),
        name: Text::fixed("a b"),
        from,
        to,
    }
}

fn is_report(rt: &impl Abort, alloc: Global, from: State, to: State, line: &str) {
    let report = report(from, to);
    is_order(rt, alloc, &report, line);
}

fn kill(run: u32, signal: Signal, group: bool) -> Order {
    Order::Kill {
        run: Run(run),
        signal,
        group,
    }
}

fn is_kill(rt: &impl Abort, alloc: Global, run: u32, signal: Signal, group: bool, line: &str) {
    let kill = kill(run, signal, group);
    is_order(rt, alloc, &kill, line);
}

#[test]
fn reports_and_kills_are_written(rt: HostRuntime) {
    for (from, to, line) in &STATES {
        is_report(&rt, rt.alloc(), *from, *to, line);
    }
    for (run, signal, group, line) in &KILLS {
        is_kill(&rt, rt.alloc(), *run, *signal, *group, line);
    }
}

/// What is ordered of a file or of a pool.
#[derive(Clone, Copy)]
enum OfName {
    Dropped(u64, u64),
    Append(&'static [u8]),
    Shift(&'static str),
    Fresh,
    Read(u64, u64),
    Clear,
    Names,
    Size,
}

/// What is ordered, the name of the file or of the pool, and the line of the order.
const OF_NAMES: [(OfName, &str, &str); 8] = [
    (
        OfName::Dropped(u64::MAX, 0),
        "all events",
        "dropped all%20events 18446744073709551615 0",
    ),
    (
        OfName::Append(b"a\x00\xff"),
        "/var/log/x y.log",
        "append /var/log/x%20y.log a%00%FF",
    ),
    (OfName::Shift("x.log.1"), "x.log", "shift x.log x.log.1"),
    (OfName::Fresh, "x.log", "fresh x.log"),
    (
        OfName::Read(18_446_744_073_709_551_615, 4_096),
        "x.log",
        "read x.log 18446744073709551615 4096",
    ),
    (OfName::Clear, "", "clear %"),
    (OfName::Names, "/etc/a b/*.conf", "names /etc/a%20b/*.conf"),
    (OfName::Size, "x.log", "size x.log"),
];

/// The order of the file or the pool of this name.
fn of_name(rt: &impl Abort, alloc: Global, ordered: OfName, name: Text) -> Order {
    match ordered {
        OfName::Dropped(serial, poolserial) => Order::Dropped {
            pool: name,
            serial,
            poolserial,
        },
        OfName::Append(text) => Order::Append {
            file: name,
            bytes: bytes(rt, alloc, text),
        },
        OfName::Shift(to) => Order::Shift {
            from: name,
            to: Text::fixed(to),
        },
        OfName::Fresh => Order::Fresh { file: name },
        OfName::Read(start, length) => Order::ReadFile {
            file: name,
            start,
            length,
        },
        OfName::Clear => Order::ClearFile { file: name },
        OfName::Names => Order::Names { pattern: name },
        OfName::Size => Order::Size { file: name },
    }
}

/// What is ordered of a run or a link.
#[derive(Clone, Copy)]
enum OfNumber {
    Stdin(&'static [u8]),
    Send(&'static [u8]),
    More,
    Close,
}

/// What is ordered, the number of the run or of the link, and the line of the order.
const OF_NUMBERS: [(OfNumber, u32, &str); 5] = [
    (
        OfNumber::Stdin(b"ver:3.0 len:0\n"),
        1,
        "stdin 1 ver:3.0%20len:0%0A",
    ),
    (OfNumber::Stdin(b""), 4_294_967_295, "stdin 4294967295 %"),
    (
        OfNumber::Send(b"HTTP/1.1 200 OK\r\n"),
        7,
        "send 7 HTTP/1.1%20200%20OK%0D%0A",
    ),
    (OfNumber::More, 4_294_967_295, "more 4294967295"),
    (OfNumber::Close, 1, "close 1"),
];

/// The order of the run or the link of this number.
fn of_number(rt: &impl Abort, alloc: Global, ordered: OfNumber, number: u32) -> Order {
    match ordered {
        OfNumber::Stdin(text) => Order::Stdin {
            run: Run(number),
            bytes: bytes(rt, alloc, text),
        },
        OfNumber::Send(text) => Order::Send {
            link: LinkId(number),
            bytes: bytes(rt, alloc, text),
        },
        OfNumber::More => Order::More {
            link: LinkId(number),
        },
        OfNumber::Close => Order::Close {
            link: LinkId(number),
        },
    }
}

fn bytes(rt: &impl Abort, alloc: Global, bytes: &[u8]) -> Bytes {
    Bytes::from_slice(alloc, bytes).expect(rt, "memory")
}

fn is_of_name(rt: &impl Abort, alloc: Global, ordered: OfName, name: &'static str, line: &str) {
    let order = of_name(rt, alloc, ordered, Text::fixed(name));
    is_order(rt, alloc, &order, line);
}

fn is_of_number(rt: &impl Abort, alloc: Global, ordered: OfNumber, number: u32, line: &str) {
    let order = of_number(rt, alloc, ordered, number);
    is_order(rt, alloc, &order, line);
}

fn is_halt(rt: &impl Abort, alloc: Global, line: &str) {
    let order = Order::Halt;
    is_order(rt, alloc, &order, line);
}

#[test]
fn other_orders_are_written(rt: HostRuntime) {
    for (ordered, name, line) in &OF_NAMES {
        is_of_name(&rt, rt.alloc(), *ordered, *name, line);
    }
    for (ordered, number, line) in &OF_NUMBERS {
        is_of_number(&rt, rt.alloc(), *ordered, *number, line);
    }
    is_halt(&rt, rt.alloc(), "halt");
}

fn texts(rt: &impl Abort, alloc: Global, words: &[&'static str]) -> Items<Text> {
    let mut items = Items::new(alloc);
    for word in words {
        items.push(Text::fixed(*word)).expect(rt, "memory");
    }
    items
}

fn pairs(
    rt: &impl Abort,
    alloc: Global,
    pairs: &[(&'static str, &'static str)],
) -> Items<(Text, Text)> {
    let mut items = Items::new(alloc);
    for (name, value) in pairs {
        let pair = (Text::fixed(*name), Text::fixed(*value));
        items.push(pair).expect(rt, "memory");
    }
    items
}

/// What is spawned, and the line of the order.
struct Spawned {
    run: u32,
    group: &'static str,
    name: &'static str,
    directory: &'static str,
    umask: &'static str,
    user: &'static str,
    words: &'static [&'static str],
    environment: &'static [(&'static str, &'static str)],
    line: &'static str,
}

const SPAWNS: [Spawned; 3] = [
    Spawned {
        run: 1,
        group: "x",
        name: "x",
        directory: "",
        umask: "",
        user: "",
        words: &[],
        environment: &[],
        line: "spawn 1 x x % % % 0 0",
    },
    Spawned {
        run: 1,
        group: "x",
        name: "x",
        directory: "",
        umask: "",
        user: "",
        words: &["x"],
        environment: &[
            ("SUPERVISOR_ENABLED", "1"),
            ("SUPERVISOR_GROUP_NAME", "x"),
            ("SUPERVISOR_PROCESS_NAME", "x"),
        ],
        line: "spawn 1 x x % % % 1 x 3 SUPERVISOR_ENABLED 1 SUPERVISOR_GROUP_NAME x SUPERVISOR_PROCESS_NAME x",
    },
    Spawned {
        run: 70,
        group: "g",
        name: "web:1",
        directory: "/srv/a b",
        umask: "022",
        user: "nobody",
        words: &["/bin/sh", "-c", "echo 100%", ""],
        environment: &[("A", "1 2"), ("B", "")],
        line: "spawn 70 g web:1 /srv/a%20b 022 nobody 4 /bin/sh -c echo%20100%25 % 2 A 1%202 B %",
    },
];

fn spawn(rt: &impl Abort, alloc: Global, spawned: &Spawned) -> SpawnOrder {
    SpawnOrder {
        run: Run(spawned.run),
        group: Text::fixed(spawned.group),
        name: Text::fixed(spawned.name),
        directory: Text::fixed(spawned.directory),
        umask: Text::fixed(spawned.umask),
        user: Text::fixed(spawned.user),
        words: texts(rt, alloc, spawned.words),
        environment: pairs(rt, alloc, spawned.environment),
    }
}

fn is_spawn(rt: &impl Abort, alloc: Global, spawned: &Spawned) {
    let order = Order::Spawn(spawn(rt, alloc, spawned));
    is_order(rt, alloc, &order, spawned.line);
}

#[test]
fn spawns_are_written(rt: HostRuntime) {
    for spawned in &SPAWNS {
        is_spawn(&rt, rt.alloc(), spawned);
    }
}
