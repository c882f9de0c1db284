//! The processes of the tests: six in four groups, with and without logs.

use crate::made::found;
use std::alloc::Global;
use std::process::Abort;
use sv_base::config::{ClientSpec, Config};
use sv_base::groups::Groups;
use sv_base::items::Items;
use sv_base::number::{Backups, CaptureBytes, Retries, Seconds};
use sv_base::signal::Signal;
use sv_base::spec::{GroupSpec, LogSpec, Spec};
use sv_base::state::{Autorestart, Level};
use sv_base::text::Text;

/// A process: its group, its name, and the files of its logs, empty where it has none.
pub struct Process {
    group: &'static str,
    name: &'static str,
    stdout: &'static str,
    stderr: &'static str,
}

// In start order: cat:cat, web:a, web:b, w:one, w:w, z:q.
const CAT: [Process; 1] = [Process {
    group: "cat",
    name: "cat",
    stdout: "/cat.out",
    stderr: "",
}];

const WEB: [Process; 2] = [
    Process {
        group: "web",
        name: "a",
        stdout: "/a.out",
        stderr: "/a.err",
    },
    Process {
        group: "web",
        name: "b",
        stdout: "",
        stderr: "",
    },
];

const W: [Process; 2] = [
    Process {
        group: "w",
        name: "one",
        stdout: "/one.log",
        stderr: "/one.log",
    },
    Process {
        group: "w",
        name: "w",
        stdout: "",
        stderr: "/w.err",
    },
];

const Z: [Process; 1] = [Process {
    group: "z",
    name: "q",
    stdout: "",
    stderr: "",
}];

/// The name and the priority of each group, and its processes.
const GROUPS: [(&str, i32, &[Process]); 4] = [
    ("cat", 1, &CAT),
    ("web", 2, &WEB),
    ("w", 3, &W),
    ("z", 4, &Z),
];

/// The sizes of log files that are known, in bytes. Of `/a.out` none is known.
static SIZES: [(&str, u64); 6] = [
    ("/main.log", 10),
    ("/cat.out", 10),
    ("/a.err", 3_000_000),
    ("/one.log", 1_048_576),
    ("/w.err", 1_048_577),
    ("/cat.out", 99),
];

fn log(file: &'static str) -> LogSpec {
    LogSpec {
        file: if file.is_empty() {
            None
        } else {
            Some(Text::fixed(file))
        },
        maxbytes: 0,
        backups: Backups::least(),
        capture: CaptureBytes::least(),
        events: false,
    }
}

fn spec(alloc: Global, process: &Process) -> Spec {
    Spec {
        group: Text::fixed(process.group),
        name: Text::fixed(process.name),
        words: Items::new(alloc),
        priority: 999,
        autostart: false,
        startsecs: Seconds::least(),
        startretries: Retries::least(),
        autorestart: Autorestart::Never,
        exitcodes: Items::new(alloc),
        stopsignal: Signal::Term,
        stopwaitsecs: Seconds::least(),
        stopasgroup: false,
        killasgroup: false,
        redirect_stderr: false,
        stdout: log(process.stdout),
        stderr: log(process.stderr),
        environment: Items::new(alloc),
        directory: Text::fixed(""),
        umask: Text::fixed(""),
        user: Text::fixed(""),
    }
}

fn group(
    rt: &impl Abort,
    alloc: Global,
    name: &'static str,
    priority: i32,
    processes: &[Process],
) -> GroupSpec {
    let mut members = Items::new(alloc);
    for process in processes {
        members.push(spec(alloc, process)).expect(rt, "memory");
    }
    GroupSpec {
        name: Text::fixed(name),
        priority,
        members,
        pool: None,
    }
}

/// The groups as a list.
fn all_groups(rt: &impl Abort, alloc: Global) -> Vec<GroupSpec> {
    let mut groups = Vec::new(alloc);
    for (name, priority, processes) in &GROUPS {
        groups
            .push(group(rt, alloc, *name, *priority, *processes))
            .expect(rt, "memory");
    }
    groups
}

/// The groups.
pub fn groups(rt: &impl Abort, alloc: Global) -> Groups {
    found(rt, Groups::new(all_groups(rt, alloc)), "groups")
}

/// A configuration with these groups, with the main log `/main.log` or without one, and with or without the methods of
/// `supervisor`.
pub fn config(alloc: Global, groups: Groups, has_main: bool, rpc: bool) -> Config {
    Config {
        identifier: Text::fixed("the daemon"),
        main: log(if has_main { "/main.log" } else { "" }),
        level: Level::Info,
        groups,
        servers: Items::new(alloc),
        client: ClientSpec {
            url: Text::fixed(""),
            username: Text::fixed(""),
            password: Text::fixed(""),
        },
        rpc,
    }
}

/// The known sizes. Of two sizes of one file the first counts.
pub fn sizes(rt: &impl Abort, alloc: Global) -> Vec<(Text, u64)> {
    let mut sizes = Vec::new(alloc);
    for &(file, size) in &SIZES {
        sizes.push((Text::fixed(file), size)).expect(rt, "memory");
    }
    sizes
}
