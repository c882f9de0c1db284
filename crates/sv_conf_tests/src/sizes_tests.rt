//! Sizes that are read from shelves, worked by hand: the log files `/e`, `/m` and `/p` in this order, one of which two processes
//! write.

use crate::checks::same;
use std::alloc::Global;
use std::process::Abort;
use sv_base::config::{ClientSpec, Config};
use sv_base::groups::Groups;
use sv_base::items::Items;
use sv_base::number::{Backups, CaptureBytes, Retries, Seconds};
use sv_base::signal::Signal;
use sv_base::spec::{GroupSpec, LogSpec, Spec};
use sv_base::state::{Autorestart, Level};
use sv_base::{Bytes, Text};
use sv_load::sizes::{SizesFault, sizes_of};
use sv_out::MapShelf;

/// What is told where the call of this number fails; with none all sizes are.
static TOLD: [(u64, &str); 4] = [
    (0, "/e=0 /m=3 /p=10"),
    (1, "failed /e"),
    (2, "failed /m"),
    (3, "failed /p"),
];

fn log(rt: &impl Abort, file: Option<&'static str>) -> LogSpec {
    LogSpec {
        file: file.map(|file| Text::fixed(file)),
        maxbytes: 0,
        backups: Backups::new(0).expect(rt, "a number of backups"),
        capture: CaptureBytes::least(),
        events: false,
    }
}

/// A process that logs to `/p`, and to this file what it writes to its stderr.
fn process(rt: &impl Abort, alloc: Global, stderr: Option<&'static str>) -> Spec {
    Spec {
        group: Text::fixed("g"),
        name: Text::fixed("p"),
        words: Items::new(alloc),
        priority: 999,
        autostart: true,
        startsecs: Seconds::least(),
        startretries: Retries::least(),
        autorestart: Autorestart::Never,
        exitcodes: Items::new(alloc),
        stopsignal: Signal::Term,
        stopwaitsecs: Seconds::least(),
        stopasgroup: false,
        killasgroup: false,
        redirect_stderr: false,
        stdout: log(rt, Some("/p")),
        stderr: log(rt, stderr),
        environment: Items::new(alloc),
        directory: Text::fixed(""),
        umask: Text::fixed(""),
        user: Text::fixed(""),
    }
}

fn members(rt: &impl Abort, alloc: Global, stderr: Option<&'static str>) -> Items<Spec> {
    let mut members = Items::new(alloc);
    let process = process(rt, alloc, stderr);
    members.push(process).expect(rt, "ample memory");
    members
}

fn group(
    rt: &impl Abort,
    alloc: Global,
    name: &'static str,
    stderr: Option<&'static str>,
) -> GroupSpec {
    GroupSpec {
        name: Text::fixed(name),
        priority: 999,
        members: members(rt, alloc, stderr),
        pool: None,
    }
}

fn groups(rt: &impl Abort, alloc: Global) -> Groups {
    let mut groups = Vec::new(alloc);
    put_group(rt, alloc, &mut groups, "g", Some("/e"));
    put_group(rt, alloc, &mut groups, "h", None);
    Groups::new(groups).expect(rt, "a roster")
}

fn put_group(
    rt: &impl Abort,
    alloc: Global,
    groups: &mut Vec<GroupSpec>,
    name: &'static str,
    stderr: Option<&'static str>,
) {
    let group = group(rt, alloc, name, stderr);
    groups.push(group).expect(rt, "ample memory");
}

fn config(rt: &impl Abort, alloc: Global) -> Config {
    Config {
        identifier: Text::fixed("sv"),
        main: log(rt, Some("/m")),
        level: Level::Info,
        groups: groups(rt, alloc),
        servers: Items::new(alloc),
        client: ClientSpec {
            url: Text::fixed(""),
            username: Text::fixed(""),
            password: Text::fixed(""),
        },
        rpc: false,
    }
}

fn put(rt: &impl Abort, alloc: Global, shelf: &mut MapShelf, name: &str, held: &str) {
    let bytes = Bytes::from_slice(alloc, held.as_bytes()).expect(rt, "memory");
    let name = Text::from_str(alloc, name).expect(rt, "memory");
    shelf.set(name, bytes).expect(rt, "memory");
}

/// A shelf with the files `/m` and `/p` and one that is no log, which fails at this call.
fn shelf(rt: &impl Abort, alloc: Global, call: u64) -> MapShelf {
    let mut failing = Vec::new(alloc);
    failing.push(call).expect(rt, "memory");
    let mut shelf = MapShelf::new(alloc, failing);
    put(rt, alloc, &mut shelf, "/m", "abc");
    put(rt, alloc, &mut shelf, "/p", "0123456789");
    put(rt, alloc, &mut shelf, "/x", "x");
    shelf
}

/// The sizes, each after its file.
fn sizes_told(rt: &impl Abort, alloc: Global, sizes: &[(Text, u64)]) -> String {
    let mut text = String::new(alloc);
    for (file, size) in sizes {
        put_size(rt, &mut text, file.as_str(), *size);
    }
    text
}

/// Adds a size, after a space where others stand before it.
fn put_size(rt: &impl Abort, text: &mut String, file: &str, size: u64) {
    let before = if text.is_empty() { "" } else { " " };
    write!(text, "{before}{file}={size}").expect(rt, "memory");
}

fn failure_told(rt: &impl Abort, alloc: Global, file: &str) -> String {
    format!(in alloc; "failed {file}").expect(rt, "memory")
}

fn told(rt: &impl Abort, alloc: Global, config: &Config, shelf: &mut MapShelf) -> String {
    match sizes_of(alloc, config, shelf) {
        Ok(sizes) => sizes_told(rt, alloc, sizes.as_slice()),
        Err(SizesFault::Failed(file)) => failure_told(rt, alloc, file.as_str()),
        Err(SizesFault::OutOfMemory) => panic!(rt; "out of memory"),
    }
}

fn is_told(rt: &impl Abort, alloc: Global, config: &Config, shelf: &mut MapShelf, expected: &str) {
    let text = told(rt, alloc, config, shelf);
    same(rt, text.as_str(), expected);
}

fn call_is(rt: &impl Abort, alloc: Global, config: &Config, call: u64, expected: &str) {
    let mut shelf = shelf(rt, alloc, call);
    is_told(rt, alloc, config, &mut shelf, expected);
    let failed = if call == 0 { 0 } else { 1 };
    assert!(rt; shelf.faults() == failed, "{call}");
}

#[test]
fn each_log_file_is_asked_once(rt: HostRuntime) {
    let config = config(&rt, rt.alloc());
    for &(call, expected) in &TOLD {
        call_is(&rt, rt.alloc(), &config, call, expected);
    }
}
