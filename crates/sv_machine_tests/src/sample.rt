//! Processes, groups and configurations that say no more than a test asks for.
use std::alloc::Global;
use std::process::Abort;
use sv_base::config::{ClientSpec, Config};
use sv_base::groups::Groups;
use sv_base::items::Items;
use sv_base::moment::Moment;
use sv_base::number::{Backups, CaptureBytes, Retries, Seconds};
use sv_base::signal::Signal;
use sv_base::spec::{GroupSpec, LogSpec, Spec};
use sv_base::state::{Autorestart, Level};
use sv_base::text::Text;
use sv_groups::Roster;

/// A log without a file.
pub fn no_log() -> LogSpec {
    LogSpec {
        file: None,
        maxbytes: 0,
        backups: Backups::least(),
        capture: CaptureBytes::least(),
        events: false,
    }
}

/// A process without logs.
pub fn process(alloc: Global, group: &'static str, name: &'static str) -> Spec {
    logging(alloc, group, name, no_log(), no_log())
}

/// A process with these logs that is never started again, whose times and numbers are the least that they may be, and
/// which is stopped by TERM.
pub fn logging(
    alloc: Global,
    group: &'static str,
    name: &'static str,
    stdout: LogSpec,
    stderr: LogSpec,
) -> Spec {
    Spec {
        group: Text::fixed(group),
        name: Text::fixed(name),
        words: Items::new(alloc),
        priority: 999,
        autostart: true,
        startsecs: Seconds::least(),
        startretries: Retries::least(),
        autorestart: Autorestart::Never,
        exitcodes: Items::new(alloc),
        stopsignal: Signal::Term,
        stopwaitsecs: Seconds::least(),
        stopasgroup: false,
        killasgroup: false,
        redirect_stderr: false,
        stdout,
        stderr,
        environment: Items::new(alloc),
        directory: Text::fixed(""),
        umask: Text::fixed(""),
        user: Text::fixed(""),
    }
}

/// Processes with these names in a group of this name.
pub fn processes(
    rt: &impl Abort,
    alloc: Global,
    group: &'static str,
    names: &[&'static str],
) -> Items<Spec> {
    let mut specs = Items::new(alloc);
    for name in names {
        specs
            .push(process(alloc, group, *name))
            .expect(rt, "memory");
    }
    specs
}

/// A group of these processes, without a pool.
pub fn group(name: Text, members: Items<Spec>) -> GroupSpec {
    GroupSpec {
        name,
        priority: 999,
        members,
        pool: None,
    }
}

/// A group of this process alone, without a pool.
pub fn group_of_one(rt: &impl Abort, alloc: Global, name: &'static str, spec: Spec) -> GroupSpec {
    let mut members = Items::new(alloc);
    members.push(spec).expect(rt, "memory");
    group(Text::fixed(name), members)
}

/// A daemon of these groups with this main log, without servers.
pub fn config(rt: &impl Abort, alloc: Global, main: LogSpec, groups: Vec<GroupSpec>) -> Config {
    Config {
        identifier: Text::fixed("sv"),
        main,
        level: Level::Info,
        groups: Groups::new(groups).expect(rt, "a roster"),
        servers: Items::new(alloc),
        client: ClientSpec {
            url: Text::fixed(""),
            username: Text::fixed(""),
            password: Text::fixed(""),
        },
        rpc: false,
    }
}

/// The roster of these groups.
pub fn roster(rt: &impl Abort, alloc: Global, groups: Vec<GroupSpec>) -> Roster {
    let config = config(rt, alloc, no_log(), groups);
    let roster = Roster::new(alloc, &config);
    drop(config);
    roster.expect(rt, "memory")
}

pub fn seconds(rt: &impl Abort, number: u32) -> Seconds {
    Seconds::new(number).expect(rt, "seconds")
}

pub fn moment(rt: &impl Abort, milliseconds: u64) -> Moment {
    Moment::new(milliseconds).expect(rt, "a moment")
}
