//! The machine as it is told to a configuration.

use crate::checks::{check, same};
use std::alloc::Global;
use std::env::FillError;
use std::process;
use std::process::Abort;
use std::rt::Env;
use std::time::Duration;
use sv_base::{Host, Moment, Text};
use sv_os::{OsClock, directory_of, environment_of, host_of, moment_of};
use sv_outside::Clock;

/// The machine is told as it is for this process.
fn is_told(rt: &impl Abort, host: &Host, pid: u32) {
    check(rt, host.pid == pid && host.here.as_str() == "/etc");
    check(
        rt,
        !host.name.as_str().is_empty() && !host.name.as_str().ends_with('\n'),
    );
    check(rt, Moment::zero() < host.start);
}

#[test]
fn the_machine_is_told(rt: HostRuntime) {
    let pid = process::id(rt.process());
    let host = host_of(&rt, pid, Some("/etc/s.conf")).expect(&rt, "ample memory");
    is_told(&rt, &host, pid);
}

/// An environment with these entries.
#[derive(Drop)]
struct Entries<'a>(&'a [&'a [u8]]);

impl Env for Entries<'_> {
    ghost use Rattle.std.specs.Io.{WritesAtMost};

    fn arg(&self, _i: usize, _buf: &mut [u8]) -> Result<usize, FillError> {
        Err(FillError::NotPresent)
    }

    fn var(&self, _name: &str, _buf: &mut [u8]) -> Result<usize, FillError> {
        Err(FillError::NotPresent)
    }

    fn var_at(&self, i: usize, buf: &mut [u8]) -> Result<usize, FillError> {
        let Some(entry) = self.0.get(i) else {
            return Err(FillError::NotPresent);
        };
        if buf.len() < entry.len() {
            return Err(FillError::TooLong);
        }
        buf[..entry.len()].copy_from_slice(entry);
        Ok(entry.len())
    }
}

/// The entry of `L`, whose value has 700 bytes.
fn long_entry(rt: &impl Abort, alloc: Global) -> Vec<u8> {
    let mut entry = Vec::from_slice(alloc, b"L=".as_slice()).expect(rt, "ample memory");
    entry
        .extend_from_slice([b'x'; 700].as_slice())
        .expect(rt, "ample memory");
    entry
}

/// Whether these are the variables of the entries.
fn are_wanted(variables: &[(Text, Text)]) -> bool {
    match variables {
        [(l, many), (a, first), (b, second), (d, last)] => {
            (l.as_str() == "L" && many.as_str().len() == 700)
                && (a.as_str() == "a" && first.as_str() == "1=1")
                && (b.as_str() == "b" && second.as_str() == "2")
                && (d.as_str() == "d" && last.as_str().is_empty())
        }
        _ => false,
    }
}

/// Four of these entries, and this one, are variables.
fn are_variables(rt: &impl Abort, alloc: Global, long: &[u8]) {
    let entries = [
        b"b=2".as_slice(),
        long,
        b"a=1=1".as_slice(),
        b"b=3".as_slice(),
        b"=none".as_slice(),
        b"plain".as_slice(),
        b"\xff=1".as_slice(),
        b"c=\xff".as_slice(),
        b"d=".as_slice(),
    ];
    let variables = environment_of(alloc, &Entries(entries.as_slice())).expect(rt, "ample memory");
    check(rt, are_wanted(variables.as_slice()));
}

#[test]
fn variables_rise_by_name(rt: HostRuntime) {
    let long = long_entry(&rt, rt.alloc());
    are_variables(&rt, rt.alloc(), long.as_slice());
}

/// A file with this name, read from this directory on, stands in that directory.
fn stands_in(rt: &impl Abort, alloc: Global, current: &str, file: &str, directory: &str) {
    let found = directory_of(alloc, current, file).expect(rt, "ample memory");
    same(rt, found.as_str(), directory);
}

#[test]
fn files_stand_in_directories(rt: HostRuntime) {
    let rows = [
        ("/home", "s.conf", "/home"),
        ("/home", "etc/s.conf", "/home/etc"),
        ("/home", "./s.conf", "/home"),
        ("/home", "/etc/s.conf", "/etc"),
        ("/home", "/s.conf", "/"),
        ("/", "s.conf", "/"),
        ("/home", "../s.conf", "/home/.."),
    ];
    for (current, file, directory) in rows {
        stands_in(&rt, rt.alloc(), current, file, directory);
    }
}

#[test]
fn time_has_its_limits(rt: HostRuntime) {
    check(
        &rt,
        moment_of(Duration::from_micros(1_999)).milliseconds() == 1,
    );
    let late = moment_of(Duration::from_secs(253_000_000_001));
    check(&rt, late.milliseconds() == 253_000_000_000_000);
    let mut clock = OsClock::new(rt);
    let before = clock.now();
    check(&rt, Moment::zero() < before);
    clock.pause(2);
    check(&rt, before < clock.now());
}
