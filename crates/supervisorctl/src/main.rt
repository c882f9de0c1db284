//! `supervisorctl`: asks the daemon's server what the words say, and prints what it answers.
#![tactic(auto)]

use std::alloc::AllocError;
use std::process::ExitCode;
use std::{env, io, process};
use sv_base::{Host, Text};
use sv_ctl::{Options, options_of, parted};
use sv_disk::OsShelf;
use sv_follow::command;
use sv_os::{OsClock, ReadSource, WriteSink, host_of, words_of, words_untold};
use sv_sockets::OsDial;

/// The status where memory was refused.
const NO_MEMORY: u8 = 6;

fn main(rt: HostRuntime) -> ExitCode {
    let words = match env::args(&rt) {
        Ok(arguments) => words_of(rt.alloc(), arguments),
        Err(fault) => words_untold(rt.alloc(), fault.kind()),
    };
    let Ok(words) = words else {
        return ExitCode::from(NO_MEMORY);
    };
    let Ok(host) = machine_of(&rt, words.as_slice()) else {
        return ExitCode::from(NO_MEMORY);
    };
    let mut shelf = OsShelf::new(rt);
    let mut dial = OsDial::new(&rt);
    let mut input = ReadSource::new(rt.reader());
    let mut clock = OsClock::new(rt);
    let mut out = WriteSink::new(io::writer(&rt));
    ExitCode::from(command(
        rt.alloc(),
        words.as_slice(),
        &host,
        &mut shelf,
        &mut dial,
        &mut input,
        &mut clock,
        &mut out,
    ))
}

/// The machine, with the configuration file that the words name.
fn machine_of(rt: &HostRuntime, words: &[Text]) -> Result<Host, AllocError> {
    let pid = process::id(rt.process());
    match &options_of(rt.alloc(), parted(words).0)? {
        Some(
            Options {
                file: Some(file),
                ..
            },
        ) => host_of(rt, pid, Some(file.as_str())),
        _ => host_of(rt, pid, None),
    }
}
