//! `sv_check FILE`: what a configuration of Supervisor means here, place by place; `sv_check --entries FILE`: what it says in
//! Supervisor's reading; `sv_check FILE --write OUT` writes the file so that it means the same here, too.
#![tactic(auto)]

mod checking;
mod escaped;
mod gathered;
mod lines;
mod stopped;

use checking::{Asked, tell, written};
use std::alloc::AllocError;
use std::process::ExitCode;
use std::{env, fs, io, process};
use stopped::{NO_MEMORY, SAME, Stopped, UNREADABLE, UNWRITTEN};
use sv_base::Text;
use sv_disk::OsShelf;
use sv_os::{WriteSink, host_of, words_of, words_untold};
use sv_out::sink::write_all;

const USAGE: &[u8] = b"usage: sv_check FILE [--write OUT] | --entries FILE\n";

fn main(rt: HostRuntime) -> ExitCode {
    let words = match env::args(&rt) {
        Ok(arguments) => words_of(rt.alloc(), arguments),
        Err(fault) => words_untold(rt.alloc(), fault.kind()),
    };
    match words {
        Ok(words) => ExitCode::from(run(rt, words.as_slice())),
        Err(AllocError) => ExitCode::from(NO_MEMORY),
    }
}

/// Does what the words say, and gives the status.
fn run(rt: HostRuntime, words: &[Text]) -> u8 {
    match words {
        [file] => run_on(rt, Asked::Differences, file.as_str()),
        [word, file] if word.as_str() == "--entries" => {
            run_on(rt, Asked::Entries, file.as_str())
        }
        [file, word, out] if word.as_str() == "--write" => {
            match write_to(rt, file.as_str(), out.as_str()) {
                SAME => run_on(rt, Asked::Differences, file.as_str()),
                status => status,
            }
        }
        _ => refuse(rt),
    }
}

/// Tells what is asked of a file.
fn run_on(rt: HostRuntime, asked: Asked, file: &str) -> u8 {
    let pid = process::id(rt.process());
    let Ok(host) = host_of(&rt, pid, Some(file)) else {
        return NO_MEMORY;
    };
    let mut shelf = OsShelf::new(rt);
    let mut out = WriteSink::new(io::writer(&rt));
    tell(rt.alloc(), asked, file, &host, &mut shelf, &mut out)
}

/// Writes the configuration of a file so that it means the same here; nothing where Supervisor refuses it.
fn write_to(rt: HostRuntime, file: &str, out: &str) -> u8 {
    let pid = process::id(rt.process());
    let Ok(host) = host_of(&rt, pid, Some(file)) else {
        return NO_MEMORY;
    };
    let mut shelf = OsShelf::new(rt);
    match written(rt.alloc(), file, &host, &mut shelf) {
        Ok(Some(text)) => match fs::write(&rt, out, text.as_bytes()) {
            Ok(()) => SAME,
            Err(_) => UNWRITTEN,
        },
        Ok(None) => SAME,
        Err(Stopped::Unreadable(_)) => UNREADABLE,
        Err(Stopped::OutOfMemory) => NO_MEMORY,
    }
}

/// Refuses the words, with a line that says which there are.
fn refuse(rt: HostRuntime) -> u8 {
    let mut out = WriteSink::new(io::writer(&rt));
    match write_all(&mut out, USAGE) {
        Ok(()) | Err(_) => UNREADABLE,
    }
}
