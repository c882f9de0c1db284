//! `supervisord`: the daemon. It looks at its configuration, opens the addresses, and supervises over the machine it runs on.
#![tactic(auto)]

mod addresses;
mod ending;
mod greeting;
mod parts;
mod preparing;
mod rules;
mod serving;
mod settings_word;
mod streams;
mod told;
mod unbegun;
mod users;

use crossbeam_channel::Receiver;
use ending::NO_MEMORY;
use preparing::{Given, Numbers, given_by, prepare};
use serving::{DaemonJob, run};
use std::alloc::AllocError;
use std::io::{Eprint, Print, Stdin, Write};
use std::os::unix::process::parent_id;
use std::process::ExitCode;
use std::rt::{Env, Runtime};
use std::sync::Wait;
use std::thread::Threads;
use std::{env, process, thread};
use streams::{StreamEnds, loss_line};
use sv_os::{WriteSink, words_of, words_untold};
use sv_sockets::{Errand, OsGate, receive_and_work, receive_and_work_all};
use sv_standard::pour;
use unbegun::Unbegun;

/// The status where an address can't be opened, or a setting can't be read.
const REFUSED: u8 = 2;

/// How many threads are made at the start, for the links that come when no further one can be made.
const SPARE_THREADS: u32 = 2;

fn main(rt: HostRuntime) -> ExitCode {
    let numbers = Numbers {
        own: process::id(rt.process()),
        parent: parent_id(rt.process()),
    };
    let Ok(given) = given_words(&rt, numbers) else {
        return ExitCode::from(NO_MEMORY);
    };
    let mut errors = WriteSink::new(rt.stderr());
    let (prepared, ends, gate) = match prepare(rt, &given, numbers.parent, &mut errors) {
        Ok(beginning) => beginning,
        Err(unbegun) => return ExitCode::from(said(rt, unbegun)),
    };
    start_writers(rt, ends, rt.stdout(), rt.stderr());
    let (work, links, teller, spare) = gate.into_parts();
    for _ in 0..SPARE_THREADS {
        if let Ok(from) = spare.receiver() {
            let _ = thread::spawn(&rt, move || receive_and_work_all(&rt, &from));
        }
    }
    let starts = move |from: Receiver<Errand<DaemonJob<HostRuntime, Stdin>>>| {
        thread::spawn(&rt, move || receive_and_work(&rt, &from)).is_ok()
    };
    let gate = OsGate::new(rt, rt.alloc(), work, links, teller, spare, starts);
    ExitCode::from(run(rt, rt.stdin(), errors, given, prepared, gate))
}

/// What the process of these numbers is given by the words after the program's name.
fn given_words<R: Runtime + Env + AllocGlobal>(
    rt: &R,
    numbers: Numbers,
) -> Result<Given, AllocError> {
    let words = match env::args(rt) {
        Ok(arguments) => words_of(rt.alloc(), arguments)?,
        Err(fault) => words_untold(rt.alloc(), fault.kind())?,
    };
    given_by(rt, words, numbers)
}

/// Starts the threads that write standard output and standard error. What one that can't be made would have written is lost.
fn start_writers<
    R: Threads + Wait + AllocGlobal + Copy + Send + Drop + 'static,
    O: Write + Send + Drop + 'static,
    E: Write + Send + Drop + 'static,
>(rt: R, ends: StreamEnds<R>, out: O, err: E) {
    let (out_end, err_end, teller, journal) = ends.into_parts();
    let _ = thread::spawn(&rt, move || pour(&rt, &err_end, err, |_| {}));
    let _ = thread::spawn(&rt, move || {
        pour(&rt, &out_end, out, |error| {
            if let Ok(line) = loss_line(rt.alloc(), journal, error) {
                teller.tell(rt.alloc(), line.as_str());
            }
        })
    });
}

/// Says why the daemon isn't begun: its status.
fn said<R: Print + Eprint + Copy>(rt: R, unbegun: Unbegun) -> u8 {
    match unbegun {
        Unbegun::Refused(line) => {
            let _ = eprint!(rt; "{}", line.as_str());
            REFUSED
        }
        Unbegun::Told(lines) => {
            let _ = print!(rt; "{}", lines.as_str());
            0
        }
        Unbegun::Ended(status) => status,
        Unbegun::OutOfMemory => NO_MEMORY,
    }
}
