//! `sv_replay run`: a recorded journal from standard input through the daemon's machine, its orders to standard output; and
//! `sv_replay gen N`: a generated run through it, of which one line goes there.
#![tactic(auto)]

use std::process::ExitCode;
use std::{env, io};
use sv_loop::replay;
use sv_os::{ReadSource, WriteSink, words_of, words_untold};

fn main(rt: HostRuntime) -> ExitCode {
    let words = match env::args(&rt) {
        Ok(arguments) => words_of(rt.alloc(), arguments),
        Err(fault) => words_untold(rt.alloc(), fault.kind()),
    };
    let Ok(words) = words else {
        return ExitCode::from(3);
    };
    let mut source = ReadSource::new(rt.reader());
    let mut sink = WriteSink::new(io::writer(&rt));
    ExitCode::from(replay(rt.alloc(), words.as_slice(), &mut source, &mut sink))
}
