//! `crashreport`: an event listener that writes a line to its standard error for each process that exited unexpectedly.
#![tactic(auto)]

use std::process::ExitCode;
use sv_listener::report;
use sv_os::{ReadSource, WriteSink};

fn main(rt: HostRuntime) -> ExitCode {
    let mut source = ReadSource::new(rt.stdin());
    let mut sink = WriteSink::new(rt.stdout());
    let mut out = WriteSink::new(rt.stderr());
    ExitCode::from(report(rt.alloc(), &mut source, &mut sink, &mut out))
}
