//! A listener with a handler of its own.

ghost use Rattle.sv_listener.specs.declared.events.Heard.{Heard};

use crate::checks::check;
use std::alloc::Global;
use std::process::Abort;
use sv_listener::{HandleFault, Handler, Heard, ListenEnd, Verdict, listen};
use sv_out::sink::ListSink;
use sv_out::source::ListSource;

// Three events, of pools a and b, and a header line that is faulty.
const STREAM: &[u8] =
    b"ver:3.0 server:s serial:1 pool:a poolserial:0 eventname:TICK_5 len:6\nwhen:5ver:3.0 server:s serial:2 pool:b poolserial:0 eventname:TICK_5 len:0\nver:3.0 server:s serial:3 pool:a poolserial:1 eventname:EVENT len:1\n\nREADY\n";

/// Answers OK to the events of pool a, and FAIL to others; fails, or lacks memory, at the event of this serial.
#[derive(Drop)]
struct Judge {
    stops_at: u64,
    fault: HandleFault,
    faults: u64,
}

impl Handler for Judge {
    ghost told = { λ old new events verdicts. Unit {0} };

    ghost faults = { λ judge. judge.faults };

    fn handle(&mut self, event: &Heard) -> Result<Verdict, HandleFault> {
        if event.serial == self.stops_at {
            self.faults = self.faults.saturating_add(1);
            return Err(self.fault);
        }
        if event.pool.as_str() == "a" {
            Ok(Verdict::Ok)
        } else {
            Ok(Verdict::Fail)
        }
    }

    ghost nothing = { λ judge. tt };

    ghost further = { λ first middle last events more verdicts others each one two. tt };
}

/// The event at which the handler stops and why, the call of the sink that fails, how it ends, and what was said.
type Run = (u64, HandleFault, u64, ListenEnd, &'static str);

// The sink takes 50 bytes a call, and all answers have 53; they came together, so they take its calls 2 and 3.
static RUNS: [Run; 6] = [
    (
        0,
        HandleFault::Failed,
        4,
        ListenEnd::Broken,
        "READY\nRESULT 2\nOKREADY\nRESULT 4\nFAILREADY\nRESULT 2\nOKREADY\n",
    ),
    (
        3,
        HandleFault::Failed,
        3,
        ListenEnd::HandlerFailed,
        "READY\nRESULT 2\nOKREADY\nRESULT 4\nFAILREADY\n",
    ),
    (
        1,
        HandleFault::Failed,
        0,
        ListenEnd::HandlerFailed,
        "READY\n",
    ),
    (
        2,
        HandleFault::OutOfMemory,
        0,
        ListenEnd::OutOfMemory,
        "READY\nRESULT 2\nOKREADY\n",
    ),
    (
        0,
        HandleFault::Failed,
        3,
        ListenEnd::SinkFailed,
        "READY\nRESULT 2\nOKREADY\nRESULT 4\nFAILREADY\nRESULT 2\nOKREA",
    ),
    (
        3,
        HandleFault::Failed,
        2,
        ListenEnd::HandlerFailed,
        "READY\n",
    ),
];

fn play(
    rt: &impl Abort,
    alloc: Global,
    stops_at: u64,
    fault: HandleFault,
    sink_fails: u64,
    end: ListenEnd,
    said: &str,
) {
    let bytes = Vec::from_slice(alloc, STREAM).expect(rt, "ample memory");
    let failing = Vec::from_slice(alloc, &[sink_fails]).expect(rt, "ample memory");
    let mut source = ListSource::new(bytes, 65_536, Vec::new(alloc));
    let mut sink = ListSink::new(alloc, 50, failing);
    let mut judge = Judge {
        stops_at,
        fault,
        faults: 0,
    };
    check(rt, listen(alloc, &mut source, &mut sink, &mut judge) == end);
    check(rt, sink.written() == said.as_bytes());
}

#[test]
fn each_event_gets_its_result(rt: HostRuntime) {
    for &(stops_at, fault, sink_fails, end, said) in &RUNS {
        play(&rt, rt.alloc(), stops_at, fault, sink_fails, end, said);
    }
}
