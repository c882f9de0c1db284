//! Whole runs of the crash reporter.

use crate::checks::check;
use std::alloc::Global;
use std::process::Abort;
use sv_listener::report;
use sv_out::sink::ListSink;
use sv_out::source::ListSource;

// One process ended, and wasn't expected to.
const CRASH: &[u8] =
    b"ver:3.0 server:supervisor serial:0 pool:c poolserial:0 eventname:PROCESS_STATE_EXITED len:62\nprocessname:x groupname:x from_state:RUNNING expected:0 pid:12";

const CRASH_LINE: &str = "x:x (pid 12) exited unexpectedly\n";

// Each line is a body of PROCESS_STATE_EXITED, and after the bar what is told of it.
const BODIES: &str = "\
processname:x groupname:x from_state:RUNNING expected:0 pid:12|x:x (pid 12)
processname:cat groupname:cats from_state:STOPPING expected:0 pid:0|cats:cat (pid 0)
processname: groupname: from_state:UNKNOWN expected:0 pid:4294967295|: (pid 4294967295)
processname:é groupname:g from_state:STARTING expected:0 pid:1|g:é (pid 1)
processname:x groupname:x from_state:RUNNING expected:1 pid:12|
processname:x groupname:x from_state:RUNNING expected:2 pid:12|
processname:x groupname:x from_state:RUNNING expected:0 pid:4294967296|
processname:x groupname:x from_state:RUNNING expected:0 pid:012|
processname:x groupname:x from_state:RUNNING expected:0 pid:+1|
processname:x groupname:x from_state:RUNNING expected:0 pid:|
processname:x groupname:x from_state:RUNNING expected:0 pid:1 |
processname:x groupname:x from_state:RUNNING expected:0|
processname:x groupname:x from_state:running expected:0 pid:12|
processname:x groupname:x from_state:DEAD expected:0 pid:12|
processname:x y groupname:x from_state:RUNNING expected:0 pid:12|
processname:x  groupname:x from_state:RUNNING expected:0 pid:12|
groupname:x processname:x from_state:RUNNING expected:0 pid:12|
 processname:x groupname:x from_state:RUNNING expected:0 pid:12|
|
";

/// How a run is played, and what it gives.
#[derive(Clone, Copy)]
struct Run<'a> {
    /// The most bytes of each read and write.
    size: usize,
    /// The calls that fail of the source, of the sink and of `out`; 0 for none.
    failing: [u64; 3],
    status: u8,
    said: &'a str,
    lines: &'a str,
}

// Streams, and runs that end otherwise.
static ENDS: [(&[u8], Run); 8] = [
    (
        b"ver:3.0 len:x\n",
        Run {
            size: 9,
            failing: [0, 0, 0],
            status: 2,
            said: "READY\n",
            lines: "",
        },
    ),
    (
        CRASH,
        Run {
            size: 9_999,
            failing: [1, 0, 0],
            status: 1,
            said: "READY\n",
            lines: "",
        },
    ),
    (
        CRASH,
        Run {
            size: 9_999,
            failing: [2, 0, 0],
            status: 1,
            said: "READY\nRESULT 2\nOKREADY\n",
            lines: CRASH_LINE,
        },
    ),
    (
        CRASH,
        Run {
            size: 50,
            failing: [3, 0, 0],
            status: 1,
            said: "READY\n",
            lines: "",
        },
    ),
    (
        CRASH,
        Run {
            size: 9_999,
            failing: [0, 1, 0],
            status: 4,
            said: "",
            lines: "",
        },
    ),
    (
        CRASH,
        Run {
            size: 9_999,
            failing: [0, 2, 0],
            status: 4,
            said: "READY\n",
            lines: CRASH_LINE,
        },
    ),
    (
        CRASH,
        Run {
            size: 9_999,
            failing: [0, 0, 1],
            status: 5,
            said: "READY\n",
            lines: "",
        },
    ),
    (
        CRASH,
        Run {
            size: 20,
            failing: [0, 0, 2],
            status: 5,
            said: "READY\n",
            lines: "x:x (pid 12) exited ",
        },
    ),
];

fn play(rt: &impl Abort, alloc: Global, stream: &[u8], run: &Run) {
    let [source_fails, sink_fails, out_fails] = run.failing;
    let bytes = Vec::from_slice(alloc, stream).expect(rt, "ample memory");
    let size = run.size.max(1);
    let mut source = ListSource::new(bytes, size, call(rt, alloc, source_fails));
    let mut sink = ListSink::new(alloc, size, call(rt, alloc, sink_fails));
    let mut out = ListSink::new(alloc, size, call(rt, alloc, out_fails));
    let status = report(alloc, &mut source, &mut sink, &mut out);
    check(rt, status == run.status);
    check(rt, sink.written() == run.said.as_bytes());
    check(rt, out.written() == run.lines.as_bytes());
}

fn call(rt: &impl Abort, alloc: Global, number: u64) -> Vec<u64> {
    Vec::from_slice(alloc, &[number]).expect(rt, "ample memory")
}

#[test]
fn a_crash_is_reported(rt: HostRuntime) {
    // In pieces of each size.
    for size in 1..170 {
        let run = Run {
            size,
            failing: [0, 0, 0],
            status: 0,
            said: "READY\nRESULT 2\nOKREADY\n",
            lines: CRASH_LINE,
        };
        play(&rt, rt.alloc(), CRASH, &run);
    }
    // Cut off after each byte.
    for count in 0..CRASH.len() {
        let run = Run {
            size: 65_536,
            failing: [0, 0, 0],
            status: if count == 0 { 0 } else { 2 },
            said: "READY\n",
            lines: "",
        };
        play(&rt, rt.alloc(), &CRASH[..count], &run);
    }
}

#[test]
fn other_ends(rt: HostRuntime) {
    for &(stream, run) in &ENDS {
        play(&rt, rt.alloc(), stream, &run);
    }
}

/// An event of this type and body.
fn event(rt: &impl Abort, alloc: Global, eventname: &str, body: &str) -> String {
    let size = body.len();
    format!(in alloc;
        "ver:3.0 server:s serial:7 pool:p poolserial:3 eventname:{eventname} len:{size}\n{body}"
    ).expect(rt, "ample memory")
}

fn report_body(rt: &impl Abort, alloc: Global, eventname: &str, body: &str, lines: &str) {
    let event = event(rt, alloc, eventname, body);
    let run = Run {
        size: 65_536,
        failing: [0, 0, 0],
        status: 0,
        said: "READY\nRESULT 2\nOKREADY\n",
        lines,
    };
    play(rt, alloc, event.as_str().as_bytes(), &run);
}

#[test]
fn bodies(rt: HostRuntime) {
    for line in BODIES.lines() {
        let (body, told) = line.split_once('|').expect(&rt, "what is told");
        let lines = if told.is_empty() {
            String::new(rt.alloc())
        } else {
            format!(in rt.alloc(); "{told} exited unexpectedly\n").expect(&rt, "ample memory")
        };
        report_body(
            &rt,
            rt.alloc(),
            "PROCESS_STATE_EXITED",
            body,
            lines.as_str(),
        );
        report_body(&rt, rt.alloc(), "PROCESS_STATE_STOPPED", body, "");
    }
    let behind = "processname:x groupname:x from_state:RUNNING expected:0 pid:12\n";
    report_body(&rt, rt.alloc(), "PROCESS_STATE_EXITED", behind, "");
    let inside = "processname:x\ny groupname:x from_state:RUNNING expected:0 pid:12";
    report_body(&rt, rt.alloc(), "PROCESS_STATE_EXITED", inside, "");
}
