//! Starting, stopping and signalling, and texts for a process and for the listeners: what is asked for, or the fault.

use crate::made::{is_text, made};
use crate::said::say_planned;
use crate::scenes::{BUSY, DOWN, ENDED, NOW, Scene, UP, running, stand};
use crate::told::call;
use std::alloc::Global;
use std::process::Abort;
use sv_base::moment::Moment;
use sv_methods::{Planned, plan};
use sv_xmlcall::call::Call;

// Each line is a call and what comes of it: the requests, whether the answer waits for the children, whether it is
// a status array, the name, and the rows.

/// Over the busy processes: cat:cat RUNNING, web:a STOPPED, web:b STARTING, w:one BACKOFF, w:w STOPPING, z:q EXITED.
const ON_BUSY: &str = "startProcess web:a => start 1 | wait one web:a | started 1
startProcess web:a true => start 1 | wait one web:a | started 1
startProcess web:a false => start 1 | now one web:a | started 1
startProcess z:q => start 5 | wait one z:q | started 5
startProcess w:w => start 4 | wait one w:w | started 4
startProcess w false => start 4 | now one w | started 4
startProcess cat => fault 60 ALREADY_STARTED: cat
startProcess cat:cat false => fault 60 ALREADY_STARTED: cat:cat
startProcess web:b => fault 60 ALREADY_STARTED: web:b
startProcess w:one => fault 60 ALREADY_STARTED: w:one
startProcess web => fault 10 BAD_NAME: web
startProcess a => fault 10 BAD_NAME: a
startProcess z => fault 10 BAD_NAME: z
startProcess CAT => fault 10 BAD_NAME: CAT
startProcess web:nope => fault 10 BAD_NAME: web:nope
startProcess nope:* => fault 10 BAD_NAME: nope:*
startProcess nope: => fault 10 BAD_NAME: nope:
startProcess w:one:one => fault 10 BAD_NAME: w:one:one
startProcess : => fault 10 BAD_NAME: :
startProcess *:* => fault 10 BAD_NAME: *:*
startProcess web:* => start 1 | wait array web:* | started 1
startProcess web: false => start 1 | now array web: | started 1
startProcess w:* => start 4 | wait array w:* | started 4
startProcess cat:* => none | wait array cat:* | none
startProcessGroup web => start 1 | wait array web | started 1
startProcessGroup web false => start 1 | now array web | started 1
startProcessGroup w true => start 4 | wait array w | started 4
startProcessGroup z => start 5 | wait array z | started 5
startProcessGroup cat => none | wait array cat | none
startProcessGroup web:* => fault 10 BAD_NAME: web:*
startProcessGroup web: => fault 10 BAD_NAME: web:
startProcessGroup web:a => fault 10 BAD_NAME: web:a
startProcessGroup nope => fault 10 BAD_NAME: nope
startAllProcesses => start 1;start 4;start 5 | wait array - | started 1;started 4;started 5
startAllProcesses true => start 1;start 4;start 5 | wait array - | started 1;started 4;started 5
startAllProcesses false => start 1;start 4;start 5 | now array - | started 1;started 4;started 5
stopProcess cat => stop 0 | wait one cat | stopped 0
stopProcess cat:cat false => stop 0 | now one cat:cat | stopped 0
stopProcess web:b true => stop 2 | wait one web:b | stopped 2
stopProcess w:one => stop 3 | wait one w:one | stopped 3
stopProcess web:a => fault 70 NOT_RUNNING: web:a
stopProcess w => fault 70 NOT_RUNNING: w
stopProcess z:q false => fault 70 NOT_RUNNING: z:q
stopProcess nope => fault 10 BAD_NAME: nope
stopProcess web => fault 10 BAD_NAME: web
stopProcess web:* => stop 2 | wait array web:* | stopped 2
stopProcess w: false => stop 3 | now array w: | stopped 3
stopProcess z:* => none | wait array z:* | none
stopProcessGroup web => stop 2 | wait array web | stopped 2
stopProcessGroup z false => none | now array z | none
stopProcessGroup nope => fault 10 BAD_NAME: nope
stopProcessGroup cat:* => fault 10 BAD_NAME: cat:*
stopProcessGroup cat:cat => fault 10 BAD_NAME: cat:cat
stopAllProcesses => stop 3;stop 2;stop 0 | wait array - | stopped 3;stopped 2;stopped 0
stopAllProcesses false => stop 3;stop 2;stop 0 | now array - | stopped 3;stopped 2;stopped 0
signalProcess cat HUP => kill 0 HUP | now one cat | signalled 0
signalProcess cat sigterm => kill 0 TERM | now one cat | signalled 0
signalProcess web:b SIGUSR1 => kill 2 USR1 | now one web:b | signalled 2
signalProcess w '15 => kill 4 TERM | now one w | signalled 4
signalProcess w:one TERM => fault 70 NOT_RUNNING: w:one
signalProcess web:a KILL => fault 70 NOT_RUNNING: web:a
signalProcess z:q KILL => fault 70 NOT_RUNNING: z:q
signalProcess nope TERM => fault 10 BAD_NAME: nope
signalProcess nope WINCH => fault 10 BAD_NAME: nope
signalProcess cat WINCH => fault 11 BAD_SIGNAL: WINCH
signalProcess web:a WINCH => fault 11 BAD_SIGNAL: WINCH
signalProcess cat '09 => fault 11 BAD_SIGNAL: 09
signalProcess web:* INT => kill 2 INT | now array web:* | signalled 2
signalProcess w: QUIT => kill 4 QUIT | now array w: | signalled 4
signalProcess z:* TERM => none | now array z:* | none
signalProcess web:* WINCH => fault 11 BAD_SIGNAL: WINCH
signalProcessGroup w USR2 => kill 4 USR2 | now array w | signalled 4
signalProcessGroup cat '9 => kill 0 KILL | now array cat | signalled 0
signalProcessGroup z TERM => none | now array z | none
signalProcessGroup nope TERM => fault 10 BAD_NAME: nope
signalProcessGroup nope WINCH => fault 10 BAD_NAME: nope
signalProcessGroup web:* TERM => fault 10 BAD_NAME: web:*
signalProcessGroup w:w TERM => fault 10 BAD_NAME: w:w
signalProcessGroup w WINCH => fault 11 BAD_SIGNAL: WINCH
signalAllProcesses TERM => kill 0 TERM;kill 2 TERM;kill 4 TERM | now array - | signalled 0;signalled 2;signalled 4
signalAllProcesses WINCH => fault 11 BAD_SIGNAL: WINCH
sendProcessStdin cat hello => stdin 0 'hello' | now one cat | none
sendProcessStdin cat:cat é => stdin 0 'é' | now one cat:cat | none
sendProcessStdin cat ' => stdin 0 '' | now one cat | none
sendProcessStdin web:b x => fault 20 NO_FILE: web:b
sendProcessStdin web:a x => fault 70 NOT_RUNNING: web:a
sendProcessStdin w:one x => fault 70 NOT_RUNNING: w:one
sendProcessStdin w x => fault 70 NOT_RUNNING: w
sendProcessStdin z:q x => fault 70 NOT_RUNNING: z:q
sendProcessStdin web:* x => fault 10 BAD_NAME: web:*
sendProcessStdin cat: x => fault 10 BAD_NAME: cat:
sendProcessStdin nope x => fault 10 BAD_NAME: nope
sendRemoteCommEvent sort content => remote 'sort' 'content' | now one - | none
sendRemoteCommEvent ' ' => remote '' '' | now one - | none
shutdown => shutdown | now one - | none";

/// Over the ended processes: cat:cat FATAL, web:a STOPPED, web:b RUNNING, w:one UNKNOWN, w:w BACKOFF, z:q FATAL.
const ON_ENDED: &str = "startProcess cat => start 0 | wait one cat | started 0
startProcess w:one => start 3 | wait one w:one | started 3
startProcess w => fault 60 ALREADY_STARTED: w
startProcess w:* => start 3 | wait array w:* | started 3
startProcessGroup cat => start 0 | wait array cat | started 0
startAllProcesses => start 0;start 1;start 3;start 5 | wait array - | started 0;started 1;started 3;started 5
stopProcess cat => fault 70 NOT_RUNNING: cat
stopProcess w:one => fault 70 NOT_RUNNING: w:one
stopProcess w => stop 4 | wait one w | stopped 4
stopProcessGroup w => stop 4 | wait array w | stopped 4
stopAllProcesses => stop 4;stop 2 | wait array - | stopped 4;stopped 2
signalProcess cat TERM => fault 70 NOT_RUNNING: cat
signalProcess w:one TERM => fault 70 NOT_RUNNING: w:one
signalAllProcesses '9 => kill 2 KILL | now array - | signalled 2
sendProcessStdin web:b x => stdin 2 'x' | now one web:b | none
sendProcessStdin cat x => fault 70 NOT_RUNNING: cat
sendProcessStdin w:one x => fault 70 NOT_RUNNING: w:one";

/// Over processes that are all up or about to be.
const ON_UP: &str = "startAllProcesses => none | wait array - | none
startProcessGroup web => none | wait array web | none
stopProcessGroup web => stop 2;stop 1 | wait array web | stopped 2;stopped 1
stopProcess web:* false => stop 2;stop 1 | now array web:* | stopped 2;stopped 1
stopAllProcesses => stop 5;stop 4;stop 3;stop 2;stop 1;stop 0 | wait array - | stopped 5;stopped 4;stopped 3;stopped 2;stopped 1;stopped 0
signalProcessGroup web HUP => kill 1 HUP;kill 2 HUP | now array web | signalled 1;signalled 2
signalProcess web: HUP => kill 1 HUP;kill 2 HUP | now array web: | signalled 1;signalled 2
signalProcessGroup w INT => kill 4 INT | now array w | signalled 4
signalAllProcesses USR1 => kill 0 USR1;kill 1 USR1;kill 2 USR1;kill 4 USR1;kill 5 USR1 | now array - | signalled 0;signalled 1;signalled 2;signalled 4;signalled 5";

/// Over processes that were never started.
const ON_DOWN: &str =
    "startProcessGroup web => start 1;start 2 | wait array web | started 1;started 2
startProcess w:* false => start 3;start 4 | now array w:* | started 3;started 4
startAllProcesses => start 0;start 1;start 2;start 3;start 4;start 5 | wait array - | started 0;started 1;started 2;started 3;started 4;started 5
stopAllProcesses => none | wait array - | none
stopProcessGroup web => none | wait array web | none
signalAllProcesses HUP => none | now array - | none
signalProcess w HUP => fault 70 NOT_RUNNING: w";

/// Names that are empty.
const EMPTY: &str =
    "startProcess ' => fault 10 BAD_NAME: \nstopProcessGroup ' => fault 10 BAD_NAME: \nsignalProcess cat ' => fault 11 BAD_SIGNAL: ";

/// The moment of all calls.
fn now(rt: &impl Abort) -> Moment {
    Moment::new(NOW).expect(rt, "a moment")
}

/// What comes of a call.
pub fn outcome_of(rt: &impl Abort, alloc: Global, scene: &Scene, call: &Call) -> Planned {
    made(rt, plan(alloc, &stand(scene), call, now(rt)))
}

/// What comes of the call of a line.
fn outcome(rt: &impl Abort, alloc: Global, scene: &Scene, line: &str) -> Planned {
    outcome_of(rt, alloc, scene, &call(rt, alloc, line))
}

/// What comes of the call of a line over these processes.
pub fn outcome_over(rt: &impl Abort, alloc: Global, lives: &str, line: &str) -> Planned {
    outcome(rt, alloc, &running(rt, alloc, lives), line)
}

/// What came of a call, in words.
fn said(rt: &impl Abort, alloc: Global, planned: &Planned) -> String {
    let mut said = String::new(alloc);
    say_planned(rt, &mut said, planned);
    said
}

/// The call of a line of a table gives what the line says.
fn comes_out(rt: &impl Abort, alloc: Global, scene: &Scene, row: &str) {
    let (line, wanted) = row.split_once(" => ").expect(rt, "two cells");
    let said = said(rt, alloc, &outcome(rt, alloc, scene, line));
    is_text(rt, said.as_str(), wanted);
}

/// Each call of a table gives what its line says.
pub fn all_come_out(rt: &impl Abort, alloc: Global, scene: &Scene, rows: &str) {
    for row in rows.split('\n') {
        comes_out(rt, alloc, scene, row);
    }
}

/// Each call of a table gives what its line says over these processes.
pub fn come_out_over(rt: &impl Abort, alloc: Global, lives: &str, rows: &str) {
    all_come_out(rt, alloc, &running(rt, alloc, lives), rows);
}

#[test]
fn acts_on_processes(rt: HostRuntime) {
    let alloc = rt.alloc();
    come_out_over(&rt, alloc, BUSY, ON_BUSY);
    come_out_over(&rt, alloc, ENDED, ON_ENDED);
    come_out_over(&rt, alloc, UP, ON_UP);
    come_out_over(&rt, alloc, DOWN, ON_DOWN);
    come_out_over(&rt, alloc, BUSY, EMPTY);
}
