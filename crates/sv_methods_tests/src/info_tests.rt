//! What is said of the daemon and of its processes: the short answers, the structs, and descriptions at their borders.

use crate::act_tests::{come_out_over, outcome_over};
use crate::checks::check_of;
use crate::made::{is_text, made};
use crate::scenes::{BUSY, ENDED};
use std::alloc::{AllocError, Global};
use std::process::Abort;
use sv_base::bytes::Bytes;
use sv_methods::Planned;
use sv_xmlcall::value::Value;
use sv_xmlcall::write::{write_fault, write_reply};

/// Short answers, and names that find no process.
const SHORT: &str = "getAPIVersion => '3.0'
getSupervisorVersion => '4.0.0'
getIdentification => 'the daemon'
getPID => 4294967295
getState => {statecode 1, statename 'RUNNING'}
getProcessInfo nope => fault 10 BAD_NAME: nope
getProcessInfo web => fault 10 BAD_NAME: web
getProcessInfo web:* => fault 10 BAD_NAME: web:*
getProcessInfo cat: => fault 10 BAD_NAME: cat:
getProcessInfo cat:dog => fault 10 BAD_NAME: cat:dog";

/// The busy processes, each by its name.
const ONE_BY_ONE: &str =
    r#"getProcessInfo cat => {name 'cat', group 'cat', description 'pid 12, uptime 0:00:05', start 999999995, stop 0, now 1000000000, state 20, statename 'RUNNING', spawnerr '', exitstatus 0, logfile '/cat.out', stdout_logfile '/cat.out', stderr_logfile '', pid 12}
getProcessInfo web:a => {name 'a', group 'web', description 'Not started', start 0, stop 0, now 1000000000, state 0, statename 'STOPPED', spawnerr '', exitstatus 0, logfile '/a.out', stdout_logfile '/a.out', stderr_logfile '/a.err', pid 0}
getProcessInfo web:b => {name 'b', group 'web', description '', start 1000000000, stop 0, now 1000000000, state 10, statename 'STARTING', spawnerr '', exitstatus 0, logfile '', stdout_logfile '', stderr_logfile '', pid 13}
getProcessInfo w:one => {name 'one', group 'w', description 'unknown error (try "tail one")', start 999999999, stop 999999999, now 1000000000, state 30, statename 'BACKOFF', spawnerr '', exitstatus 1, logfile '/one.log', stdout_logfile '/one.log', stderr_logfile '/one.log', pid 0}
getProcessInfo w => {name 'w', group 'w', description '', start 999999900, stop 0, now 1000000000, state 40, statename 'STOPPING', spawnerr '', exitstatus 0, logfile '', stdout_logfile '', stderr_logfile '/w.err', pid 14}
getProcessInfo z:q => {name 'q', group 'z', description 'Sep 09 01:45 AM', start 999999000, stop 999999900, now 1000000000, state 100, statename 'EXITED', spawnerr '', exitstatus -1, logfile '', stdout_logfile '', stderr_logfile '', pid 0}"#;

/// The ended processes, all at once.
const ALL_AT_ONCE: &str =
    r#"getAllProcessInfo => [{name 'cat', group 'cat', description 'no file /bin/cat', start 0, stop 0, now 1000000000, state 200, statename 'FATAL', spawnerr 'no file /bin/cat', exitstatus 0, logfile '/cat.out', stdout_logfile '/cat.out', stderr_logfile '', pid 0}, {name 'a', group 'web', description 'Feb 29 12:00 AM', start 951000000, stop 951782400, now 1000000000, state 0, statename 'STOPPED', spawnerr '', exitstatus 0, logfile '/a.out', stdout_logfile '/a.out', stderr_logfile '/a.err', pid 0}, {name 'b', group 'web', description 'pid 20, uptime 2 days, 3:04:05', start 999816155, stop 0, now 1000000000, state 20, statename 'RUNNING', spawnerr '', exitstatus 0, logfile '', stdout_logfile '', stderr_logfile '', pid 20}, {name 'one', group 'w', description '', start 0, stop 0, now 1000000000, state 1000, statename 'UNKNOWN', spawnerr '', exitstatus 0, logfile '/one.log', stdout_logfile '/one.log', stderr_logfile '/one.log', pid 0}, {name 'w', group 'w', description 'fork failed', start 1000000000, stop 0, now 1000000000, state 30, statename 'BACKOFF', spawnerr 'fork failed', exitstatus 0, logfile '', stdout_logfile '', stderr_logfile '/w.err', pid 0}, {name 'q', group 'z', description 'unknown error (try "tail q")', start 0, stop 0, now 1000000000, state 200, statename 'FATAL', spawnerr '', exitstatus 2, logfile '', stdout_logfile '', stderr_logfile '', pid 0}]"#;

/// Children of the name cat, with their descriptions. How long a process is up is told in whole seconds.
const DESCRIPTIONS: &str = r#"RUNNING pid=1 start=1000000000999 => pid 1, uptime 0:00:00
RUNNING pid=1 start=1000000000000 => pid 1, uptime 0:00:00
RUNNING pid=1 start=999999999999 => pid 1, uptime 0:00:01
RUNNING pid=1 start=999999941000 => pid 1, uptime 0:00:59
RUNNING pid=1 start=999999940999 => pid 1, uptime 0:01:00
RUNNING pid=1 start=999996401999 => pid 1, uptime 0:59:59
RUNNING pid=1 start=999996400999 => pid 1, uptime 1:00:00
RUNNING pid=1 start=999964001999 => pid 1, uptime 9:59:59
RUNNING pid=1 start=999964000999 => pid 1, uptime 10:00:00
RUNNING pid=1 start=999913601999 => pid 1, uptime 23:59:59
RUNNING pid=1 start=999913600999 => pid 1, uptime 1 day, 0:00:00
RUNNING pid=1 start=999909939999 => pid 1, uptime 1 day, 1:01:01
RUNNING pid=1 start=999827201999 => pid 1, uptime 1 day, 23:59:59
RUNNING pid=1 start=999827200999 => pid 1, uptime 2 days, 0:00:00
RUNNING pid=1 start=999090704999 => pid 1, uptime 10 days, 12:34:56
RUNNING pid=4294967295 start=0 => pid 4294967295, uptime 11574 days, 1:46:40
EXITED stop=0 => Jan 01 12:00 AM
EXITED stop=59999 => Jan 01 12:00 AM
EXITED stop=60000 => Jan 01 12:01 AM
EXITED stop=3600000 => Jan 01 01:00 AM
EXITED stop=43199999 => Jan 01 11:59 AM
EXITED stop=43200000 => Jan 01 12:00 PM
EXITED stop=46799999 => Jan 01 12:59 PM
EXITED stop=46800000 => Jan 01 01:00 PM
EXITED stop=86399999 => Jan 01 11:59 PM
EXITED stop=86400000 => Jan 02 12:00 AM
STOPPED stop=951868799999 => Feb 29 11:59 PM
STOPPED stop=951868800000 => Mar 01 12:00 AM
STOPPED stop=980985599999 => Jan 31 11:59 PM
STOPPED stop=980985600000 => Feb 01 12:00 AM
STOPPED stop=983404799999 => Feb 28 11:59 PM
STOPPED stop=983404800000 => Mar 01 12:00 AM
STOPPED stop=986083200000 => Apr 01 12:00 AM
STOPPED stop=988675200000 => May 01 12:00 AM
STOPPED stop=991353600000 => Jun 01 12:00 AM
STOPPED stop=993945600000 => Jul 01 12:00 AM
STOPPED stop=996624000000 => Aug 01 12:00 AM
STOPPED stop=999302400000 => Sep 01 12:00 AM
STOPPED stop=1001894400000 => Oct 01 12:00 AM
STOPPED stop=1004572800000 => Nov 01 12:00 AM
STOPPED stop=1007164800000 => Dec 01 12:00 AM
STOPPED stop=1009843199999 => Dec 31 11:59 PM
STOPPED stop=4107542399999 => Feb 28 11:59 PM
STOPPED stop=4107542400000 => Mar 01 12:00 AM
STOPPED => Not started
EXITED => Not started
BACKOFF fault=not~found stop=5 => not found
BACKOFF stop=5 => unknown error (try "tail cat")
FATAL fault=not~found => not found
FATAL => unknown error (try "tail cat")
STARTING pid=9 start=5 stop=5 fault=x => 
STOPPING pid=9 start=5 stop=5 fault=x => 
UNKNOWN pid=9 start=5 stop=5 fault=x => "#;

#[test]
fn tells_of_the_daemon_and_of_processes(rt: HostRuntime) {
    let alloc = rt.alloc();
    come_out_over(&rt, alloc, BUSY, SHORT);
    come_out_over(&rt, alloc, BUSY, ONE_BY_ONE);
    come_out_over(&rt, alloc, ENDED, ALL_AT_ONCE);
}

/// The description in a struct of a process, or a word that none is.
fn description(planned: &Planned) -> &str {
    match planned {
        Planned::Now(Value::Struct(members)) => match members.as_slice() {
            [_, _, third, ..] => text_of(&third.1),
            _ => "no third member",
        },
        _ => "no struct",
    }
}

fn text_of(value: &Value) -> &str {
    match value {
        Value::Text(text) => text.as_str(),
        _ => "no text",
    }
}

fn is_described(rt: &impl Abort, alloc: Global, row: &str) {
    let (life, wanted) = row.split_once(" => ").expect(rt, "two cells");
    let planned = outcome_over(rt, alloc, life, "getProcessInfo cat");
    is_the_description(rt, description(&planned), wanted, row);
}

/// The description is the one that the row wants.
fn is_the_description(rt: &impl Abort, description: &str, wanted: &str, row: &str) {
    check_of(rt, description == wanted, row);
}

#[test]
fn describes(rt: HostRuntime) {
    for row in DESCRIPTIONS.split('\n') {
        is_described(&rt, rt.alloc(), row);
    }
}

/// The reply to a call that is answered at once.
fn reply(alloc: Global, planned: &Planned) -> Result<Bytes, AllocError> {
    match planned {
        Planned::Now(value) => write_reply(alloc, value),
        Planned::Fault(number, text) => write_fault(alloc, i64::from(*number), text.as_str()),
        _ => write_fault(alloc, 0, ""),
    }
}

/// The reply to the call of a line over the busy processes.
fn reply_to(rt: &impl Abort, alloc: Global, line: &str) -> Bytes {
    made(rt, reply(alloc, &outcome_over(rt, alloc, BUSY, line)))
}

/// The reply to the call of a line over the busy processes is this text.
fn is_written(rt: &impl Abort, alloc: Global, line: &str, wanted: &str) {
    let bytes = reply_to(rt, alloc, line);
    is_text(
        rt,
        std::str::from_utf8(bytes.as_slice()).unwrap_or(""),
        wanted,
    );
}

/// The reply that tells the mood.
const MOOD: &str =
    "<?xml version='1.0'?><methodResponse><params><param><value><struct><member><name>statecode</name><value><int>1</int></value></member><member><name>statename</name><value><string>RUNNING</string></value></member></struct></value></param></params></methodResponse>";

/// The reply that says that a process was already started.
const ALREADY_STARTED: &str =
    "<?xml version='1.0'?><methodResponse><fault><value><struct><member><name>faultCode</name><value><int>60</int></value></member><member><name>faultString</name><value><string>ALREADY_STARTED: cat</string></value></member></struct></value></fault></methodResponse>";

#[test]
fn writes_replies(rt: HostRuntime) {
    is_written(&rt, rt.alloc(), "getState", MOOD);
    is_written(&rt, rt.alloc(), "startProcess cat", ALREADY_STARTED);
}
