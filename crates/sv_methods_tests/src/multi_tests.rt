//! Several calls in one, from the call that asks for them to the reply.

use crate::act_tests::outcome_of;
use crate::made::{found, is_text, made};
use crate::scenes::{BUSY, Scene, UP, running, stand};
use std::alloc::Global;
use std::process::Abort;
use sv_base::bytes::Bytes;
use sv_base::text::Text;
use sv_calls::check;
use sv_methods::{Planned, Waiting};
use sv_multi::gather::Gather;
use sv_multi::part::Part;
use sv_multi::parts::parts;
use sv_xmlcall::call::{Answered, Call};
use sv_xmlcall::value::Value;
use sv_xmlcall::write::write_reply;
use sv_xmlread::read_call;

/// A process is started, the mood asked for, several calls are asked for in turn, and a method that is none.
const ASKED: &str =
    "<methodCall><methodName>system.multicall</methodName><params><param><value><array><data><value><struct><member><name>methodName</name><value>supervisor.startProcess</value></member><member><name>params</name><value><array><data><value>web:a</value></data></array></value></member></struct></value><value><struct><member><name>methodName</name><value>supervisor.getState</value></member></struct></value><value><struct><member><name>methodName</name><value>system.multicall</value></member><member><name>params</name><value><array><data><value>x</value></data></array></value></member></struct></value><value><struct><member><name>methodName</name><value>foo</value></member></struct></value></data></array></value></param></params></methodCall>";

/// The reply to them.
const REPLY: &str =
    "<?xml version='1.0'?><methodResponse><params><param><value><array><data><value><array><data><value><boolean>1</boolean></value></data></array></value><value><array><data><value><struct><member><name>statecode</name><value><int>1</int></value></member><member><name>statename</name><value><string>RUNNING</string></value></member></struct></value></data></array></value><value><struct><member><name>faultCode</name><value><int>2</int></value></member><member><name>faultString</name><value><string>INCORRECT_PARAMETERS</string></value></member></struct></value><value><struct><member><name>faultCode</name><value><int>1</int></value></member><member><name>faultString</name><value><string>UNKNOWN_METHOD</string></value></member></struct></value></data></array></value></param></params></methodResponse>";

fn asked(rt: &impl Abort, alloc: Global) -> Vec<Part> {
    let call = read_call(alloc, ASKED.as_bytes()).ok();
    parts_of(rt, alloc, &found(rt, call, "a call"))
}

/// The parts of a call.
fn parts_of(rt: &impl Abort, alloc: Global, call: &Call) -> Vec<Part> {
    match call.params.as_slice() {
        [value] => found(rt, parts(alloc, value).ok(), "parts"),
        _ => Vec::new(alloc),
    }
}

/// The answer of a wait once the processes are up.
fn answer_once_up(rt: &impl Abort, alloc: Global, waiting: &Waiting) -> Answered {
    let answered = answer_over(rt, alloc, &running(rt, alloc, UP), waiting);
    found(rt, answered, "an answer")
}

/// The answer of a wait over these processes, where there is one.
fn answer_over(
    rt: &impl Abort,
    alloc: Global,
    scene: &Scene,
    waiting: &Waiting,
) -> Option<Answered> {
    made(rt, check(alloc, &stand(scene), waiting))
}

/// What comes of a call that is made while the processes are busy.
fn outcome(rt: &impl Abort, alloc: Global, call: &Call) -> Planned {
    outcome_of(rt, alloc, &running(rt, alloc, BUSY), call)
}

/// The answer of a call that is made while the processes are busy; where it waits, the answer once they are up.
fn answer_to(rt: &impl Abort, alloc: Global, call: &Call) -> Answered {
    match outcome(rt, alloc, call) {
        Planned::Now(value) => Answered::Value(value),
        Planned::Fault(number, text) => Answered::Fault(i64::from(number), text),
        Planned::Do(_, waiting) => answer_once_up(rt, alloc, &waiting),
        Planned::Read(_, _, _) => Answered::Fault(0, Text::fixed("")),
    }
}

fn answer_of(rt: &impl Abort, alloc: Global, part: &Part) -> Answered {
    match part {
        Part::Call(call) => answer_to(rt, alloc, call),
        Part::Fault(number, text) => { Answered::Fault(i64::from(*number), made(rt, text.clone())) }
    }
}

/// The answers to these parts.
fn gathered(rt: &impl Abort, alloc: Global, parts: &[Part]) -> Gather {
    let mut gather = Gather::new(alloc);
    for part in parts {
        gather
            .add(alloc, answer_of(rt, alloc, part))
            .expect(rt, "memory");
    }
    gather
}

/// The reply to these parts.
fn reply(rt: &impl Abort, alloc: Global, parts: &[Part]) -> Bytes {
    let value = made(rt, gathered(rt, alloc, parts).value());
    made(rt, write_reply(alloc, &value))
}

fn is_reply(rt: &impl Abort, alloc: Global, parts: &[Part]) {
    let bytes = reply(rt, alloc, parts);
    is_text(
        rt,
        std::str::from_utf8(bytes.as_slice()).unwrap_or(""),
        REPLY,
    );
}

#[test]
fn answers_several_calls_in_one(rt: HostRuntime) {
    let parts = asked(&rt, rt.alloc());
    is_reply(&rt, rt.alloc(), parts.as_slice());
}
