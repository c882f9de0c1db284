//! Requests, parts and replies that were written out by hand.

use crate::checks::check_of;
use std::alloc::Global;
use std::process::Abort;
use sv_base::bytes::Bytes;
use sv_base::text::Text;
use sv_calls::answers::{
    FileReply, Heard, LogRead, Sent, hear, is_several, no_parts, parts_asked, read_back, say,
    subject_of,
};
use sv_http::{Ask, Refusal};
use sv_logs::Span;
use sv_methods::ReadShape;
use sv_xmlcall::{Answered, Call, Value};

/// A body, and what it is: the method and what it names, with the number of its parts where it asks for several calls; or the
/// text that refuses it.
struct Case {
    body: &'static str,
    method: &'static str,
    subject: Option<&'static str>,
    parts: Option<usize>,
}

const CASES: [Case; 6] = [
    Case {
        body: "<methodCall><methodName>supervisor.getAPIVersion</methodName></methodCall>",
        method: "supervisor.getAPIVersion",
        subject: None,
        parts: None,
    },
    Case {
        body: "<methodCall><methodName>supervisor.stopProcess</methodName><params><param><value>cat</value></param><param><value><boolean>0</boolean></value></param></params></methodCall>",
        method: "supervisor.stopProcess",
        subject: Some("cat"),
        parts: None,
    },
    Case {
        body: "<methodCall><methodName>supervisor.readLog</methodName><params><param><value><int>2</int></value></param></params></methodCall>",
        method: "supervisor.readLog",
        subject: None,
        parts: None,
    },
    Case {
        body: "<methodCall><methodName>system.multicall</methodName><params><param><value><array><data></data></array></value></param></params></methodCall>",
        method: "system.multicall",
        subject: None,
        parts: Some(0),
    },
    Case {
        body: "<methodCall><methodName>system.multicall</methodName><params><param><value><array><data><value><struct><member><name>methodName</name><value>a</value></member></struct></value><value><struct></struct></value></data></array></value></param></params></methodCall>",
        method: "system.multicall",
        subject: None,
        parts: Some(2),
    },
    Case {
        body: "<methodCall><methodName>system.multicall</methodName><params><param><value><array><data></data></array></value></param><param><value>b</value></param></params></methodCall>",
        method: "system.multicall",
        subject: None,
        parts: None,
    },
];

/// A call names what its case says.
fn names(rt: &impl Abort, call: &Call, case: &Case) {
    let subject = subject_of(call).expect(rt, "memory");
    match (&subject, case.subject) {
        (None, None) => {}
        (Some(subject), Some(wanted)) => check_of(rt, subject.as_str() == wanted, case.body),
        _ => assert!(rt; false, "{}", case.body),
    }
}

/// A call has as many parts as its case says.
fn has_parts(rt: &impl Abort, alloc: Global, call: &Call, case: &Case) {
    let parts = parts_asked(alloc, call).expect(rt, "memory");
    match &parts {
        Some(parts) => check_of(rt, Some(parts.len()) == case.parts, case.body),
        None => check_of(rt, case.parts.is_none(), case.body),
    }
}

fn is_wanted(rt: &impl Abort, alloc: Global, call: &Call, case: &Case) {
    check_of(rt, call.method.as_str() == case.method, case.body);
    names(rt, call, case);
    let several = case.method == "system.multicall";
    check_of(rt, is_several(call) == several, case.body);
    has_parts(rt, alloc, call, case);
}

fn ask(rt: &impl Abort, alloc: Global, body: &str, close: bool) -> Ask {
    let body = Bytes::from_slice(alloc, body.as_bytes()).expect(rt, "memory");
    Ask::Call { body, close }
}

/// The request of a case is its call, after whose reply the link closes.
fn is_call(rt: &impl Abort, alloc: Global, case: &Case) {
    let ask = ask(rt, alloc, case.body, true);
    let heard = hear(alloc, ask).expect(rt, "memory");
    match &heard {
        Heard::Calls(call, close) => {
            check_of(rt, *close, case.body);
            is_wanted(rt, alloc, call, case);
        }
        Heard::Refuses(_) => assert!(rt; false, "{}", case.body),
    }
}

#[test]
fn requests_are_calls(rt: HostRuntime) {
    for case in &CASES {
        is_call(&rt, rt.alloc(), case);
    }
}

fn is_said(rt: &impl Abort, sent: &Sent, text: &str, closes: bool) {
    check_of(rt, sent.text.as_slice() == text.as_bytes(), text);
    check_of(rt, sent.closes == closes, text);
}

/// A request without the password.
const UNAUTHORIZED: &str =
    "HTTP/1.1 401 Unauthorized\r\nContent-Type: text/xml\r\nContent-Length: 0\r\nWWW-Authenticate: Basic realm=\"default\"\r\nConnection: close\r\n\r\n";

/// A body that is no call.
const BAD_REQUEST: &str =
    "HTTP/1.1 400 Bad Request\r\nContent-Type: text/xml\r\nContent-Length: 0\r\nConnection: close\r\n\r\n";

/// A request is refused by this text, after which the link closes.
fn is_refused(rt: &impl Abort, alloc: Global, ask: Ask, text: &str) {
    let heard = hear(alloc, ask).expect(rt, "memory");
    match &heard {
        Heard::Refuses(sent) => is_said(rt, sent, text, true),
        Heard::Calls(_, _) => assert!(rt; false, "{text}"),
    }
}

/// A request with a body that is no call.
fn no_call_is_refused(rt: &impl Abort, alloc: Global) {
    let no_call = "<methodCall><methodName>a</methodName></methodCall> x";
    let bad = ask(rt, alloc, no_call, false);
    is_refused(rt, alloc, bad, BAD_REQUEST);
}

fn unauthorized_is_refused(rt: &impl Abort, alloc: Global) {
    let unauthorized = Ask::Bad(Refusal::Unauthorized);
    is_refused(rt, alloc, unauthorized, UNAUTHORIZED);
}

#[test]
fn requests_are_refused(rt: HostRuntime) {
    no_call_is_refused(&rt, rt.alloc());
    unauthorized_is_refused(&rt, rt.alloc());
}

/// The reply that tells the API's version.
const VERSION: &str =
    "HTTP/1.1 200 OK\r\nContent-Type: text/xml\r\nContent-Length: 121\r\n\r\n<?xml version='1.0'?><methodResponse><params><param><value><string>3.0</string></value></param></params></methodResponse>";

/// The reply to several calls in one whose params aren't an array, after which the link closes.
const NO_PARTS: &str =
    "HTTP/1.1 200 OK\r\nContent-Type: text/xml\r\nContent-Length: 260\r\nConnection: close\r\n\r\n<?xml version='1.0'?><methodResponse><fault><value><struct><member><name>faultCode</name><value><int>2</int></value></member><member><name>faultString</name><value><string>INCORRECT_PARAMETERS</string></value></member></struct></value></fault></methodResponse>";

/// An answer is said by this text, after which the link closes or not.
fn answer_is_said(rt: &impl Abort, alloc: Global, close: bool, answered: &Answered, text: &str) {
    let sent = say(alloc, close, answered).expect(rt, "memory");
    is_said(rt, &sent, text, close);
}

fn version_is_said(rt: &impl Abort, alloc: Global) {
    let version = Answered::Value(Value::Text(Text::fixed("3.0")));
    answer_is_said(rt, alloc, false, &version, VERSION);
}

#[test]
fn answers_are_said(rt: HostRuntime) {
    version_is_said(&rt, rt.alloc());
    answer_is_said(&rt, rt.alloc(), true, &no_parts(), NO_PARTS);
}

/// A shape, what the call named, what was read, and the body of the reply.
struct Back {
    tail: Option<u64>,
    subject: Option<&'static str>,
    part: Option<&'static [u8]>,
    missing: bool,
    body: &'static str,
}

const BACKS: [Back; 7] = [
    Back {
        tail: None,
        subject: None,
        part: Some(b"234"),
        missing: false,
        body: "<params><param><value><string>234</string></value></param></params>",
    },
    Back {
        tail: None,
        subject: None,
        part: Some(b"a\xff<\x01"),
        missing: false,
        body: "<params><param><value><string>a?&lt;?</string></value></param></params>",
    },
    Back {
        tail: None,
        subject: Some("x"),
        part: None,
        missing: true,
        body: "<fault><value><struct><member><name>faultCode</name><value><int>20</int></value></member><member><name>faultString</name><value><string>NO_FILE: x</string></value></member></struct></value></fault>",
    },
    Back {
        tail: None,
        subject: Some("x"),
        part: None,
        missing: false,
        body: "<fault><value><struct><member><name>faultCode</name><value><int>30</int></value></member><member><name>faultString</name><value><string>FAILED</string></value></member></struct></value></fault>",
    },
    Back {
        tail: Some(10),
        subject: Some("x"),
        part: Some(b"6789"),
        missing: false,
        body: "<params><param><value><array><data><value><string>6789</string></value><value><int>10</int></value><value><boolean>1</boolean></value></data></array></value></param></params>",
    },
    Back {
        tail: Some(18_446_744_073_709_551_615),
        subject: Some("x"),
        part: Some(b""),
        missing: false,
        body: "<params><param><value><array><data><value><string></string></value><value><int>9223372036854775807</int></value><value><boolean>1</boolean></value></data></array></value></param></params>",
    },
    Back {
        tail: Some(10),
        subject: Some("x"),
        part: None,
        missing: true,
        body: "<params><param><value><array><data><value><string></string></value><value><int>0</int></value><value><boolean>0</boolean></value></data></array></value></param></params>",
    },
];

/// What was to be read.
fn reading(back: &Back) -> LogRead {
    LogRead {
        file: Text::fixed("/m"),
        span: Span {
            start: 0,
            length: 4,
        },
        shape: match back.tail {
            None => ReadShape::Plain,
            Some(offset) => ReadShape::Tail(offset, true),
        },
        subject: match back.subject {
            None => None,
            Some(name) => Some(Text::fixed(name)),
        },
    }
}

/// What became of the read.
fn file_reply(rt: &impl Abort, alloc: Global, back: &Back) -> FileReply {
    match back.part {
        Some(part) => FileReply::Part(Bytes::from_slice(alloc, part).expect(rt, "memory")),
        None if back.missing => FileReply::Missing,
        None => FileReply::Failed,
    }
}

/// What the call is then answered.
fn answer(rt: &impl Abort, alloc: Global, back: &Back) -> Answered {
    let reading = reading(back);
    let reply = file_reply(rt, alloc, back);
    read_back(alloc, &reading, &reply).expect(rt, "memory")
}

/// The reply says this, and the link goes on.
fn says(rt: &impl Abort, alloc: Global, answered: &Answered, body: &str) {
    let sent = say(alloc, false, answered).expect(rt, "memory");
    let text = std::str::from_utf8(sent.text.as_slice()).unwrap_or("");
    check_of(rt, text.contains(body), body);
    check_of(rt, !sent.closes, "the link goes on");
}

#[test]
fn reads_come_back(rt: HostRuntime) {
    for back in &BACKS {
        let answered = answer(&rt, rt.alloc(), back);
        says(&rt, rt.alloc(), &answered, back.body);
    }
}
