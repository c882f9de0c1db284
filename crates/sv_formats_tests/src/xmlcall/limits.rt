//! Calls, replies and logs of 1,048,576 bytes, with ample memory.

use crate::checks::{check, check_of};
use std::alloc::Global;
use std::process::Abort;
use sv_xmlcall::{Answered, Value, text_of_log, write_call, write_reply};
use sv_xmlread::{read_call, read_reply};

/// The most bytes of a log's part.
const MOST: usize = 1_048_576;

/// What stands around the text of a call, and of a reply.
const CALL: (&str, &str) = (
    "<?xml version='1.0'?><methodCall><methodName>m</methodName><params><param><value><string>",
    "</string></value></param></params></methodCall>",
);

const REPLY: (&str, &str) = (
    "<?xml version='1.0'?><methodResponse><params><param><value><string>",
    "</string></value></param></params></methodResponse>",
);

/// Each row has eight bytes of a log, the text that they are kept as, and how that is written in a reply.
static LOGS: [(&[u8], &str, &str); 3] = [
    (b"abcdefgh", "abcdefgh", "abcdefgh"),
    (
        b"&&&&&&&&",
        "&&&&&&&&",
        "&amp;&amp;&amp;&amp;&amp;&amp;&amp;&amp;",
    ),
    (
        b"\xff\xff\xc3\xa9\xe2\x82\x82a",
        "??\u{e9}\u{2082}a",
        "??\u{e9}\u{2082}a",
    ),
];

fn put(rt: &impl Abort, text: &mut Vec<u8>, piece: &[u8]) {
    text.extend_from_slice(piece).expect(rt, "memory");
}

/// A piece so many times between two texts.
fn filled(
    rt: &impl Abort,
    alloc: Global,
    around: (&str, &str),
    piece: &[u8],
    count: usize,
) -> Vec<u8> {
    let mut text = Vec::new(alloc);
    put(rt, &mut text, around.0.as_bytes());
    for _ in 0..count {
        put(rt, &mut text, piece);
    }
    put(rt, &mut text, around.1.as_bytes());
    text
}

/// A text of the most bytes, with letters between these two.
fn of_the_most_bytes(rt: &impl Abort, alloc: Global, around: (&str, &str)) -> Vec<u8> {
    let left = MOST.saturating_sub(around.0.len());
    let letters = left.saturating_sub(around.1.len());
    let text = filled(rt, alloc, around, b"a", letters);
    check(rt, text.len() == MOST);
    text
}

#[test]
fn a_call_of_the_most_bytes(rt: HostRuntime) {
    let alloc = rt.alloc();
    let text = of_the_most_bytes(&rt, alloc, CALL);
    let call = read_call(alloc, text.as_slice()).expect(&rt, "a call");
    let written = write_call(alloc, &call).expect(&rt, "memory");
    check(&rt, written.as_slice() == text.as_slice());
}

#[test]
fn a_reply_of_the_most_bytes(rt: HostRuntime) {
    let text = of_the_most_bytes(&rt, rt.alloc(), REPLY);
    match read_reply(rt.alloc(), text.as_slice()) {
        Ok(Answered::Value(value)) => is_written(&rt, rt.alloc(), &value, text.as_slice()),
        _ => panic!(rt; "no value"),
    }
}

/// The reply with this value has this text.
fn is_written(rt: &impl Abort, alloc: Global, value: &Value, text: &[u8]) {
    let written = write_reply(alloc, value).expect(rt, "memory");
    check(rt, written.as_slice() == text);
}

#[test]
fn logs_of_the_most_bytes(rt: HostRuntime) {
    for &(bytes, kept, written) in &LOGS {
        let value = kept_of(&rt, rt.alloc(), bytes, kept);
        let reply = filled(&rt, rt.alloc(), REPLY, written.as_bytes(), MOST / 8);
        is_written(&rt, rt.alloc(), &value, reply.as_slice());
    }
}

/// What a log of the most bytes is kept as: this text, so often.
fn kept_of(rt: &impl Abort, alloc: Global, bytes: &[u8], kept: &str) -> Value {
    let log = filled(rt, alloc, ("", ""), bytes, MOST / 8);
    check(rt, log.len() == MOST);
    let text = text_of_log(alloc, log.as_slice()).expect(rt, "memory");
    drop(log);
    let wanted = filled(rt, alloc, ("", ""), kept.as_bytes(), MOST / 8);
    check_of(rt, text.as_str().as_bytes() == wanted.as_slice(), kept);
    Value::Text(text)
}
