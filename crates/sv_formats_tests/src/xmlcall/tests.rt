//! What the texts of the tables spell, or where they are refused; nesting and numbers of values at their limits.

use crate::checks::check;
use crate::xmlcall::tables::{
    CALLS, LOGS, NO_CALLS, NO_FORMS, NO_REPLIES, NO_TAGS, NO_TEXTS, NO_UTF8, REPLIES, VALUES,
};
use std::alloc::Global;
use std::process::Abort;
use sv_xmlcall::call::{Answered, Call, CallFault};
use sv_xmlcall::log::text_of_log;
use sv_xmlcall::value::Value;
use sv_xmlcall::write::{write_call, write_fault, write_reply};
use sv_xmlread::{read_call, read_reply};

const BEFORE_VALUE: &str = "<methodCall><methodName>m</methodName><params><param>";

const BEHIND_VALUE: &str = "</param></params></methodCall>";

fn put(rt: &impl Abort, text: &mut Vec<u8>, part: &[u8]) {
    text.extend_from_slice(part).expect(rt, "memory");
}

fn joined(rt: &impl Abort, alloc: Global, parts: &[&[u8]]) -> Vec<u8> {
    let mut text = Vec::new(alloc);
    for part in parts {
        put(rt, &mut text, part);
    }
    text
}

/// The call is written so.
fn is_written(rt: &impl Abort, alloc: Global, call: &Call, written: &[u8]) {
    let bytes = write_call(alloc, call).expect(rt, "memory");
    check(rt, bytes.as_slice() == written);
}

/// The call that the text spells is written so.
fn spells(rt: &impl Abort, alloc: Global, text: &[u8], written: &[u8]) {
    let call = read_call(alloc, text).expect(rt, "a call");
    is_written(rt, alloc, &call, written);
}

/// The reply with this value is written so.
fn is_value(rt: &impl Abort, alloc: Global, value: &Value, written: &[u8]) {
    let bytes = write_reply(alloc, value).expect(rt, "memory");
    check(rt, bytes.as_slice() == written);
}

/// The reply with this fault is written so.
fn is_fault(rt: &impl Abort, alloc: Global, number: i64, text: &str, written: &[u8]) {
    let bytes = write_fault(alloc, number, text).expect(rt, "memory");
    check(rt, bytes.as_slice() == written);
}

/// The reply is written so.
fn is_rewritten(rt: &impl Abort, alloc: Global, answered: &Answered, written: &[u8]) {
    match answered {
        Answered::Value(value) => is_value(rt, alloc, value, written),
        Answered::Fault(number, text) => is_fault(rt, alloc, *number, text.as_str(), written),
    }
}

/// The reply that the text spells is written so.
fn replies(rt: &impl Abort, alloc: Global, text: &[u8], written: &[u8]) {
    let answered = read_reply(alloc, text).expect(rt, "a reply");
    is_rewritten(rt, alloc, &answered, written);
}

fn refuses(rt: &impl Abort, alloc: Global, text: &[u8], fault: CallFault) {
    let refused = match read_call(alloc, text) {
        Ok(_) => false,
        Err(found) => found == fault,
    };
    check(rt, refused);
}

fn refuses_reply(rt: &impl Abort, alloc: Global, text: &[u8], fault: CallFault) {
    let refused = match read_reply(alloc, text) {
        Ok(_) => false,
        Err(found) => found == fault,
    };
    check(rt, refused);
}

/// A call with this value is written so.
fn value_spells(rt: &impl Abort, alloc: Global, text: &str, written: &[u8]) {
    let call = joined(
        rt,
        alloc,
        &[
            BEFORE_VALUE.as_bytes(),
            text.as_bytes(),
            BEHIND_VALUE.as_bytes(),
        ],
    );
    spells(rt, alloc, call.as_slice(), written);
}

/// A call with this value is written with that one.
fn value_is(rt: &impl Abort, alloc: Global, text: &str, written: &str) {
    let call = joined(
        rt,
        alloc,
        &[
            b"<?xml version='1.0'?>",
            BEFORE_VALUE.as_bytes(),
            written.as_bytes(),
            BEHIND_VALUE.as_bytes(),
        ],
    );
    value_spells(rt, alloc, text, call.as_slice());
}

fn checks_values(rt: &impl Abort, alloc: Global) {
    for (text, written) in VALUES.as_slice() {
        value_is(rt, alloc, text, written);
    }
}

fn checks_no_values(rt: &impl Abort, alloc: Global, table: &[(&str, &str)]) {
    for (front, rest) in table {
        refuses_value(rt, alloc, front.as_bytes(), rest.as_bytes());
    }
}

fn checks_no_utf8(rt: &impl Abort, alloc: Global) {
    for (front, rest) in NO_UTF8.as_slice() {
        refuses_value(rt, alloc, front, rest);
    }
}

fn refuses_value(rt: &impl Abort, alloc: Global, front: &[u8], rest: &[u8]) {
    let all = joined(rt, alloc, &[BEFORE_VALUE.as_bytes(), front, rest]);
    let place = BEFORE_VALUE.len().saturating_add(front.len());
    refuses(rt, alloc, all.as_slice(), CallFault::NotACall(place));
}

/// The text spells the call of this content.
fn call_is(rt: &impl Abort, alloc: Global, text: &[u8], written: &[u8]) {
    let call = joined(
        rt,
        alloc,
        &[
            b"<?xml version='1.0'?><methodCall>",
            written,
            b"</methodCall>",
        ],
    );
    spells(rt, alloc, text, call.as_slice());
}

fn refuses_call(rt: &impl Abort, alloc: Global, front: &[u8], rest: &[u8]) {
    let all = joined(rt, alloc, &[front, rest]);
    refuses(rt, alloc, all.as_slice(), CallFault::NotACall(front.len()));
}

fn checks_calls(rt: &impl Abort, alloc: Global) {
    for (text, written) in CALLS.as_slice() {
        call_is(rt, alloc, text.as_bytes(), written.as_bytes());
    }
    for (front, rest) in NO_CALLS.as_slice() {
        refuses_call(rt, alloc, front, rest);
    }
}

/// The text spells the reply of this content.
fn reply_is(rt: &impl Abort, alloc: Global, text: &[u8], written: &[u8]) {
    let reply = joined(
        rt,
        alloc,
        &[
            b"<?xml version='1.0'?><methodResponse>",
            written,
            b"</methodResponse>",
        ],
    );
    replies(rt, alloc, text, reply.as_slice());
}

fn refuses_broken_reply(rt: &impl Abort, alloc: Global, front: &[u8], rest: &[u8]) {
    let all = joined(rt, alloc, &[front, rest]);
    refuses_reply(rt, alloc, all.as_slice(), CallFault::NotACall(front.len()));
}

fn checks_replies(rt: &impl Abort, alloc: Global) {
    for (text, written) in REPLIES.as_slice() {
        reply_is(rt, alloc, text.as_bytes(), written.as_bytes());
    }
    for (front, rest) in NO_REPLIES.as_slice() {
        refuses_broken_reply(rt, alloc, front, rest);
    }
}

/// Adds a part so many times.
fn put_times(rt: &impl Abort, text: &mut Vec<u8>, part: &[u8], count: usize) {
    for _ in 0..count {
        put(rt, text, part);
    }
}

/// A text that begins so, then has this many arrays one inside the other with this in the innermost, and ends so.
fn nested(
    rt: &impl Abort,
    alloc: Global,
    before: &[u8],
    depth: usize,
    inner: &[u8],
    behind: &[u8],
) -> Vec<u8> {
    let mut text = Vec::new(alloc);
    put(rt, &mut text, before);
    put_times(rt, &mut text, b"<value><array><data>", depth);
    put(rt, &mut text, inner);
    put_times(rt, &mut text, b"</data></array></value>", depth);
    put(rt, &mut text, behind);
    text
}

/// The text of a call whose first param is an array of this many empty strings, and which goes on so.
fn many(rt: &impl Abort, alloc: Global, count: usize, behind: &[u8]) -> Vec<u8> {
    let mut text = Vec::new(alloc);
    put(rt, &mut text, BEFORE_VALUE.as_bytes());
    put(rt, &mut text, b"<value><array><data>");
    put_times(rt, &mut text, b"<value/>", count);
    put(rt, &mut text, b"</data></array></value></param>");
    put(rt, &mut text, behind);
    text
}

fn reads(rt: &impl Abort, alloc: Global, text: &[u8]) {
    check(rt, read_call(alloc, text).is_ok());
}

/// A call with so many arrays, this in the innermost and that behind them, is refused.
fn refuses_nested(
    rt: &impl Abort,
    alloc: Global,
    depth: usize,
    inner: &[u8],
    behind: &[u8],
    fault: CallFault,
) {
    let text = nested(rt, alloc, BEFORE_VALUE.as_bytes(), depth, inner, behind);
    refuses(rt, alloc, text.as_slice(), fault);
}

fn reads_the_deepest(rt: &impl Abort, alloc: Global) {
    let before = BEFORE_VALUE.as_bytes();
    let text = nested(rt, alloc, before, 32, b"", BEHIND_VALUE.as_bytes());
    reads(rt, alloc, text.as_slice());
}

fn checks_depth(rt: &impl Abort, alloc: Global) {
    let behind = BEHIND_VALUE.as_bytes();
    let letters = b"</param></params></methodCall>letters";
    reads_the_deepest(rt, alloc);
    refuses_nested(rt, alloc, 32, b"<value/>", behind, CallFault::TooDeep);
    refuses_nested(rt, alloc, 33, b"", behind, CallFault::TooDeep);
    refuses_nested(rt, alloc, 33, b"", letters, CallFault::TooDeep);
    refuses_nested(rt, alloc, 32, b"x", behind, CallFault::NotACall(693));
}

/// A call of more values than there may be, which goes on so, is refused.
fn refuses_many(rt: &impl Abort, alloc: Global, behind: &[u8], fault: CallFault) {
    let text = many(rt, alloc, 65_536, behind);
    refuses(rt, alloc, text.as_slice(), fault);
}

fn reads_the_most(rt: &impl Abort, alloc: Global) {
    let text = many(rt, alloc, 65_535, b"</params></methodCall>");
    reads(rt, alloc, text.as_slice());
}

fn refuses_many_with_a_deep_one(rt: &impl Abort, alloc: Global) {
    let deep = nested(rt, alloc, b"<param>", 33, b"", b"");
    refuses_many(rt, alloc, deep.as_slice(), CallFault::TooDeep);
}

fn checks_count(rt: &impl Abort, alloc: Global) {
    reads_the_most(rt, alloc);
    refuses_many(
        rt,
        alloc,
        b"</params></methodCall>",
        CallFault::TooManyValues,
    );
    refuses_many(rt, alloc, b"</param>", CallFault::TooManyValues);
    refuses_many_with_a_deep_one(rt, alloc);
}

#[test]
fn reads_texts_or_refuses_them_at_their_place(rt: HostRuntime) {
    let alloc = rt.alloc();
    checks_values(&rt, alloc);
    checks_no_values(&rt, alloc, NO_TAGS.as_slice());
    checks_no_values(&rt, alloc, NO_FORMS.as_slice());
    checks_no_values(&rt, alloc, NO_TEXTS.as_slice());
    checks_no_utf8(&rt, alloc);
    checks_calls(&rt, alloc);
    checks_replies(&rt, alloc);
    checks_depth(&rt, alloc);
    checks_count(&rt, alloc);
}

fn refuses_what_goes_on(rt: &impl Abort, alloc: Global, call: &[u8]) {
    let behind = joined(rt, alloc, &[call, b" x"]);
    refuses(rt, alloc, behind.as_slice(), CallFault::NotACall(75));
}

fn checks_version_call(rt: &impl Abort, alloc: Global) {
    let plain =
        b"<methodCall><methodName>supervisor.getAPIVersion</methodName></methodCall>".as_slice();
    let written =
        b"<?xml version='1.0'?><methodCall><methodName>supervisor.getAPIVersion</methodName><params></params></methodCall>".as_slice();
    spells(rt, alloc, plain, written);
    spells(
        rt,
        alloc,
        b"<?xml version='1.0'?>\n<methodCall>\n<methodName>supervisor.getAPIVersion</methodName>\n<params>\n</params>\n</methodCall>\n",
        written,
    );
    spells(
        rt,
        alloc,
        b"<methodCall><methodName>supervisor.getAPIVersion</methodName><params/></methodCall>",
        written,
    );
    refuses_what_goes_on(rt, alloc, plain);
    let reply =
        b"<?xml version='1.0'?><methodResponse><params><param><value><string>3.0</string></value></param></params></methodResponse>".as_slice();
    check(rt, reply.len() == 121);
    replies(rt, alloc, reply, reply);
}

#[test]
fn one_call_in_three_spellings_and_its_reply(rt: HostRuntime) {
    let alloc = rt.alloc();
    checks_version_call(&rt, alloc);
}

/// What a log of these bytes is kept as.
fn keeps(rt: &impl Abort, alloc: Global, bytes: &[u8], text: &str) {
    let kept = text_of_log(alloc, bytes).expect(rt, "memory");
    check(rt, kept.as_str() == text);
}

fn checks_logs(rt: &impl Abort, alloc: Global) {
    for (bytes, text) in LOGS.as_slice() {
        keeps(rt, alloc, bytes, text);
    }
}

#[test]
fn logs_keep_what_xml_allows(rt: HostRuntime) {
    let alloc = rt.alloc();
    checks_logs(&rt, alloc);
}
