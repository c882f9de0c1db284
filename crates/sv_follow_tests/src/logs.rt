//! Logs and the replies that a daemon gives of them.
ghost use Rattle.std.specs.Prelude.{◌≤◌};

use std::alloc::Global;
use std::collections::VecDeque;
use std::process::Abort;
use sv_logs::tail_span;
use sv_out::{Script, ScriptDial};
use sv_xmlcall::text_of_log;

fn put_byte(rt: &impl Abort, out: &mut Vec<u8>, byte: u8) {
    out.push(byte).expect(rt, "ample memory");
}

fn put_letters(rt: &impl Abort, out: &mut Vec<u8>, count: u32) {
    for _ in 0..count {
        put_byte(rt, out, b'x');
    }
}

/// Adds what a byte of a table stands for.
fn put_part(rt: &impl Abort, out: &mut Vec<u8>, part: u8) {
    match part {
        b'A' => put_letters(rt, out, 65_536),
        b'B' => put_letters(rt, out, 65_537),
        b'C' => put_letters(rt, out, 1_600),
        b'D' => put_letters(rt, out, 1_601),
        b'~' => put_byte(rt, out, b'\n'),
        b'$' => put_byte(rt, out, 255),
        part => put_byte(rt, out, part),
    }
}

/// The bytes that a text of a table stands for.
pub(crate) fn bytes_of(rt: &impl Abort, alloc: Global, text: &str) -> Vec<u8> {
    let mut out = Vec::new(alloc);
    for part in text.as_bytes() {
        put_part(rt, &mut out, *part);
    }
    out
}

/// A reply with status 200, whose value is this one.
pub(crate) fn valued(rt: &impl Abort, alloc: Global, value: &str) -> String {
    let body = format!(in alloc;
        "<methodResponse><params><param><value>{value}</value></param></params></methodResponse>"
    ).expect(rt, "ample memory");
    answered(rt, alloc, body.as_str())
}

/// A reply with status 200 and this body.
fn answered(rt: &impl Abort, alloc: Global, body: &str) -> String {
    let size = body.len();
    format!(in alloc; "HTTP/1.1 200 OK\r\nContent-Length: {size}\r\n\r\n{body}").expect(
        rt,
        "ample memory",
    )
}

/// A reply with a fault of this number.
fn faulty(rt: &impl Abort, alloc: Global, number: &str) -> String {
    let body = format!(in alloc;
        "<methodResponse><fault><value><struct><member><name>faultCode</name><value><int>{number}</int></value></member>\
<member><name>faultString</name><value>x</value></member></struct></value></fault></methodResponse>"
    )
    .expect(rt, "ample memory");
    answered(rt, alloc, body.as_str())
}

/// A reply with this status and no body.
fn refused(rt: &impl Abort, alloc: Global, status: &str) -> String {
    format!(in alloc; "HTTP/1.1 {status} No\r\nContent-Length: 0\r\n\r\n").expect(
        rt,
        "ample memory",
    )
}

/// The reply of a tail method, from this offset on and for this length, of a log of these bytes.
fn tailed(rt: &impl Abort, alloc: Global, bytes: &[u8], offset: i64, length: i64) -> String {
    let (span, size, missed) = tail_span(bytes.len() as u64, offset, length);
    let (_, rest) = bytes.split_at(bytes.len().min(span.start as usize));
    let (part, _) = rest.split_at(rest.len().min(span.length as usize));
    let text = text_of_log(alloc, part).expect(rt, "ample memory");
    let flag = if missed { 1 } else { 0 };
    let value = format!(in alloc;
        "<array><data><value>{}</value><value><int>{size}</int></value><value><boolean>{flag}</boolean></value></data></array>",
        text.as_str()
    )
    .expect(rt, "ample memory");
    valued(rt, alloc, value.as_str())
}

/// The reply that a log of a table stands for.
fn reply_of(rt: &impl Abort, alloc: Global, log: &str, offset: i64, length: i64) -> String {
    if let Some(number) = log.strip_prefix('!') {
        return faulty(rt, alloc, number);
    }
    if let Some(status) = log.strip_prefix('?') {
        return refused(rt, alloc, status);
    }
    if let Some(raw) = log.strip_prefix('=') {
        return String::from_str(alloc, raw).expect(rt, "ample memory");
    }
    let bytes = bytes_of(rt, alloc, log);
    tailed(rt, alloc, bytes.as_slice(), offset, length)
}

/// A list of one call, or of none where its number is 0.
pub(crate) fn one_call(rt: &impl Abort, alloc: Global, call: u64) -> Vec<u64> {
    let mut calls = Vec::new(alloc);
    if 0 < call {
        calls.push(call).expect(rt, "ample memory");
    }
    calls
}

/// Adds a link that gives this reply.
pub(crate) fn put_script(
    rt: &impl Abort,
    alloc: Global,
    scripts: &mut VecDeque<Script>,
    reply: &str,
    most: usize,
    failing: u64,
)
    requires { 1 ≤ most }
{
    let bytes = Vec::from_slice(alloc, reply.as_bytes()).expect(rt, "ample memory");
    let script = Script::new(bytes, most, one_call(rt, alloc, failing));
    scripts.push_back(script).expect(rt, "ample memory");
}

/// Where the next call begins, behind one that began here and found a log of this size.
fn next_offset(offset: i64, size: i64) -> i64 {
    if size < offset { 0 } else { size }
}

/// A dial whose links give the replies of logs in turn, each behind a bar, so many bytes at a time at most. The calls of the
/// dial and those of each link that are to fail are told by their numbers.
pub(crate) fn dial_of(
    rt: &impl Abort,
    alloc: Global,
    logs: &str,
    most: usize,
    dials: u64,
    links: u64,
) -> ScriptDial
    requires { 1 ≤ most }
{
    let mut scripts = VecDeque::new(alloc);
    let mut offset = 0;
    let mut length = 1_600;
    for log in logs.split('|') {
        let reply = reply_of(rt, alloc, log, offset, length);
        put_script(rt, alloc, &mut scripts, reply.as_str(), most, links);
        offset = next_offset(offset, bytes_of(rt, alloc, log).len() as i64);
        length = 65_536;
    }
    ScriptDial::new(alloc, scripts, one_call(rt, alloc, dials))
}
