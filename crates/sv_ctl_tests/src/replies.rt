//! Replies, written as short texts.
ghost use Rattle.std.specs.Prelude.{◌≤◌};

use std::alloc::{AllocError, Global};
use std::collections::VecDeque;
use std::process::Abort;
use sv_out::{Script, ScriptDial};

/// A value: `true`, `false`, a number as `#` and its digits, a text as `'` and itself, the struct of a process's number as
/// `@` and its digits, rows as `[` and processes as `{`, the parts of each with `/` between them and each with `;` behind.
fn put_value(out: &mut String, text: &str) -> Result<(), AllocError> {
    if text == "true" {
        return out.push_str("<value><boolean>1</boolean></value>");
    }
    if text == "false" {
        return out.push_str("<value><boolean>0</boolean></value>");
    }
    if let Some(digits) = text.strip_prefix('#') {
        return put_typed(out, "int", digits);
    }
    if let Some(content) = text.strip_prefix('\'') {
        return put_typed(out, "string", content);
    }
    if let Some(digits) = text.strip_prefix('@') {
        out.push_str("<value><struct>")?;
        put_member(out, "pid", "int", digits)?;
        return out.push_str("</struct></value>");
    }
    if let Some(rows) = text.strip_prefix('[') {
        return put_structs(out, rows, "status", "int");
    }
    if let Some(processes) = text.strip_prefix('{') {
        return put_structs(out, processes, "statename", "string");
    }
    Ok(())
}

fn put_typed(out: &mut String, tag: &str, content: &str) -> Result<(), AllocError> {
    out.push_str("<value><")?;
    out.push_str(tag)?;
    out.push('>')?;
    out.push_str(content)?;
    out.push_str("</")?;
    out.push_str(tag)?;
    out.push_str("></value>")
}

fn put_member(out: &mut String, name: &str, tag: &str, content: &str) -> Result<(), AllocError> {
    out.push_str("<member><name>")?;
    out.push_str(name)?;
    out.push_str("</name>")?;
    put_typed(out, tag, content)?;
    out.push_str("</member>")
}

fn put_structs(out: &mut String, text: &str, third: &str, tag: &str) -> Result<(), AllocError> {
    out.push_str("<value><array><data>")?;
    for part in text.split(';') {
        if !part.is_empty() {
            put_struct(out, part, third, tag)?;
        }
    }
    out.push_str("</data></array></value>")
}

/// A group, a name, a third member and what is said of it.
fn put_struct(out: &mut String, text: &str, third: &str, tag: &str) -> Result<(), AllocError> {
    out.push_str("<value><struct>")?;
    let mut parts = text.strip_suffix('/').unwrap_or(text).split('/');
    put_part(out, "group", "string", parts.next())?;
    put_part(out, "name", "string", parts.next())?;
    put_part(out, third, tag, parts.next())?;
    put_part(out, "description", "string", parts.next())?;
    out.push_str("</struct></value>")
}

/// A member, where something is said of it.
fn put_part(out: &mut String, name: &str, tag: &str, part: Option<&str>) -> Result<(), AllocError> {
    match part {
        Some(part) => put_member(out, name, tag, part),
        None => Ok(()),
    }
}

/// A fault of this number.
fn put_fault(out: &mut String, number: &str) -> Result<(), AllocError> {
    out.push_str("<fault><value><struct>")?;
    put_member(out, "faultCode", "int", number)?;
    put_member(out, "faultString", "string", "x")?;
    out.push_str("</struct></value></fault>")
}

/// The one param with this value.
fn put_params(out: &mut String, text: &str) -> Result<(), AllocError> {
    out.push_str("<params><param>")?;
    put_value(out, text)?;
    out.push_str("</param></params>")
}

fn put_body(out: &mut String, text: &str) -> Result<(), AllocError> {
    out.push_str("<methodResponse>")?;
    match text.strip_prefix('!') {
        Some(number) => put_fault(out, number)?,
        None => put_params(out, text)?,
    }
    out.push_str("</methodResponse>")
}

fn body_of(rt: &impl Abort, alloc: Global, text: &str) -> String {
    let mut out = String::new(alloc);
    put_body(&mut out, text).expect(rt, "ample memory");
    out
}

/// A text with CR LF for `^`.
fn raw_of(rt: &impl Abort, alloc: Global, raw: &str) -> String {
    let mut out = String::new(alloc);
    for part in raw.chars() {
        match part {
            '^' => out.push_str("\r\n").expect(rt, "ample memory"),
            part => out.push(part).expect(rt, "ample memory"),
        }
    }
    out
}

/// The bytes of a reply: a body with status 200, or a status behind `?`, or after `=` the bytes themselves, in which `^`
/// stands for CR LF.
pub(crate) fn reply_of(rt: &impl Abort, alloc: Global, text: &str) -> String {
    if let Some(raw) = text.strip_prefix('=') {
        return raw_of(rt, alloc, raw);
    }
    if let Some(status) = text.strip_prefix('?') {
        return refusal_of(rt, alloc, status);
    }
    let body = body_of(rt, alloc, text);
    answer_of(rt, alloc, body.as_str())
}

/// A reply with this status and no body.
fn refusal_of(rt: &impl Abort, alloc: Global, status: &str) -> String {
    let told = format!(in alloc; "HTTP/1.1 {status} No\r\nContent-Length: 0\r\n\r\n");
    told.expect(rt, "ample memory")
}

/// A reply with status 200 and this body.
fn answer_of(rt: &impl Abort, alloc: Global, body: &str) -> String {
    let size = body.len();
    let told = format!(in alloc; "HTTP/1.1 200 OK\r\nContent-Length: {size}\r\n\r\n{body}");
    told.expect(rt, "ample memory")
}

/// The bytes of a reply, for a link.
fn bytes_of(rt: &impl Abort, alloc: Global, text: &str) -> Vec<u8> {
    let reply = reply_of(rt, alloc, text);
    Vec::from_slice(alloc, reply.as_str().as_bytes()).expect(rt, "ample memory")
}

/// A dial whose links give the replies of a text in turn, each behind a bar, so many bytes at a time at most. The calls of
/// the dial and those of each link that are to fail are told by their numbers.
pub(crate) fn dial_of(
    rt: &impl Abort,
    alloc: Global,
    replies: &str,
    most: usize,
    dials: u64,
    links: u64,
) -> ScriptDial
    requires { 1 ≤ most }
{
    let mut scripts = VecDeque::new(alloc);
    for part in replies.split('|') {
        put_script(rt, alloc, &mut scripts, part, most, links);
    }
    ScriptDial::new(alloc, scripts, one_call(rt, alloc, dials))
}

/// Adds a link that gives this reply, if there is one.
fn put_script(
    rt: &impl Abort,
    alloc: Global,
    scripts: &mut VecDeque<Script>,
    reply: &str,
    most: usize,
    links: u64,
)
    requires { 1 ≤ most }
{
    if !reply.is_empty() {
        let bytes = bytes_of(rt, alloc, reply);
        let script = Script::new(bytes, most, one_call(rt, alloc, links));
        scripts.push_back(script).expect(rt, "ample memory");
    }
}

/// A list of one call, or of none where its number is 0.
pub(crate) fn one_call(rt: &impl Abort, alloc: Global, call: u64) -> Vec<u64> {
    let mut calls = Vec::new(alloc);
    if 0 < call {
        calls.push(call).expect(rt, "ample memory");
    }
    calls
}
