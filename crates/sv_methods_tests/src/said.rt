//! What comes of calls, and answers, in words that are added to a text.

use std::process::Abort;
use sv_base::text::Text;
use sv_methods::{Aim, Asked, Planned, ReadShape, Request, Waiting};
use sv_xmlcall::call::Answered;
use sv_xmlcall::value::Value;

fn say(rt: &impl Abort, said: &mut String, words: &str) {
    said.push_str(words).expect(rt, "memory");
}

/// Adds a value that holds no other.
fn say_scalar(rt: &impl Abort, said: &mut String, value: &Value) {
    let done = match value {
        Value::Int(number) => write!(said, "{}", *number),
        Value::Truth(truth) => write!(said, "{}", *truth),
        Value::Text(text) => write!(said, "'{}'", text.as_str()),
        Value::Other(form, text) => write!(said, "{}({})", form.as_str(), text.as_str()),
        Value::Struct(_) | Value::Array(_) => said.push('?'),
    };
    done.expect(rt, "memory");
}

/// Adds the members of a struct, as `{name 'x', state 20}`.
fn say_struct(rt: &impl Abort, said: &mut String, members: &[(Text, Value)]) {
    let mut before = "{";
    for (name, value) in members {
        say(rt, said, before);
        say(rt, said, name.as_str());
        say(rt, said, " ");
        say_scalar(rt, said, value);
        before = ", ";
    }
    say(rt, said, if members.is_empty() { "{}" } else { "}" });
}

/// Adds a value that holds at most values that hold no other.
fn say_flat(rt: &impl Abort, said: &mut String, value: &Value) {
    match value {
        Value::Struct(members) => say_struct(rt, said, members.as_slice()),
        value => say_scalar(rt, said, value),
    }
}

/// Adds the values of an array, as `['text', true]`.
fn say_array(rt: &impl Abort, said: &mut String, values: &[Value]) {
    let mut before = "[";
    for value in values {
        say(rt, said, before);
        say_flat(rt, said, value);
        before = ", ";
    }
    say(rt, said, if values.is_empty() { "[]" } else { "]" });
}

/// Adds a value as `[{name 'x', state 20}, 'text', true]`.
fn say_value(rt: &impl Abort, said: &mut String, value: &Value) {
    match value {
        Value::Array(values) => say_array(rt, said, values.as_slice()),
        value => say_flat(rt, said, value),
    }
}

fn say_files(rt: &impl Abort, said: &mut String, files: &[Text]) {
    say(rt, said, "clear");
    for file in files {
        say(rt, said, " ");
        say(rt, said, file.as_str());
    }
}

/// The text that these bytes are.
fn text_of(bytes: &[u8]) -> &str {
    std::str::from_utf8(bytes).unwrap_or("no text")
}

/// Adds a request that clears no files.
fn say_deed(rt: &impl Abort, said: &mut String, request: &Request) {
    let done = match request {
        Request::Start(child) => write!(said, "start {}", child.0),
        Request::Stop(child) => write!(said, "stop {}", child.0),
        Request::Kill(child, signal) => write!(said, "kill {} {}", child.0, signal.name()),
        Request::Stdin(child, bytes) => {
            write!(said, "stdin {} '{}'", child.0, text_of(bytes.as_slice()))
        }
        Request::Remote(sort, bytes) => {
            write!(
                said,
                "remote '{}' '{}'",
                sort.as_str(),
                text_of(bytes.as_slice())
            )
        }
        _ => said.push_str("shutdown"),
    };
    done.expect(rt, "memory");
}

fn say_request(rt: &impl Abort, said: &mut String, request: &Request) {
    match request {
        Request::Clear(files) => say_files(rt, said, files.as_slice()),
        request => say_deed(rt, said, request),
    }
}

/// Adds requests with semicolons between them, or `none`.
fn say_requests(rt: &impl Abort, said: &mut String, requests: &[Request]) {
    let mut before = "";
    for request in requests {
        say(rt, said, before);
        say_request(rt, said, request);
        before = ";";
    }
    say(rt, said, if requests.is_empty() { "none" } else { "" });
}

fn name_of(aim: Aim) -> &'static str {
    match aim {
        Aim::Started => "started",
        Aim::Stopped => "stopped",
        Aim::Signalled => "signalled",
        Aim::Cleared => "cleared",
    }
}

fn say_asked(rt: &impl Abort, said: &mut String, asked: &Asked) {
    say(rt, said, name_of(asked.aim));
    let done = match asked.child {
        Some(child) => write!(said, " {}", child.0),
        None => said.push_str(" main"),
    };
    done.expect(rt, "memory");
    say(rt, said, if asked.fault.is_some() { " fault" } else { "" });
}

/// Adds rows with semicolons between them, or `none`.
fn say_rows(rt: &impl Abort, said: &mut String, rows: &[Asked]) {
    let mut before = "";
    for asked in rows {
        say(rt, said, before);
        say_asked(rt, said, asked);
        before = ";";
    }
    say(rt, said, if rows.is_empty() { "none" } else { "" });
}

/// Adds `wait` or `now`, `array` or `one`, the name or `-`, and the rows.
fn say_waiting(rt: &impl Abort, said: &mut String, waiting: &Waiting) {
    say(rt, said, if waiting.wait { "wait " } else { "now " });
    say(rt, said, if waiting.array { "array " } else { "one " });
    match &waiting.name {
        Some(name) => say(rt, said, name.as_str()),
        None => say(rt, said, "-"),
    }
    say(rt, said, " | ");
    say_rows(rt, said, waiting.rows.as_slice());
}

fn say_fault(rt: &impl Abort, said: &mut String, number: i64, text: &str) {
    write!(said, "fault {number} {text}").expect(rt, "memory");
}

/// Adds a read of a part of a file.
fn say_read(rt: &impl Abort, said: &mut String, file: &str, part: (u64, u64), shape: ReadShape) {
    let (start, length) = part;
    let done = match shape {
        ReadShape::Plain => write!(said, "read {file} {start} {length}"),
        ReadShape::Tail(offset, missed) => {
            write!(said, "tail {file} {start} {length} {offset} {missed}")
        }
    };
    done.expect(rt, "memory");
}

/// Adds what comes of a call: the value, `fault NUMBER TEXT`, `REQUESTS | WAIT | ROWS`, `read FILE START LENGTH`, or
/// `tail FILE START LENGTH OFFSET MISSED`.
pub fn say_planned(rt: &impl Abort, said: &mut String, planned: &Planned) {
    match planned {
        Planned::Now(value) => say_value(rt, said, value),
        Planned::Fault(number, text) => say_fault(rt, said, i64::from(*number), text.as_str()),
        Planned::Do(requests, waiting) => {
            say_requests(rt, said, requests.as_slice());
            say(rt, said, " | ");
            say_waiting(rt, said, waiting);
        }
        Planned::Read(file, span, shape) => {
            say_read(rt, said, file.as_str(), (span.start, span.length), *shape);
        }
    }
}

/// Adds an answer: the value, `fault NUMBER TEXT`, or `waits`.
pub fn say_answered(rt: &impl Abort, said: &mut String, answered: &Option<Answered>) {
    match answered {
        None => say(rt, said, "waits"),
        Some(Answered::Value(value)) => say_value(rt, said, value),
        Some(Answered::Fault(number, text)) => say_fault(rt, said, *number, text.as_str()),
    }
}
