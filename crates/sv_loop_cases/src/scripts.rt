//! Journals in a short form, in which a call, its reply, a spawn and an event are a line of words each, and what is written
//! stands after the input that gives it.
//!
//! Before `go` a line is a section of the configuration, `KIND NAME KEY=VALUE ..`, or `size FILE NUMBER`. The daemon has a
//! server at a port, the interface of methods unless a line `bare` takes it away, and no main log unless a `daemon` line names
//! one; a program's command is its name, and it has no log files unless its line names them.
//!
//! After `go` a line that begins with `> ` is written, and each other one is an input. These are spelled out:
//!
//! - `M call LINK METHOD VALUE ..` is a piece of a link that calls the method; with ` | ` between them, several calls in one
//!   piece. `M last LINK ..` is a call that closes the link.
//! - `> sent LINK VALUE` is the reply with the value, and `> refused LINK NUMBER TEXT` that with a fault; `> ended LINK VALUE`
//!   and `> parted LINK NUMBER TEXT` are those that close the link.
//! - `> spawn RUN GROUP NAME` is the whole spawn line, and `> event RUN POOL SERIAL POOLSERIAL KIND BODY` the event for a
//!   listener.
//! - `!` says that the input before isn't accepted.
//!
//! In a value `[` and `]` stand round the items of an array, and `{` and `}` round the names and values of a struct. `true` and
//! `false` are truths, a word that begins with a digit or `-` is an integer, and any other a text, in which `~` is a space and
//! `^` a line feed; a first `'` is dropped, so a text may begin with a digit or be empty.

use crate::case::put_line;
use std::alloc::{AllocError, Global};

/// What a script comes to, as far as its lines were read.
pub(crate) struct Spelled {
    sizes: String,
    conf: String,
    pub(crate) journal: String,
    pub(crate) written: String,
    lines: u64,
    pub(crate) status: u8,
    is_begun: bool,
}

impl Drop for Spelled {
    fn drop(self) {
        let Self {
            sizes: _,
            conf: _,
            journal: _,
            written: _,
            lines: _,
            status: _,
            is_begun: _,
        } = self;
    }
}

/// The configuration of each script, before its own sections.
const DAEMON: &str =
    "[supervisord]\nlogfile=NONE\n[inet_http_server]\nport=9001\n[rpcinterface:supervisor]\n";

/// The same without the interface of methods.
const BARE: &str = "[supervisord]\nlogfile=NONE\n[inet_http_server]\nport=9001\n";

fn hex(digit: u8) -> char {
    b"0123456789ABCDEF"
        .get(usize::from(digit))
        .copied()
        .unwrap_or(b'0') as char
}

/// Puts these behind a text.
fn put_parts(out: &mut String, parts: &[&str]) -> Result<(), AllocError> {
    for part in parts {
        out.push_str(part)?;
    }
    Ok(())
}

fn put_byte(out: &mut String, byte: u8) -> Result<(), AllocError> {
    if (0x21..=0x7e).contains(&byte) && byte != b'%' {
        return out.push(byte as char);
    }
    out.push('%')?;
    out.push(hex(byte / 16))?;
    out.push(hex(byte % 16))
}

/// The token of bytes.
fn put_token(out: &mut String, bytes: &[u8]) -> Result<(), AllocError> {
    if bytes.is_empty() {
        out.push('%')?;
    }
    for byte in bytes {
        put_byte(out, *byte)?;
    }
    Ok(())
}

/// A word as the text that it stands for.
fn put_text(out: &mut String, word: &str) -> Result<(), AllocError> {
    for letter in word.strip_prefix('\'').unwrap_or(word).chars() {
        out.push(match letter {
            '~' => ' ',
            '^' => '\n',
            letter => letter,
        })?;
    }
    Ok(())
}

fn put_scalar(out: &mut String, word: &str) -> Result<(), AllocError> {
    if word == "true" {
        return out.push_str("<value><boolean>1</boolean></value>");
    }
    if word == "false" {
        return out.push_str("<value><boolean>0</boolean></value>");
    }
    if word.starts_with(|first: char| first == '-' || first.is_ascii_digit()) {
        return put_parts(out, &["<value><int>", word, "</int></value>"]);
    }
    out.push_str("<value><string>")?;
    put_text(out, word)?;
    out.push_str("</string></value>")
}

/// What stands after a value that is in these arrays (`false`) and structs (`true`).
fn put_end(out: &mut String, inside: &[bool]) -> Result<(), AllocError> {
    match inside.last() {
        None => out.push_str("</param>"),
        Some(true) => out.push_str("</member>"),
        Some(false) => Ok(()),
    }
}

/// Values as far as their words were put: which arrays (`false`) and structs (`true`) the next word is in, and whether it
/// is the value of a member that has its name.
#[derive(Drop)]
struct Values {
    inside: Vec<bool>,
    is_named: bool,
}

impl Values {
    fn is_member(&self) -> bool {
        self.inside.as_slice().last().copied().unwrap_or(false)
    }

    /// The end of an array or a struct.
    fn put_closed(&mut self, out: &mut String, end: &str) -> Result<(), AllocError> {
        let _ = self.inside.pop();
        self.is_named = false;
        out.push_str(end)?;
        put_end(out, self.inside.as_slice())
    }

    /// The name of a member.
    fn put_name(&mut self, out: &mut String, word: &str) -> Result<(), AllocError> {
        self.is_named = true;
        put_parts(out, &["<member><name>", word, "</name>"])
    }

    /// The beginning of an array or a struct.
    fn put_opened(
        &mut self,
        out: &mut String,
        is_struct: bool,
        begin: &str,
    ) -> Result<(), AllocError> {
        self.inside.push(is_struct)?;
        out.push_str(begin)
    }

    /// The beginning of a value, or a whole one.
    fn put_value(&mut self, out: &mut String, word: &str) -> Result<(), AllocError> {
        if self.inside.as_slice().is_empty() {
            out.push_str("<param>")?;
        }
        self.is_named = false;
        match word {
            "[" => self.put_opened(out, false, "<value><array><data>"),
            "{" => self.put_opened(out, true, "<value><struct>"),
            word => {
                put_scalar(out, word)?;
                put_end(out, self.inside.as_slice())
            }
        }
    }

    /// One more word.
    fn put_word(&mut self, out: &mut String, word: &str) -> Result<(), AllocError> {
        match word {
            "" => Ok(()),
            "]" => self.put_closed(out, "</data></array></value>"),
            "}" => self.put_closed(out, "</struct></value>"),
            word if self.is_member() && !self.is_named => self.put_name(out, word),
            word => self.put_value(out, word),
        }
    }
}

/// Values, each a param.
fn put_values(alloc: Global, out: &mut String, words: &str) -> Result<(), AllocError> {
    let mut values = Values {
        inside: Vec::new(alloc),
        is_named: false,
    };
    for word in words.split(' ') {
        values.put_word(out, word)?;
    }
    Ok(())
}

/// A first word and what follows it.
fn cut(line: &str) -> (&str, &str) {
    line.split_once(' ').unwrap_or((line, ""))
}

/// The text of a call.
fn put_body(alloc: Global, body: &mut String, words: &str) -> Result<(), AllocError> {
    let (method, values) = cut(words);
    let front = if method.starts_with("system.") {
        ""
    } else {
        "supervisor."
    };
    put_parts(
        body,
        &[
            "<methodCall><methodName>",
            front,
            method,
            "</methodName><params>",
        ],
    )?;
    put_values(alloc, body, values)?;
    body.push_str("</params></methodCall>")
}

/// The line of a head that says how long its body is, the end of the head, and the body.
fn put_message(out: &mut String, body: &str) -> Result<(), AllocError> {
    let length = body.len();
    write!(out, "Content-Length: {length}\r\n")?;
    out.push_str("\r\n")?;
    out.push_str(body)
}

/// A request of a call.
fn put_call(alloc: Global, out: &mut String, words: &str, closes: bool) -> Result<(), AllocError> {
    out.push_str("POST /RPC2 HTTP/1.1\r\nHost: x\r\n")?;
    if closes {
        out.push_str("Connection: close\r\n")?;
    }
    let mut body = String::new(alloc);
    put_body(alloc, &mut body, words)?;
    put_message(out, body.as_str())
}

/// The requests of these calls.
fn put_calls(alloc: Global, out: &mut String, calls: &str, closes: bool) -> Result<(), AllocError> {
    for call in calls.split('|') {
        put_call(alloc, out, call.strip_prefix(' ').unwrap_or(call), closes)?;
    }
    Ok(())
}

/// The piece of a link with these calls.
fn put_piece(
    alloc: Global,
    out: &mut String,
    moment: &str,
    words: &str,
    closes: bool,
) -> Result<(), AllocError> {
    let (link, calls) = cut(words);
    put_parts(out, &[moment, " piece ", link, " "])?;
    let mut requests = String::new(alloc);
    put_calls(alloc, &mut requests, calls, closes)?;
    put_token_line(out, requests.as_str())
}

/// The token of a text, and the end of its line.
fn put_token_line(out: &mut String, text: &str) -> Result<(), AllocError> {
    put_token(out, text.as_bytes())?;
    out.push('\n')
}

/// A reply with this body.
fn put_reply(out: &mut String, body: &str, closes: bool) -> Result<(), AllocError> {
    let length = body.len();
    out.push_str("HTTP/1.1 200 OK\r\nContent-Type: text/xml\r\n")?;
    write!(out, "Content-Length: {length}\r\n")?;
    if closes {
        out.push_str("Connection: close\r\n")?;
    }
    put_parts(out, &["\r\n", body])
}

/// The send of a reply with this body.
fn put_send(
    alloc: Global,
    out: &mut String,
    link: &str,
    body: &str,
    closes: bool,
) -> Result<(), AllocError> {
    put_parts(out, &["send ", link, " "])?;
    let mut reply = String::new(alloc);
    put_reply(&mut reply, body, closes)?;
    put_token_line(out, reply.as_str())
}

/// The text of a reply with a value.
fn put_value_body(alloc: Global, body: &mut String, value: &str) -> Result<(), AllocError> {
    body.push_str("<?xml version='1.0'?><methodResponse><params>")?;
    put_values(alloc, body, value)?;
    body.push_str("</params></methodResponse>")
}

fn put_value_reply(
    alloc: Global,
    out: &mut String,
    words: &str,
    closes: bool,
) -> Result<(), AllocError> {
    let (link, value) = cut(words);
    let mut body = String::new(alloc);
    put_value_body(alloc, &mut body, value)?;
    put_send(alloc, out, link, body.as_str(), closes)
}

/// What begins the body of a fault, before its number; what stands between its number and its text; and what ends it.
const FAULT: &str = "<?xml version='1.0'?><methodResponse><fault><value><struct>\
<member><name>faultCode</name><value><int>";

const FAULT_STRING: &str = "</int></value></member><member><name>faultString</name><value><string>";

const FAULT_END: &str = "</string></value></member></struct></value></fault></methodResponse>";

/// The text of a reply with a fault.
fn put_fault_body(body: &mut String, fault: &str) -> Result<(), AllocError> {
    let (number, text) = cut(fault);
    put_parts(body, &[FAULT, number, FAULT_STRING])?;
    put_text(body, text)?;
    body.push_str(FAULT_END)
}

fn put_fault_reply(
    alloc: Global,
    out: &mut String,
    words: &str,
    closes: bool,
) -> Result<(), AllocError> {
    let (link, fault) = cut(words);
    let mut body = String::new(alloc);
    put_fault_body(&mut body, fault)?;
    put_send(alloc, out, link, body.as_str(), closes)
}

fn put_spawn(out: &mut String, words: &str) -> Result<(), AllocError> {
    let (run, process) = cut(words);
    let (group, name) = cut(process);
    write!(out, "spawn {run} {group} {name} % % % 1 {name} 4 ")?;
    out.push_str("SUPERVISOR_ENABLED 1 SUPERVISOR_GROUP_NAME ")?;
    write!(out, "{group} SUPERVISOR_PROCESS_NAME {name} ")?;
    out.push_str("SUPERVISOR_SERVER_URL http://localhost:9001\n")
}

/// The length of an event's content, and the content.
fn put_content(out: &mut String, content: &str) -> Result<(), AllocError> {
    let length = content.len();
    write!(out, " len:{length}\n")?;
    out.push_str(content)
}

/// The head of an event for a listener, up to its length; the words begin with the pool.
fn put_head<'a>(out: &mut String, words: &'a str) -> Result<&'a str, AllocError> {
    let (pool, numbers) = cut(words);
    let (serial, rest) = cut(numbers);
    let (poolserial, rest) = cut(rest);
    let (kind, content) = cut(rest);
    write!(
        out,
        "ver:3.0 server:supervisor serial:{serial} pool:{pool} "
    )?;
    write!(out, "poolserial:{poolserial} eventname:{kind}")?;
    Ok(content)
}

/// The text of an event for a listener.
fn put_event_text(alloc: Global, text: &mut String, words: &str) -> Result<(), AllocError> {
    let spelled = put_head(text, words)?;
    let mut content = String::new(alloc);
    put_text(&mut content, spelled)?;
    put_content(text, content.as_str())
}

fn put_event(alloc: Global, out: &mut String, words: &str) -> Result<(), AllocError> {
    let (run, event) = cut(words);
    put_parts(out, &["stdin ", run, " "])?;
    let mut text = String::new(alloc);
    put_event_text(alloc, &mut text, event)?;
    put_token_line(out, text.as_str())
}

/// An order or a fault that is written.
fn put_written(alloc: Global, out: &mut String, line: &str) -> Result<(), AllocError> {
    let (word, rest) = cut(line);
    match word {
        "sent" => put_value_reply(alloc, out, rest, false),
        "ended" => put_value_reply(alloc, out, rest, true),
        "refused" => put_fault_reply(alloc, out, rest, false),
        "parted" => put_fault_reply(alloc, out, rest, true),
        "spawn" => put_spawn(out, rest),
        "event" => put_event(alloc, out, rest),
        _ => put_line(out, line),
    }
}

/// What begins a section of this kind.
fn section_of(kind: &str) -> &'static str {
    match kind {
        "listener" => "[eventlistener:",
        "group" => "[group:",
        _ => "[program:",
    }
}

/// Keys, each on a line.
fn put_keys(conf: &mut String, keys: &str) -> Result<(), AllocError> {
    for key in keys.split(' ') {
        put_line(conf, key)?;
    }
    Ok(())
}

/// The log files that a program has where its line names none.
const NO_LOGS: &str = "\nstdout_logfile=NONE\nstderr_logfile=NONE\n";

/// A section of the configuration with a name.
fn put_named(conf: &mut String, kind: &str, name: &str) -> Result<(), AllocError> {
    conf.push_str(section_of(kind))?;
    put_parts(conf, &[name, "]\n"])?;
    if kind == "program" || kind == "listener" {
        put_parts(conf, &["command=", name, NO_LOGS])?;
    }
    Ok(())
}

/// A section of the configuration.
fn put_section(conf: &mut String, kind: &str, rest: &str) -> Result<(), AllocError> {
    if kind == "daemon" {
        conf.push_str("[supervisord]\n")?;
        put_keys(conf, rest)
    } else {
        let (name, keys) = cut(rest);
        put_named(conf, kind, name)?;
        put_keys(conf, keys)
    }
}

impl Spelled {
    fn new(alloc: Global) -> Result<Spelled, AllocError> {
        let conf = String::from_str(alloc, DAEMON)?;
        Ok(Spelled {
            sizes: String::new(alloc),
            conf,
            journal: String::new(alloc),
            written: String::new(alloc),
            lines: 6,
            status: 0,
            is_begun: false,
        })
    }

    /// The header, whose last line this is.
    fn begin(&mut self, line: &str) -> Result<(), AllocError> {
        self.is_begun = true;
        self.journal
            .push_str("supervisor-journal 1\nhost h\nhere /\npid 1\n")?;
        self.journal.push_str(self.sizes.as_str())?;
        self.journal.push_str("conf ")?;
        put_token_line(&mut self.journal, self.conf.as_str())?;
        put_line(&mut self.journal, line)
    }

    /// The configuration without the interface of methods.
    fn make_bare(&mut self) -> Result<(), AllocError> {
        self.conf.clear();
        self.conf.push_str(BARE)
    }

    /// A line of the header; `go` ends it.
    fn put_header(&mut self, line: &str) -> Result<(), AllocError> {
        let (kind, rest) = cut(line);
        match kind {
            "bare" => self.make_bare(),
            "go" => self.begin(line),
            "size" => {
                self.lines = self.lines.saturating_add(1);
                put_line(&mut self.sizes, line)
            }
            kind => put_section(&mut self.conf, kind, rest),
        }
    }

    /// The input before isn't accepted.
    fn refuse(&mut self) -> Result<(), AllocError> {
        self.status = 7;
        let lines = self.lines;
        write!(self.written, "fault 7 line {lines}\n")
    }

    /// An input.
    fn put_input(&mut self, alloc: Global, line: &str) -> Result<(), AllocError> {
        self.lines = self.lines.saturating_add(1);
        let (moment, input) = cut(line);
        let (word, rest) = cut(input);
        match word {
            "call" => put_piece(alloc, &mut self.journal, moment, rest, false),
            "last" => put_piece(alloc, &mut self.journal, moment, rest, true),
            _ => put_line(&mut self.journal, line),
        }
    }

    /// A line after the header.
    fn put_line(&mut self, alloc: Global, line: &str) -> Result<(), AllocError> {
        if let Some(order) = line.strip_prefix("> ") {
            put_written(alloc, &mut self.written, order)
        } else if line == "!" {
            self.refuse()
        } else {
            self.put_input(alloc, line)
        }
    }

    /// One more line.
    fn take(&mut self, alloc: Global, line: &str) -> Result<(), AllocError> {
        if self.is_begun {
            self.put_line(alloc, line)
        } else {
            self.put_header(line)
        }
    }
}

/// What the lines come to.
pub(crate) fn spell(alloc: Global, lines: &str) -> Result<Spelled, AllocError> {
    let mut script = Spelled::new(alloc)?;
    for line in lines.lines() {
        script.take(alloc, line)?;
    }
    Ok(script)
}
