//! Calls over connections in memory, worked by hand: what is sent, and what each reply comes to.
ghost use Rattle.std.specs.Prelude.{◌≤◌};

use crate::checks::{check, same};
use crate::replies::one_call;
use std::alloc::Global;
use std::collections::VecDeque;
use std::process::Abort;
use sv_base::{ClientSpec, Place, Text};
use sv_ctl::ask::{AskFault, ask_server, host_of, place_of};
use sv_out::{Script, ScriptDial};
use sv_xmlcall::{Answered, Call, Value};

/// Each line is a URL, `=>`, its place and the Host of a request, or `none`.
const URLS: &str = "\
http://localhost:9001=>inet localhost 9001 localhost:9001
http://localhost:9001/=>inet localhost 9001 localhost:9001
http://h:00080=>inet h 80 h:00080
http://h:65535=>inet h 65535 h:65535
http://h:65536=>none
http://h:0=>none
http://h:=>none
http://h=>none
http://:9001=>none
http://a:b:1=>none
http://a/b:1=>none
http://h:1//=>none
http://h:1/RPC2=>none
http://h:+1=>none
https://h:1=>none
unix:///tmp/s.sock=>unix /tmp/s.sock localhost
unix://s/=>unix s/ localhost
unix://=>none
HTTP://h:1=>none
=>none
";

/// Each line is a stream, `=>`, and what the call comes to. `~` stands for CR LF, `$` for a body that gives the text 3.0,
/// `%` for one that is a fault, `#` for `HTTP/1.1 200 OK`, CR LF and `Content-Length: `.
const REPLIES: &str = "\
#104~~$=>value
#204~~%=>fault 10
#104~~=>ended
#104=>ended
=>ended
#0~~=>bad
#3~~abc=>bad
#105~~$=>ended
HTTP/1.1 200 OK~~=>bad
HTTP/1.1 200 OK~Transfer-Encoding: chunked~~0~~=>bad
#104~Content-Length: 104~~$=>bad
#67108864~~$=>ended
#67108865~~$=>bad
SSH-2.0=>bad
HTTP/1.1 401 No~Content-Length: 0~~=>status 401
HTTP/1.1 500 No~Content-Length: 3~~abc=>status 500
HTTP/1.1 500 No~Content-Length: 4~~abc=>ended
";

const VALUE: &str =
    "<methodResponse><params><param><value><string>3.0</string></value></param></params></methodResponse>\r\n\r\n";

const FAULT: &str =
    "<methodResponse><fault><value><struct><member><name>faultCode</name><value><int>10</int></value></member>\
<member><name>faultString</name><value>x</value></member></struct></value></fault></methodResponse>";

const REQUEST: &str =
    "POST /RPC2 HTTP/1.1\r\nHost: h:9001\r\nContent-Type: text/xml\r\nContent-Length: 112\r\n\
Authorization: Basic dXNlcjphYmM=\r\n\r\n\
<?xml version='1.0'?><methodCall><methodName>supervisor.getAPIVersion</methodName><params></params></methodCall>";

fn copy_of(rt: &impl Abort, alloc: Global, text: &str) -> String {
    String::from_str(alloc, text).expect(rt, "ample memory")
}

fn place_told(rt: &impl Abort, alloc: Global, place: &Place, host: &str) -> String {
    match place {
        Place::Inet(name, port) => {
            let name = name.as_str();
            format!(in alloc; "inet {name} {port} {host}").expect(rt, "ample memory")
        }
        Place::Unix(path) => {
            let path = path.as_str();
            format!(in alloc; "unix {path} {host}").expect(rt, "ample memory")
        }
    }
}

fn url_told(rt: &impl Abort, alloc: Global, url: &str) -> String {
    match place_of(alloc, url).expect(rt, "ample memory") {
        Some(place) => place_told(rt, alloc, &place, host_of(url)),
        None => copy_of(rt, alloc, "none"),
    }
}

fn url_is(rt: &impl Abort, alloc: Global, url: &str, expected: &str) {
    let told = url_told(rt, alloc, url);
    same(rt, told.as_str(), expected);
}

fn url_row(rt: &impl Abort, alloc: Global, line: &str) {
    let (url, expected) = line.split_once("=>").expect(rt, "two cells");
    url_is(rt, alloc, url, expected);
}

#[test]
fn urls_have_their_places(rt: HostRuntime) {
    for line in URLS.lines() {
        url_row(&rt, rt.alloc(), line);
    }
}

fn stream_of(rt: &impl Abort, alloc: Global, text: &str) -> Vec<u8> {
    let mut bytes = Vec::new(alloc);
    for byte in text.as_bytes() {
        put_part(rt, &mut bytes, *byte);
    }
    bytes
}

/// Adds what a byte of a stream stands for.
fn put_part(rt: &impl Abort, bytes: &mut Vec<u8>, byte: u8) {
    match byte {
        b'~' => put(rt, bytes, "\r\n"),
        b'$' => put(rt, bytes, VALUE),
        b'%' => put(rt, bytes, FAULT),
        b'#' => put(rt, bytes, "HTTP/1.1 200 OK\r\nContent-Length: "),
        byte => bytes.push(byte).expect(rt, "ample memory"),
    }
}

fn put(rt: &impl Abort, bytes: &mut Vec<u8>, part: &str) {
    bytes
        .extend_from_slice(part.as_bytes())
        .expect(rt, "ample memory");
}

fn answer_told(rt: &impl Abort, alloc: Global, answer: &Answered) -> String {
    match answer {
        Answered::Value(Value::Text(_)) => copy_of(rt, alloc, "value"),
        Answered::Value(_) => copy_of(rt, alloc, "another value"),
        Answered::Fault(number, _) => {
            format!(in alloc; "fault {number}").expect(rt, "ample memory")
        }
    }
}

fn fault_told(rt: &impl Abort, alloc: Global, fault: &AskFault) -> String {
    match fault {
        AskFault::Refused => copy_of(rt, alloc, "refused"),
        AskFault::LinkFailed => copy_of(rt, alloc, "broke off"),
        AskFault::Ended => copy_of(rt, alloc, "ended"),
        AskFault::BadReply => copy_of(rt, alloc, "bad"),
        AskFault::Status(status) => {
            format!(in alloc; "status {status}").expect(rt, "ample memory")
        }
        AskFault::OutOfMemory => panic!(rt; "ample memory"),
    }
}

fn client() -> ClientSpec {
    ClientSpec {
        url: Text::fixed("http://h:9001"),
        username: Text::fixed("user"),
        password: Text::fixed("abc"),
    }
}

/// A dial with one link, which gives this stream, at most `most` bytes in each call; of the link the call of this number
/// fails, and of the dial that of that number.
fn dial_of(
    rt: &impl Abort,
    alloc: Global,
    text: &str,
    most: usize,
    link: u64,
    dial: u64,
) -> ScriptDial
    requires { 1 ≤ most }
{
    let mut scripts = VecDeque::new(alloc);
    put_script(rt, alloc, &mut scripts, text, most, link);
    ScriptDial::new(alloc, scripts, one_call(rt, alloc, dial))
}

fn put_script(
    rt: &impl Abort,
    alloc: Global,
    scripts: &mut VecDeque<Script>,
    text: &str,
    most: usize,
    link: u64,
)
    requires { 1 ≤ most }
{
    let bytes = stream_of(rt, alloc, text);
    let script = Script::new(bytes, most, one_call(rt, alloc, link));
    scripts.push_back(script).expect(rt, "ample memory");
}

/// What is asked of whom.
struct Question {
    place: Place,
    client: ClientSpec,
    call: Call,
}

impl Drop for Question {
    fn drop(self) {
        let Self {
            place: _,
            client: _,
            call: _,
        } = self;
    }
}

fn version_question(alloc: Global) -> Question {
    Question {
        place: Place::Inet(Text::fixed("h"), 9001),
        client: client(),
        call: Call {
            method: Text::fixed("supervisor.getAPIVersion"),
            params: Vec::new(alloc),
        },
    }
}

/// The answer of a call over the dial.
fn asked(alloc: Global, dial: &mut ScriptDial) -> Result<Answered, AskFault> {
    let question = version_question(alloc);
    ask_server(
        alloc,
        dial,
        &question.place,
        &question.client,
        &question.call,
    )
}

/// What a call over the dial comes to.
fn told(rt: &impl Abort, alloc: Global, dial: &mut ScriptDial) -> String {
    match asked(alloc, dial) {
        Ok(answer) => answer_told(rt, alloc, &answer),
        Err(fault) => fault_told(rt, alloc, &fault),
    }
}

fn is_told(rt: &impl Abort, alloc: Global, dial: &mut ScriptDial, expected: &str) {
    let text = told(rt, alloc, dial);
    same(rt, text.as_str(), expected);
}

/// The link was given back, after the request was sent over it.
fn is_sent(rt: &impl Abort, dial: &ScriptDial) {
    match dial.exchanges() {
        [exchange] => check(rt, exchange.sent.as_slice() == REQUEST.as_bytes()),
        _ => panic!(rt; "the link was given back"),
    }
}

/// A call whose reply is this stream comes to this.
fn reply_is(rt: &impl Abort, alloc: Global, stream: &str, most: usize, expected: &str)
    requires { 1 ≤ most }
{
    let mut dial = dial_of(rt, alloc, stream, most, 0, 0);
    is_told(rt, alloc, &mut dial, expected);
    check(rt, dial.faults() == 0);
    is_sent(rt, &dial);
}

fn reply_row(rt: &impl Abort, alloc: Global, line: &str) {
    let (stream, expected) = line.split_once("=>").expect(rt, "two cells");
    reply_is(rt, alloc, stream, 100_000, expected);
    reply_is(rt, alloc, stream, 1, expected);
}

#[test]
fn replies_come_to_this(rt: HostRuntime) {
    for line in REPLIES.lines() {
        reply_row(&rt, rt.alloc(), line);
    }
}

/// Each line has the call of the link that fails and that of the dial, and what the call comes to.
static FAILURES: [(u64, u64, &str, u64); 5] = [
    (0, 0, "value", 0),
    (1, 0, "broke off", 1),
    (2, 0, "broke off", 1),
    (3, 0, "value", 0),
    (0, 1, "refused", 1),
];

fn failure_is(rt: &impl Abort, alloc: Global, link: u64, dials: u64, expected: &str, faults: u64) {
    let mut dial = dial_of(rt, alloc, "#104~~$", 100_000, link, dials);
    is_told(rt, alloc, &mut dial, expected);
    check(rt, dial.faults() == faults);
}

#[test]
fn failures_are_counted(rt: HostRuntime) {
    for &(link, dials, expected, faults) in &FAILURES {
        failure_is(&rt, rt.alloc(), link, dials, expected, faults);
    }
}
