//! Conversations over dials, shelves, inputs and outputs in memory.
ghost use Rattle.std.specs.Prelude.{◌≤◌};

use crate::checks::same;
use crate::commands::{DEEDS, LOOKS, Row};
use crate::failures::{BYTE_BY_BYTE, FAILURES, Failure, HEARD, IN_PIECES, PRINTED};
use crate::replies::{dial_of, one_call};
use crate::sessions::{CREDENTIALS, OPTIONS, TALKS};
use std::alloc::Global;
use std::process::Abort;
use sv_base::{Bytes, Host, Items, Moment, Text};
use sv_ctl::control;
use sv_out::sink::{ListSink, Sink};
use sv_out::source::ListSource;
use sv_out::{Dial, MapShelf, ScriptDial, Shelf};

const USAGE: &str =
    "Error: usage: supervisorctl [-c FILE] [-s URL] [-u USER] [-p PASSWORD] COMMAND\n";

const REQUEST: &str =
    "POST /RPC2 HTTP/1.1\r\nHost: localhost:9001\r\nContent-Type: text/xml\r\nContent-Length: 105\r\n\
Authorization: Basic dXNlcjphYmM=\r\n\r\n\
<?xml version='1.0'?><methodCall><methodName>supervisor.getPID</methodName><params></params></methodCall>";

/// The files of the shelf.
static FILES: [(&str, &str); 7] = [
    ("/good.conf", "[supervisorctl]\nserverurl=http://h:1\n"),
    ("/part.conf", "[include]\nfiles=/part.d/*\n"),
    ("/part.d/ctl", "[supervisorctl]\nserverurl=http://h:1\n"),
    ("/wrong.conf", "[supervisorctl]\nserverurl=h:1\n"),
    (
        "/user.conf",
        "[supervisorctl]\nserverurl=http://localhost:9001\nusername=user\npassword=abc\n",
    ),
    ("/bad.conf", "loose\n"),
    ("/lost.conf", "[include]\n"),
];

fn host(alloc: Global) -> Host {
    Host {
        name: Text::fixed("box"),
        here: Text::fixed("/"),
        pid: 1,
        environment: Items::new(alloc),
        start: Moment::zero(),
    }
}

fn add_file(rt: &impl Abort, alloc: Global, shelf: &mut MapShelf, name: &str, text: &str) {
    let bytes = Bytes::from_slice(alloc, text.as_bytes()).expect(rt, "ample memory");
    let name = Text::from_str(alloc, name).expect(rt, "ample memory");
    shelf.set(name, bytes).expect(rt, "ample memory");
}

fn shelf_of(rt: &impl Abort, alloc: Global, failing: u64) -> MapShelf {
    let mut shelf = MapShelf::new(alloc, one_call(rt, alloc, failing));
    for &(name, text) in &FILES {
        add_file(rt, alloc, &mut shelf, name, text);
    }
    shelf
}

fn words_of(rt: &impl Abort, alloc: Global, text: &str) -> Vec<Text> {
    let mut words = Vec::new(alloc);
    for word in text.split(' ') {
        put_word(rt, alloc, &mut words, word);
    }
    words
}

/// Adds a word, if it isn't empty.
fn put_word(rt: &impl Abort, alloc: Global, words: &mut Vec<Text>, word: &str) {
    if !word.is_empty() {
        let word = Text::from_str(alloc, word).expect(rt, "ample memory");
        words.push(word).expect(rt, "ample memory");
    }
}

fn put(rt: &impl Abort, out: &mut String, text: &str) {
    out.push_str(text).expect(rt, "ample memory");
}

/// The text with line feeds for `~`, prompts for `>` and the usage for `!`.
fn written_out(rt: &impl Abort, alloc: Global, text: &str) -> String {
    let mut out = String::new(alloc);
    for part in text.chars() {
        put_part(rt, &mut out, part);
    }
    out
}

/// Adds what a character stands for.
fn put_part(rt: &impl Abort, out: &mut String, part: char) {
    match part {
        '~' => put(rt, out, "\n"),
        '>' => put(rt, out, "supervisor> "),
        '!' => put(rt, out, USAGE),
        part => out.push(part).expect(rt, "ample memory"),
    }
}

/// The calls that fail, by their numbers: of the shelf, the dial, each link, the input and the output.
#[derive(Clone, Copy)]
struct Failing {
    shelf: u64,
    dial: u64,
    link: u64,
    input: u64,
    out: u64,
}

const NONE: Failing = Failing {
    shelf: 0,
    dial: 0,
    link: 0,
    input: 0,
    out: 0,
};

/// What a conversation is had with, and its status once it is over.
struct Conversation {
    words: Vec<Text>,
    host: Host,
    shelf: MapShelf,
    dial: ScriptDial,
    input: ListSource,
    out: ListSink,
    status: u8,
}

impl Drop for Conversation {
    fn drop(self) {
        let Self {
            words: _,
            host: _,
            shelf: _,
            dial: _,
            input: _,
            out: _,
            status: _,
        } = self;
    }
}

fn bytes_of(rt: &impl Abort, alloc: Global, text: &str) -> Vec<u8> {
    let text = written_out(rt, alloc, text);
    Vec::from_slice(alloc, text.as_str().as_bytes()).expect(rt, "ample memory")
}

/// An input of this text, which comes so many bytes at a time at most, and whose call of this number fails.
fn input_of(rt: &impl Abort, alloc: Global, text: &str, most: usize, call: u64) -> ListSource
    requires { 1 ≤ most }
{
    let bytes = bytes_of(rt, alloc, text);
    ListSource::new(bytes, most, one_call(rt, alloc, call))
}

/// A conversation that is to be had over these words, this input and these replies, which come so many bytes at a time at
/// most.
fn opened(
    rt: &impl Abort,
    alloc: Global,
    words: &str,
    input: &str,
    replies: &str,
    most: usize,
    failing: Failing,
) -> Conversation
    requires { 1 ≤ most }
{
    Conversation {
        words: words_of(rt, alloc, words),
        host: host(alloc),
        shelf: shelf_of(rt, alloc, failing.shelf),
        dial: dial_of(rt, alloc, replies, most, failing.dial, failing.link),
        input: input_of(rt, alloc, input, most, failing.input),
        out: ListSink::new(alloc, most, one_call(rt, alloc, failing.out)),
        status: 0,
    }
}

fn have(alloc: Global, conversation: &mut Conversation) {
    conversation.status = control(
        alloc,
        conversation.words.as_slice(),
        &conversation.host,
        &mut conversation.shelf,
        &mut conversation.dial,
        &mut conversation.input,
        &mut conversation.out,
    );
}

/// Such a conversation when it is over.
fn had(
    rt: &impl Abort,
    alloc: Global,
    words: &str,
    input: &str,
    replies: &str,
    most: usize,
    failing: Failing,
) -> Conversation
    requires { 1 ≤ most }
{
    let mut conversation = opened(rt, alloc, words, input, replies, most, failing);
    have(alloc, &mut conversation);
    conversation
}

/// A status and a text as a line.
fn line_of(rt: &impl Abort, alloc: Global, status: u8, text: &str) -> String {
    format!(in alloc; "{status} {text}").expect(rt, "ample memory")
}

/// What a conversation came to, as a line.
fn told(rt: &impl Abort, alloc: Global, conversation: &Conversation) -> String {
    let text = String::from_utf8_lossy(alloc, conversation.out.written()).expect(
        rt,
        "ample memory",
    );
    line_of(rt, alloc, conversation.status, text.as_str())
}

/// A conversation as a line.
fn line_of_session(
    rt: &impl Abort,
    alloc: Global,
    words: &str,
    input: &str,
    replies: &str,
    most: usize,
    failing: Failing,
) -> String
    requires { 1 ≤ most }
{
    let conversation = had(rt, alloc, words, input, replies, most, failing);
    told(rt, alloc, &conversation)
}

/// What is expected of a conversation.
fn expected(rt: &impl Abort, alloc: Global, status: u8, text: &str) -> String {
    let text = written_out(rt, alloc, text);
    line_of(rt, alloc, status, text.as_str())
}

/// The conversation has this line.
fn has_line(
    rt: &impl Abort,
    alloc: Global,
    words: &str,
    input: &str,
    replies: &str,
    most: usize,
    failing: Failing,
    wanted: &str,
)
    requires { 1 ≤ most }
{
    let line = line_of_session(rt, alloc, words, input, replies, most, failing);
    same(rt, line.as_str(), wanted);
}

/// A conversation comes to this status and prints this text.
fn comes_to(
    rt: &impl Abort,
    alloc: Global,
    words: &str,
    input: &str,
    replies: &str,
    most: usize,
    failing: Failing,
    status: u8,
    text: &str,
)
    requires { 1 ≤ most }
{
    let wanted = expected(rt, alloc, status, text);
    has_line(
        rt,
        alloc,
        words,
        input,
        replies,
        most,
        failing,
        wanted.as_str(),
    );
}

/// Puts the method that was called, without the prefix that all have, after a space where it isn't the first behind the bar.
fn put_method(rt: &impl Abort, line: &mut String, sent: &str) {
    if let Some((_, rest)) = sent.split_once("<methodName>supervisor.") {
        if !line.as_str().ends_with('|') {
            put(rt, line, " ");
        }
        if let Some((name, _)) = rest.split_once('<') {
            put(rt, line, name);
        }
    }
}

fn put_sent(rt: &impl Abort, alloc: Global, line: &mut String, sent: &[u8]) {
    let sent = String::from_utf8_lossy(alloc, sent).expect(rt, "ample memory");
    put_method(rt, line, sent.as_str());
}

fn put_methods(rt: &impl Abort, alloc: Global, line: &mut String, dial: &ScriptDial) {
    for exchange in dial.exchanges() {
        put_sent(rt, alloc, line, exchange.sent.as_slice());
    }
}

fn put_count(rt: &impl Abort, line: &mut String, count: u64) {
    write!(line, "|{count}").expect(rt, "ample memory");
}

/// What a command came to, as a line: its status, what is printed, and behind a bar the methods that were called, with single
/// spaces, and the count of faults.
fn command_told(rt: &impl Abort, alloc: Global, conversation: &Conversation) -> String {
    let faults = conversation
        .dial
        .faults()
        .saturating_add(conversation.out.faults());
    let mut line = told(rt, alloc, conversation);
    put(rt, &mut line, "|");
    put_methods(rt, alloc, &mut line, &conversation.dial);
    put_count(rt, &mut line, faults);
    line
}

/// The conversation of a command, whose words come after those that name the server.
fn command_had(
    rt: &impl Abort,
    alloc: Global,
    words: &str,
    replies: &str,
    most: usize,
) -> Conversation
    requires { 1 ≤ most }
{
    let line = format!(in alloc; "-s http://h:1 {words}").expect(rt, "ample memory");
    had(rt, alloc, line.as_str(), "", replies, most, NONE)
}

/// A command as a line, whose replies come so many bytes at a time at most.
fn command_line(rt: &impl Abort, alloc: Global, words: &str, replies: &str, most: usize) -> String
    requires { 1 ≤ most }
{
    let conversation = command_had(rt, alloc, words, replies, most);
    command_told(rt, alloc, &conversation)
}

/// The command has this line.
fn command_has_line(
    rt: &impl Abort,
    alloc: Global,
    words: &str,
    replies: &str,
    most: usize,
    wanted: &str,
)
    requires { 1 ≤ most }
{
    let line = command_line(rt, alloc, words, replies, most);
    same(rt, line.as_str(), wanted);
}

/// What is expected of a command.
fn command_expected(
    rt: &impl Abort,
    alloc: Global,
    status: u8,
    text: &str,
    methods: &str,
) -> String {
    let mut line = expected(rt, alloc, status, text);
    put(rt, &mut line, "|");
    put(rt, &mut line, methods);
    put(rt, &mut line, "|0");
    line
}

/// A command comes to what its row says, in whatever pieces its replies come.
fn command_is(rt: &impl Abort, alloc: Global, row: &Row) {
    let (words, replies, methods, status, text) = *row;
    let wanted = command_expected(rt, alloc, status, text, methods);
    command_has_line(rt, alloc, words, replies, 1, wanted.as_str());
    command_has_line(rt, alloc, words, replies, 100_000, wanted.as_str());
}

#[test]
fn commands_that_look_come_to_this(rt: HostRuntime) {
    for row in &LOOKS {
        command_is(&rt, rt.alloc(), row);
    }
}

#[test]
fn commands_that_do_something_come_to_this(rt: HostRuntime) {
    for row in &DEEDS {
        command_is(&rt, rt.alloc(), row);
    }
}

#[test]
fn options_come_to_this(rt: HostRuntime) {
    for row in &OPTIONS {
        let (words, status, text) = *row;
        comes_to(
            &rt,
            rt.alloc(),
            words,
            "",
            "#7|",
            100_000,
            NONE,
            status,
            text,
        );
    }
}

/// An input comes to what its row says, in whatever pieces it comes.
fn input_is(rt: &impl Abort, alloc: Global, row: &(&str, &str, u8, &str)) {
    let (input, replies, status, text) = *row;
    comes_to(
        rt,
        alloc,
        "-s http://h:1",
        input,
        replies,
        1,
        NONE,
        status,
        text,
    );
    comes_to(
        rt,
        alloc,
        "-s http://h:1",
        input,
        replies,
        100_000,
        NONE,
        status,
        text,
    );
}

#[test]
fn inputs_come_to_this(rt: HostRuntime) {
    for row in &TALKS {
        input_is(&rt, rt.alloc(), row);
    }
}

/// A conversation in which calls fail comes to what its row says.
fn failure_is(rt: &impl Abort, alloc: Global, row: &Failure) {
    let (calls, words, input, replies, status, text) = *row;
    let failing = Failing {
        shelf: calls[0],
        dial: calls[1],
        link: calls[2],
        input: calls[3],
        out: calls[4],
    };
    comes_to(
        rt, alloc, words, input, replies, 100_000, failing, status, text,
    );
}

#[test]
fn failures_come_to_this(rt: HostRuntime) {
    for row in &FAILURES {
        failure_is(&rt, rt.alloc(), row);
    }
}

#[test]
fn each_call_of_the_output_may_fail(rt: HostRuntime) {
    let (words, input, replies) = IN_PIECES;
    let mut failing = NONE;
    for wanted in &PRINTED {
        failing.out = failing.out.saturating_add(1);
        comes_to(
            &rt,
            rt.alloc(),
            words,
            input,
            replies,
            4,
            failing,
            wanted.0,
            wanted.1,
        );
    }
}

#[test]
fn each_call_of_the_input_may_fail(rt: HostRuntime) {
    let (words, input, replies) = BYTE_BY_BYTE;
    let mut failing = NONE;
    for wanted in &HEARD {
        failing.input = failing.input.saturating_add(1);
        comes_to(
            &rt,
            rt.alloc(),
            words,
            input,
            replies,
            1,
            failing,
            wanted.0,
            wanted.1,
        );
    }
}

/// The text before the first end of a line.
fn first_line(text: &str) -> &str {
    match text.split_once("\r\n") {
        Some((line, _)) => line,
        None => text,
    }
}

/// The name and the password that a request sends, or nothing.
fn sent_credentials(sent: &str) -> &str {
    match sent.split_once("Authorization: Basic ") {
        Some((_, rest)) => first_line(rest),
        None => "",
    }
}

/// The one request that was sent.
fn sent(rt: &impl Abort, alloc: Global, conversation: &Conversation) -> String {
    match conversation.dial.exchanges() {
        [exchange] => String::from_utf8_lossy(alloc, exchange.sent.as_slice()).expect(
            rt,
            "ample memory",
        ),
        _ => panic!(rt; "one call"),
    }
}

/// The one request that is sent with these words.
fn sent_with(rt: &impl Abort, alloc: Global, words: &str) -> String {
    let conversation = had(rt, alloc, words, "", "#7|", 100_000, NONE);
    sent(rt, alloc, &conversation)
}

/// What words of the options send.
fn credentials_are(rt: &impl Abort, alloc: Global, row: &(&str, &str)) {
    let (words, wanted) = *row;
    let sent = sent_with(rt, alloc, words);
    same(rt, sent_credentials(sent.as_str()), wanted);
}

#[test]
fn credentials_are_sent(rt: HostRuntime) {
    for row in &CREDENTIALS {
        credentials_are(&rt, rt.alloc(), row);
    }
}

#[test]
fn username_and_password_are_sent(rt: HostRuntime) {
    let sent = sent_with(&rt, rt.alloc(), "-u user -p abc pid");
    same(&rt, sent.as_str(), REQUEST);
}

/// The calls on the link of a command in pieces of 100 bytes: three writes of its request, two reads of its reply.
const LINK_CALLS: u64 = 5;

#[test]
fn each_call_of_a_link_may_fail(rt: HostRuntime) {
    let words = "-s http://h:1 start x";
    let mut failing = NONE;
    for _ in 0..LINK_CALLS {
        failing.link = failing.link.saturating_add(1);
        let text = "http://h:1 broke off~";
        comes_to(&rt, rt.alloc(), words, "", "true|", 100, failing, 5, text);
    }
    failing.link = LINK_CALLS + 1;
    comes_to(
        &rt,
        rt.alloc(),
        words,
        "",
        "true|",
        100,
        failing,
        0,
        "x: started~",
    );
}
