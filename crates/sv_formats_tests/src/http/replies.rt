//! Replies read whole and in single bytes, at their limits, and the texts of requests.

use crate::checks::{check, check_of, same};
use std::alloc::Global;
use std::process::Abort;
use sv_http::{Replied, ReplyFault, ReplyReader, request};

// Each line is a stream, `=>`, and what it is: `N` where it goes on, `!` where it is no reply, or a status, `:` and a body.
// In a stream `~` stands for CR LF, `_` for a line feed, `@` for `HTTP/1.1 200 OK` and CR LF, `#` for `Content-Length: `.
const REPLIES: &str = "\
=>N
@#2~~ok=>200:ok
@#2~~o=>N
@#2~~=>N
@#2~=>N
@#2~~okx=>!
@#0~~=>200:
@#0~~x=>!
@content-length: 1~~a=>200:a
@#1~Connection: close~~a=>200:a
HTTP/1.0 404 Not Found_#0__=>404:
HTTP/1.1 401~#0~~=>401:
HTTP/1.1 007 x~#0~~=>7:
HTTP/1.1 200 ~#0~~=>200:
@~=>!
@#2~#2~~ok=>!
@#2~Transfer-Encoding: chunked~~ok=>!
@transfer-encoding: x~#2~~ok=>!
@#x~~=>!
@#+2~~ok=>!
@#~~=>!
@#0000000000000000002~~ok=>200:ok
@#00000000000000000002~~ok=>!
@#67108864~~a=>N
@#67108865~~a=>!
HTTP/2.0 200 OK=>!
HTTP/1.2 200 OK=>!
SSH-2.0=>!
HTTP/1.1 20=>N
HTTP/1.1 2x=>!
HTTP/1.1 2000=>!
";

// Each line is a body, a host, a username and a password, parted by `|`, `=>`, and the text of the request.
const REQUESTS: &str = "\
abc|h:9001||=>POST /RPC2 HTTP/1.1~Host: h:9001~Content-Type: text/xml~#3~~abc
|localhost||secret=>POST /RPC2 HTTP/1.1~Host: localhost~Content-Type: text/xml~#0~~
x|h|user|abc=>POST /RPC2 HTTP/1.1~Host: h~Content-Type: text/xml~#1~Authorization: Basic dXNlcjphYmM=~~x
";

/// What a character of a written stream stands for, where it doesn't stand for itself.
fn meaning(character: u8) -> &'static [u8] {
    match character {
        b'~' => b"\r\n",
        b'_' => b"\n",
        b'@' => b"HTTP/1.1 200 OK\r\n",
        b'#' => b"Content-Length: ",
        _ => &[],
    }
}

fn stream_of(rt: &impl Abort, alloc: Global, text: &str) -> Vec<u8> {
    let mut bytes = Vec::new(alloc);
    for byte in text.as_bytes() {
        let written = meaning(*byte);
        if written.is_empty() {
            bytes.push(*byte).expect(rt, "ample memory");
        } else {
            bytes.extend_from_slice(written).expect(rt, "ample memory");
        }
    }
    bytes
}

/// The status of a reply, `:` and its body.
fn reply_told(rt: &impl Abort, alloc: Global, replied: &Replied) -> String {
    let status = replied.status;
    let body = String::from_utf8_lossy(alloc, replied.body.as_slice());
    let body = body.expect(rt, "ample memory");
    format!(in alloc; "{status}:{body}").expect(rt, "ample memory")
}

/// What is said of a stream after a piece of it, where something is.
fn outcome(
    rt: &impl Abort,
    alloc: Global,
    reader: &mut ReplyReader,
    piece: &[u8],
    is_last: bool,
) -> Option<String> {
    match reader.feed(alloc, piece) {
        Ok(None) => None,
        Ok(Some(replied)) if is_last => Some(reply_told(rt, alloc, &replied)),
        Ok(Some(_)) => Some(no_reply(rt, alloc)),
        Err(ReplyFault::NotAReply) => Some(no_reply(rt, alloc)),
        Err(ReplyFault::OutOfMemory) => panic!(rt; "ample memory"),
    }
}

fn no_reply(rt: &impl Abort, alloc: Global) -> String {
    String::from_str(alloc, "!").expect(rt, "ample memory")
}

/// What the reader says of a stream that comes in pieces of this size.
fn told(rt: &impl Abort, alloc: Global, stream: &[u8], size: usize) -> String {
    let mut reader = ReplyReader::new(alloc);
    let mut rest = stream;
    for _ in 0..stream.len() {
        if rest.is_empty() {
            break;
        }
        let count = size.min(rest.len());
        let (piece, after) = rest.split_at(count);
        rest = after;
        if let Some(told) = outcome(rt, alloc, &mut reader, piece, rest.is_empty()) {
            return told;
        }
    }
    String::from_str(alloc, "N").expect(rt, "ample memory")
}

/// The stream of a row in pieces of this size.
fn play(rt: &impl Abort, alloc: Global, row: &str, size: usize, how: &str) {
    let (text, expected) = row.split_once("=>").expect(rt, "two cells");
    let stream = stream_of(rt, alloc, text);
    let told = told(rt, alloc, stream.as_slice(), size);
    same(rt, told.as_str(), expected);
}

#[test]
fn replies(rt: HostRuntime) {
    for row in REPLIES.lines() {
        play(&rt, rt.alloc(), row, usize::MAX, "whole");
        play(&rt, rt.alloc(), row, 1, "in bytes");
    }
}

/// A reply whose head has so many bytes, one long field among them.
fn with_head(rt: &impl Abort, alloc: Global, size: usize) -> Vec<u8> {
    let mut bytes = stream_of(rt, alloc, "@X: ");
    for _ in bytes.len()..size.saturating_sub(23) {
        bytes.push(b'a').expect(rt, "ample memory");
    }
    bytes
        .extend_from_slice(b"\r\nContent-Length: 0\r\n\r\n")
        .expect(rt, "ample memory");
    bytes
}

/// A reply whose head has so many fields.
fn with_fields(rt: &impl Abort, alloc: Global, fields: u32) -> Vec<u8> {
    let mut bytes = stream_of(rt, alloc, "@#0~");
    for _ in 1..fields {
        bytes
            .extend_from_slice(b"X: a\r\n")
            .expect(rt, "ample memory");
    }
    bytes.extend_from_slice(b"\r\n").expect(rt, "ample memory");
    bytes
}

fn check_head(rt: &impl Abort, alloc: Global, size: usize, expected: &str) {
    let stream = with_head(rt, alloc, size);
    check(rt, stream.len() == size);
    let found = told(rt, alloc, stream.as_slice(), usize::MAX);
    same(rt, found.as_str(), expected);
}

fn check_fields(rt: &impl Abort, alloc: Global, fields: u32, expected: &str) {
    let stream = with_fields(rt, alloc, fields);
    let found = told(rt, alloc, stream.as_slice(), usize::MAX);
    same(rt, found.as_str(), expected);
}

#[test]
fn limits_of_a_head(rt: HostRuntime) {
    check_head(&rt, rt.alloc(), 16_384, "200:");
    check_head(&rt, rt.alloc(), 16_385, "!");
    check_fields(&rt, rt.alloc(), 64, "200:");
    check_fields(&rt, rt.alloc(), 65, "!");
}

#[test]
fn requests(rt: HostRuntime) {
    for row in REQUESTS.lines() {
        check_request(&rt, rt.alloc(), row);
    }
}

fn check_request(rt: &impl Abort, alloc: Global, row: &str) {
    let (cells, expected) = row.split_once("=>").expect(rt, "two cells");
    let (body, cells) = cells.split_once('|').expect(rt, "a body");
    let (host, cells) = cells.split_once('|').expect(rt, "a host");
    let (username, password) = cells.split_once('|').expect(rt, "a username");
    let text = request(alloc, body.as_bytes(), host, username, password);
    let text = text.expect(rt, "ample memory");
    let expected = stream_of(rt, alloc, expected);
    check_of(rt, text.as_slice() == expected.as_slice(), row);
}
