//! Streams with their asks, cut after every byte and in single bytes, and the texts of replies.

use crate::checks::check;
use hex::FromHex;
use std::alloc::Global;
use std::process::Abort;
use sv_base::config::Password;
use sv_base::text::Text;
use sv_http::ask::Ask;
use sv_http::guard::Guard;
use sv_http::reader::HttpReader;
use sv_http::reply::reply;
use sv_http::status::{Refusal, Status};

// Each line is a guard, `|`, a stream, `=>`, and the asks of the stream. In a stream `~` stands for CR LF, `_` for a line
// feed, `%` for CR, `^` for NUL, `@` for the start line of a call, `#` for `Content-Length: ` and `$` for
// `Authorization: Basic `. An ask is `C` and a body, `K` and a body where the link closes, or `B` and a number; `;` ends
// it. The guards: `-` asks for nothing, `u` for user and abc, `s` for user and a password by its SHA-1, which is that of
// abc, `p` for the password abc alone, `n` for the name user alone, `c` for user and a:b, `e` for an empty password alone.
const STREAMS: &str = "\
-|=>
-|~=>
-|@#5~~hello=>Chello;
-|@#5~~hell=>
-|@#5~~helloPOST=>Chello;
-|@#0~~=>C;
-|@#0~~@#2~~ok=>C;Cok;
-|@#2~~ok@#2~~no@#0~~=>Cok;Cno;C;
-|~~%_@#2~~ok=>Cok;
-|%%__@#2~~ok=>Cok;
-|@#2~~ok~~~@#2~~no~=>Cok;Cno;
-|POST /RPC2 HTTP/1.1_#2__ok=>Cok;
-|POST /RPC2 HTTP/1.1_#2~_ok=>Cok;
-|POST /RPC2 HTTP/1.1_#2_~ok=>Cok;
-|@#2~~_~=>C_%;
-|@#4~~____=>C____;
-|POST /RPC2/ HTTP/1.1~#2~~ok=>Cok;
-|POST /RPC2 HTTP/1.0~#2~~ok=>Kok;
-|POST /RPC2 HTTP/1.0~#2~Connection: keep-alive~~ok=>Cok;
-|POST /RPC2 HTTP/1.0~#2~Connection: Keep-Alive~~ok=>Cok;
-|POST /RPC2 HTTP/1.0~#2~Connection: keep-alive, x~~ok=>Kok;
-|POST /RPC2 HTTP/1.0~#2~Connection: close~~ok=>Kok;
-|@#2~Connection: close~~ok=>Kok;
-|@#2~CONNECTION: CLOSE~~ok=>Kok;
-|@#2~Connection: close, TE~~ok=>Cok;
-|@#2~Connection: keep-alive~~ok=>Cok;
-|@#2~Connection: keep-alive~Connection: close~~ok=>Kok;
-|POST /RPC2 HTTP/1.0~#2~Connection: close~Connection: keep-alive~~ok=>Kok;
-|@#2~Connection: close~~ok@#2~~no=>Kok;Cno;
-|POST /RPC2 HTTP/2.0~#2~~ok=>B400;
-|POST /RPC2 HTTP/1.2~#2~~ok=>B400;
-|POST /RPC2 HTTP/0.9~#2~~ok=>B400;
-|POST /RPC2 http/1.1~#2~~ok=>B400;
-|POST /RPC2~#2~~ok=>B400;
-|POST  /RPC2 HTTP/1.1~#2~~ok=>B400;
-|x~~=>B400;
-|x__=>B400;
-|x_%=>
-|x_%x_=>
-|@Host x~#2~~ok=>B400;
-|@: x~#2~~ok=>B400;
-|@Host: x~ folded~#2~~ok=>B400;
-|@Host: ^~#2~~ok=>B400;
-|@Ho^st: x~#2~~ok=>B400;
-|@Host: a%b~#2~~ok=>B400;
-|@Host : x~#2~~ok=>B400;
-|@Host: x~#2~~ok=>Cok;
-|@Host:x~Host:y~#2~~ok=>Cok;
-|@~=>B411;
-|@~~=>B411;
-|@Host: x~~=>B411;
-|@Transfer-Encoding: chunked~~=>B411;
-|@Transfer-Encoding: identity~#2~~ok=>B411;
-|@#2~transfer-encoding:~~ok=>B411;
-|@Transfer-Encoding: chunked~#2~#3~~ok=>B411;
-|@#2~#2~~ok=>B400;
-|@#2~#3~~ok=>B400;
-|@#+1~~o=>B400;
-|@#-1~~o=>B400;
-|@#1 1~~o=>B400;
-|@#1,1~~o=>B400;
-|@#0x1~~o=>B400;
-|@#1a~~o=>B400;
-|@#~~o=>B400;
-|@#   ~~o=>B400;
-|@#00000000000000000001~~o=>B400;
-|@#0000000000000000002~~ok=>Cok;
-|@#   2  ~~ok=>Cok;
-|@content-length:2~~ok=>Cok;
-|@#1048577~~ok=>B413;
-|@#9999999999999999999~~ok=>B413;
-|@#18446744073709551617~~ok=>B400;
-|@#1048577~#1~~ok=>B400;
-|@#1048576~~ok=>
-|GET /RPC2 HTTP/1.1~#2~~ok=>B405;
-|post /RPC2 HTTP/1.1~#2~~ok=>B405;
-|GET /RPC2 HTTP/1.1~~=>B405;
-|GET /RPC2 HTTP/1.1~Transfer-Encoding: chunked~~=>B405;
-|GET / HTTP/1.1~~=>B404;
-|POST /RPC2?x=1 HTTP/1.1~#2~~ok=>B404;
-|POST /rpc2 HTTP/1.1~#2~~ok=>B404;
-|POST /RPC2// HTTP/1.1~#2~~ok=>B404;
-|POST / HTTP/1.1~#2~~ok=>B404;
-|POST http://x/RPC2 HTTP/1.1~#2~~ok=>B404;
-|POST * HTTP/1.1~#2~~ok=>B404;
-|@#2~~okGET / HTTP/1.1~~@#2~~no=>Cok;B404;
-|x~~@#2~~ok=>B400;
-|@~~#2~~ok=>B411;
u|@$dXNlcjphYmM=~#2~~ok=>Cok;
u|@authorization:Basic dXNlcjphYmM=~#2~~ok=>Cok;
u|@$dXNlcjphYmM=~#2~~ok@#2~~no=>Cok;B401;
u|@$dXNlcjphYg==~$dXNlcjphYmM=~#2~~ok=>Cok;
u|@#2~~ok=>B401;
u|GET /RPC2 HTTP/1.1~~=>B401;
u|POST / HTTP/1.1~#2~~ok=>B401;
u|GET / HTTP/1.1~$dXNlcjphYmM=~~=>B404;
u|GET /RPC2 HTTP/1.1~$dXNlcjphYmM=~~=>B405;
u|@$dXNlcjphYmM=~~=>B411;
u|@$dXNlcjphYg==~#2~~ok=>B401;
u|@$dXNlcjphYmNk~#2~~ok=>B401;
u|@$dXNlOmFiYw==~#2~~ok=>B401;
u|@$dXNlcg==~#2~~ok=>B401;
u|@$dXNlcmFiYw==~#2~~ok=>B401;
u|@$VVNFUjphYmM=~#2~~ok=>B401;
u|@$dXNlcjphYmM~#2~~ok=>B401;
u|@$dXNlcjphYmM==~#2~~ok=>B401;
u|@$dXNlcjphYmN=~#2~~ok=>B401;
u|@$ dXNlcjphYmM=~#2~~ok=>B401;
u|@$dXNlcjphYmM= x~#2~~ok=>B401;
u|@$~#2~~ok=>B401;
u|@Authorization: basic dXNlcjphYmM=~#2~~ok=>B401;
u|@Authorization: Bearer dXNlcjphYmM=~#2~~ok=>B401;
u|@Authorization: dXNlcjphYmM=~#2~~ok=>B401;
u|@Proxy-Authorization: Basic dXNlcjphYmM=~#2~~ok=>B401;
u|x~~=>B400;
s|@$dXNlcjphYmM=~#2~~ok=>Cok;
s|@#2~~ok=>B401;
s|@$dXNlcjphYg==~#2~~ok=>B401;
s|@$dXNlcjphOTk5M2UzNjQ3MDY4MTZhYmEzZTI1NzE3ODUwYzI2YzljZDBkODlk~#2~~ok=>B401;
p|@$OmFiYw==~#2~~ok=>Cok;
p|@$dXNlcjphYmM=~#2~~ok=>B401;
p|@#2~~ok=>B401;
n|@$dXNlcjo=~#2~~ok=>Cok;
n|@$dXNlcjphYmM=~#2~~ok=>B401;
n|@#2~~ok=>B401;
c|@$dXNlcjphOmI=~#2~~ok=>Cok;
c|@$dXNlcjphYmM=~#2~~ok=>B401;
e|@#2~~ok=>Cok;
-|@Host: x~#74~~<methodCall><methodName>supervisor.getAPIVersion</methodName></methodCall>=>C<methodCall><methodName>supervisor.getAPIVersion</methodName></methodCall>;
-|@Host: x~#76~~<methodCall><methodName>supervisor.getAPIVersion</methodName></methodCall> x=>C<methodCall><methodName>supervisor.getAPIVersion</methodName></methodCall> x;
";

// Replies: the status, whether the link closes, the body, and the text, in which `~` stands for CR LF.
const REPLIES: [(Status, bool, &str, &str); 9] = [
    (
        Status::Ok,
        false,
        "<?xml version='1.0'?><methodResponse><params><param><value><string>3.0</string></value></param></params></methodResponse>",
        "HTTP/1.1 200 OK~Content-Type: text/xml~Content-Length: 121~~<?xml version='1.0'?><methodResponse><params><param><value><string>3.0</string></value></param></params></methodResponse>",
    ),
    (
        Status::Ok,
        true,
        "x",
        "HTTP/1.1 200 OK~Content-Type: text/xml~Content-Length: 1~Connection: close~~x",
    ),
    (
        Status::Bad(Refusal::BadRequest),
        true,
        "",
        "HTTP/1.1 400 Bad Request~Content-Type: text/xml~Content-Length: 0~Connection: close~~",
    ),
    (
        Status::Bad(Refusal::Unauthorized),
        true,
        "",
        "HTTP/1.1 401 Unauthorized~Content-Type: text/xml~Content-Length: 0~WWW-Authenticate: Basic realm=\"default\"~Connection: close~~",
    ),
    (
        Status::Bad(Refusal::NotFound),
        true,
        "",
        "HTTP/1.1 404 Not Found~Content-Type: text/xml~Content-Length: 0~Connection: close~~",
    ),
    (
        Status::Bad(Refusal::MethodNotAllowed),
        true,
        "",
        "HTTP/1.1 405 Method Not Allowed~Content-Type: text/xml~Content-Length: 0~Connection: close~~",
    ),
    (
        Status::Bad(Refusal::LengthRequired),
        true,
        "",
        "HTTP/1.1 411 Length Required~Content-Type: text/xml~Content-Length: 0~Connection: close~~",
    ),
    (
        Status::Bad(Refusal::ContentTooLarge),
        true,
        "",
        "HTTP/1.1 413 Content Too Large~Content-Type: text/xml~Content-Length: 0~Connection: close~~",
    ),
    (
        Status::Bad(Refusal::HeadTooLarge),
        true,
        "",
        "HTTP/1.1 431 Request Header Fields Too Large~Content-Type: text/xml~Content-Length: 0~Connection: close~~",
    ),
];

fn guard_of(rt: &impl Abort, name: &str) -> Guard {
    let (username, password) = match name {
        "u" => ("user", Password::Plain(Text::fixed("abc"))),
        "s" => {
            let digest = <[u8; 20] as FromHex>::from_hex(
                "a9993e364706816aba3e25717850c26c9cd0d89d",
            );
            ("user", Password::Sha(digest.ok().expect(rt, "a digest")))
        }
        "p" => ("", Password::Plain(Text::fixed("abc"))),
        "n" => ("user", Password::None),
        "c" => ("user", Password::Plain(Text::fixed("a:b"))),
        "e" => ("", Password::Plain(Text::fixed(""))),
        _ => ("", Password::None),
    };
    Guard {
        username: Text::fixed(username),
        password,
    }
}

/// What a character of a written stream stands for, where it doesn't stand for itself.
fn meaning(character: u8) -> &'static [u8] {
    match character {
        b'~' => b"\r\n",
        b'_' => b"\n",
        b'%' => b"\r",
        b'^' => b"\0",
        b'@' => b"POST /RPC2 HTTP/1.1\r\n",
        b'#' => b"Content-Length: ",
        b'$' => b"Authorization: Basic ",
        _ => &[],
    }
}

fn bytes_of(rt: &impl Abort, alloc: Global, text: &str) -> Vec<u8> {
    let mut bytes = Vec::new(alloc);
    for byte in text.as_bytes() {
        let written = meaning(*byte);
        if written.is_empty() {
            bytes.push(*byte).expect(rt, "ample memory");
        } else {
            bytes.extend_from_slice(written).expect(rt, "ample memory");
        }
    }
    bytes
}

/// Adds a letter and what follows it.
fn put(rt: &impl Abort, told: &mut Vec<u8>, letter: u8, bytes: &[u8]) {
    told.push(letter).expect(rt, "ample memory");
    told.extend_from_slice(bytes).expect(rt, "ample memory");
    told.push(b';').expect(rt, "ample memory");
}

/// Adds an ask to a text, with the body as it stands.
fn tell(rt: &impl Abort, told: &mut Vec<u8>, ask: &Ask) {
    match ask {
        Ask::Call { body, close } => {
            let letter = if *close { b'K' } else { b'C' };
            put(rt, told, letter, body.as_slice());
        }
        Ask::Bad(refusal) => {
            let mut buffer = itoa::Buffer::new();
            let number = buffer.format(Status::Bad(*refusal).number());
            put(rt, told, b'B', number.as_bytes());
        }
    }
}

fn feed(rt: &impl Abort, alloc: Global, reader: &mut HttpReader, piece: &[u8], told: &mut Vec<u8>) {
    let asks = reader.feed(alloc, piece).expect(rt, "ample memory");
    for ask in asks.as_slice() {
        tell(rt, told, ask);
    }
}

/// The stream in pieces of so many bytes, after a first piece of so many.
fn play(
    rt: &impl Abort,
    alloc: Global,
    guard: Guard,
    stream: &[u8],
    first: usize,
    size: usize,
) -> Vec<u8> {
    let mut reader = HttpReader::new(alloc, guard);
    let mut told = Vec::new(alloc);
    let (front, rest) = stream.split_at(first.min(stream.len()));
    feed(rt, alloc, &mut reader, front, &mut told);
    for piece in rest.chunks(size.max(1)) {
        feed(rt, alloc, &mut reader, piece, &mut told);
    }
    told
}

/// The stream, cut after the first piece and in pieces of this size, has these asks.
fn has_asks(
    rt: &impl Abort,
    alloc: Global,
    guard: &str,
    stream: &[u8],
    cut: (usize, usize),
    expected: &[u8],
) {
    let (first, size) = cut;
    let told = play(rt, alloc, guard_of(rt, guard), stream, first, size);
    check(rt, told.as_slice() == expected);
}

/// The stream cut after each byte, and in single bytes.
fn play_cut(rt: &impl Abort, alloc: Global, guard: &str, stream: &[u8], expected: &[u8]) {
    for first in 0..=stream.len() {
        has_asks(rt, alloc, guard, stream, (first, 65_536), expected);
    }
    has_asks(rt, alloc, guard, stream, (0, 1), expected);
}

fn play_line(rt: &impl Abort, alloc: Global, line: &str) {
    let (guard, line) = line.split_once('|').expect(rt, "a guard");
    let (stream, expected) = line.split_once("=>").expect(rt, "a stream and its asks");
    let stream = bytes_of(rt, alloc, stream);
    let expected = bytes_of(rt, alloc, expected);
    play_cut(rt, alloc, guard, stream.as_slice(), expected.as_slice());
}

/// A stream of a front, a byte that stands so often, and what follows it.
fn long_stream(rt: &impl Abort, alloc: Global, parts: (&str, &str, usize, &str)) -> Vec<u8> {
    let (front, repeated, times, back) = parts;
    let mut stream = bytes_of(rt, alloc, front);
    let repeated = bytes_of(rt, alloc, repeated);
    for _ in 0..times {
        stream
            .extend_from_slice(repeated.as_slice())
            .expect(rt, "ample memory");
    }
    let back = bytes_of(rt, alloc, back);
    stream
        .extend_from_slice(back.as_slice())
        .expect(rt, "ample memory");
    stream
}

/// Such a stream in pieces of some sizes.
fn play_long(rt: &impl Abort, alloc: Global, parts: (&str, &str, usize, &str), expected: &str) {
    let stream = long_stream(rt, alloc, parts);
    let expected = expected.as_bytes();
    for size in [1, 7, 4_096, 65_536] {
        has_asks(rt, alloc, "-", stream.as_slice(), (0, size), expected);
    }
}

/// A body of so many bytes.
fn play_body(rt: &impl Abort, alloc: Global, head: &str, length: usize) {
    let mut stream = bytes_of(rt, alloc, head);
    for _ in 0..length {
        stream.push(b'x').expect(rt, "ample memory");
    }
    let told = play(rt, alloc, guard_of(rt, "-"), stream.as_slice(), 0, 4_096);
    check(rt, told.as_slice().len() == length.saturating_add(2));
}

fn play_reply(rt: &impl Abort, alloc: Global, line: &(Status, bool, &str, &str)) {
    let (status, close, body, expected) = line;
    let text = reply(alloc, *status, body.as_bytes(), *close).expect(rt, "ample memory");
    let expected = bytes_of(rt, alloc, expected);
    check(rt, text.as_slice() == expected.as_slice());
}

#[test]
fn streams_and_their_asks(rt: HostRuntime) {
    for line in STREAMS.lines() {
        play_line(&rt, rt.alloc(), line);
    }
}

#[test]
fn limits(rt: HostRuntime) {
    let alloc = rt.alloc();
    play_long(&rt, alloc, ("@X: ", "a", 16_337, "~#0~~"), "C;");
    play_long(&rt, alloc, ("@X: ", "a", 16_338, "~#0~~"), "B431;");
    play_long(&rt, alloc, ("~~~~@X: ", "a", 16_337, "~#0~~"), "C;");
    play_long(&rt, alloc, ("", "a", 16_383, ""), "");
    play_long(&rt, alloc, ("", "a", 16_384, ""), "B431;");
    play_long(&rt, alloc, ("", "~", 10_000, ""), "");
    play_long(&rt, alloc, ("", "~", 10_000, "@#0~~"), "C;");
    play_long(&rt, alloc, ("@", "a: b~", 63, "#0~~"), "C;");
    play_long(&rt, alloc, ("@", "a: b~", 64, "#0~~"), "B400;");
    play_long(
        &rt,
        alloc,
        ("", "@#0~~", 40, ""),
        "C;C;C;C;C;C;C;C;C;C;C;C;C;C;C;C;C;C;C;C;C;C;C;C;C;C;C;C;C;C;C;C;C;C;C;C;C;C;C;C;",
    );
    play_body(&rt, alloc, "@#1048576~~", 1_048_576);
}

#[test]
fn replies(rt: HostRuntime) {
    for line in &REPLIES {
        play_reply(&rt, rt.alloc(), line);
    }
}
