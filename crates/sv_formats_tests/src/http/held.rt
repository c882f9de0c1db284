//! How many bytes of a stream are read and not decided, with the numbers written out.

use crate::checks::check;
use std::alloc::Global;
use std::process::Abort;
use sv_base::config::Password;
use sv_base::text::Text;
use sv_http::{Guard, HttpReader};

/// A stream, and how many of its bytes aren't decided. The start line has 21 bytes, the field line of a length 19.
const STREAMS: [(&str, u64); 19] = [
    ("", 0),
    ("\r\n", 0),
    ("\r\n\n\r\r\n", 0),
    ("\r\n\r\nP", 1),
    ("POST /RPC2 HTTP/1.1\r\n", 21),
    ("\r\nPOST /RPC2 HTTP/1.1\r\n", 21),
    ("POST /RPC2 HTTP/1.1\r\nContent-Length: 5\r\n", 40),
    ("POST /RPC2 HTTP/1.1\r\nContent-Length: 5\r\n\r", 41),
    ("POST /RPC2 HTTP/1.1\r\nContent-Length: 5\r\n\r\n", 42),
    ("\r\nPOST /RPC2 HTTP/1.1\r\nContent-Length: 5\r\n\r\nh", 43),
    ("POST /RPC2 HTTP/1.1\r\nContent-Length: 5\r\n\r\nhell", 46),
    ("POST /RPC2 HTTP/1.1\r\nContent-Length: 5\r\n\r\nhello", 0),
    (
        "POST /RPC2 HTTP/1.1\r\nContent-Length: 5\r\n\r\nhello\r\n",
        0,
    ),
    (
        "POST /RPC2 HTTP/1.1\r\nContent-Length: 5\r\n\r\nhello\r\nPOST",
        4,
    ),
    ("POST /RPC2 HTTP/1.1\r\nContent-Length: 0\r\n\r\n", 0),
    (
        "POST /RPC2 HTTP/1.1\r\nContent-Length: 0\r\n\r\nPOST /RPC2 HTTP/1.1\r\nContent-Length: 2\r\n\r\n\r",
        43,
    ),
    ("x\r\n\r", 4),
    ("x\r\n\r\n", 0),
    ("x\r\n\r\nPOST /RPC2 HTTP/1.1\r\n", 0),
];

fn new_reader(alloc: Global) -> HttpReader {
    let guard = Guard {
        username: Text::fixed(""),
        password: Password::None,
    };
    HttpReader::new(alloc, guard)
}

fn feed(rt: &impl Abort, alloc: Global, reader: &mut HttpReader, piece: &[u8]) {
    let _asks = reader.feed(alloc, piece).expect(rt, "ample memory");
}

/// The stream at once, and in single bytes.
fn play(rt: &impl Abort, alloc: Global, row: &(&str, u64)) {
    let (stream, expected) = row;
    let mut whole = new_reader(alloc);
    feed(rt, alloc, &mut whole, stream.as_bytes());
    check(rt, whole.held() == *expected);
    let mut cut = new_reader(alloc);
    for piece in stream.as_bytes().chunks(1) {
        feed(rt, alloc, &mut cut, piece);
    }
    check(rt, cut.held() == *expected);
}

/// A prefix, a byte that stands so often, and what follows it.
fn repeated(
    rt: &impl Abort,
    alloc: Global,
    front: &str,
    byte: u8,
    times: usize,
    back: &str,
) -> Vec<u8> {
    let mut bytes = Vec::new(alloc);
    bytes
        .extend_from_slice(front.as_bytes())
        .expect(rt, "ample memory");
    for _ in 0..times {
        bytes.push(byte).expect(rt, "ample memory");
    }
    bytes
        .extend_from_slice(back.as_bytes())
        .expect(rt, "ample memory");
    bytes
}

#[test]
fn held_of_streams(rt: HostRuntime) {
    for row in &STREAMS {
        play(&rt, rt.alloc(), row);
    }
}

/// The longest head, and its body but for one byte.
#[test]
fn most_held(rt: HostRuntime) {
    let alloc = rt.alloc();
    let front = "POST /RPC2 HTTP/1.1\r\nContent-Length: 1048576\r\nX: ";
    let head = repeated(&rt, alloc, front, b'a', 16_331, "\r\n\r\n");
    let body = repeated(&rt, alloc, "", b'x', 1_048_575, "");
    let mut reader = new_reader(alloc);
    check(&rt, reader.held() == 0);
    feed(&rt, alloc, &mut reader, head.as_slice());
    check(&rt, reader.held() == 16_384);
    feed(&rt, alloc, &mut reader, body.as_slice());
    check(&rt, reader.held() == 1_064_959);
    feed(&rt, alloc, &mut reader, b"x");
    check(&rt, reader.held() == 0);
}

/// A head that is too long is refused.
#[test]
fn too_long_a_head(rt: HostRuntime) {
    let alloc = rt.alloc();
    let front = repeated(&rt, alloc, "", b'a', 16_383, "");
    let mut reader = new_reader(alloc);
    feed(&rt, alloc, &mut reader, front.as_slice());
    check(&rt, reader.held() == 16_383);
    feed(&rt, alloc, &mut reader, b"a");
    check(&rt, reader.held() == 0);
    feed(&rt, alloc, &mut reader, b"a");
    check(&rt, reader.held() == 0);
}
