//! Replies of more than a mebibyte, written and read in pieces, with ample memory.

use std::alloc::Global;
use std::process::Abort;
use sv_http::reply::reply;
use sv_http::{Replied, ReplyReader, Status};

/// Sizes of bodies, multiples of 16, and the heads of their replies.
static REPLIES: [(usize, &str); 2] = [
    (
        1_048_592,
        "HTTP/1.1 200 OK\r\nContent-Type: text/xml\r\nContent-Length: 1048592\r\n\r\n",
    ),
    (
        4_194_304,
        "HTTP/1.1 200 OK\r\nContent-Type: text/xml\r\nContent-Length: 4194304\r\n\r\n",
    ),
];

fn body_of(rt: &impl Abort, alloc: Global, size: usize) -> Vec<u8> {
    let mut body = Vec::new(alloc);
    for _ in 0..size / 16 {
        body.extend_from_slice(b"abcdefghijklmnop")
            .expect(rt, "ample memory");
    }
    body
}

/// What a reader makes of a text that comes in pieces.
fn read_in_pieces(rt: &impl Abort, alloc: Global, text: &[u8]) -> Option<Replied> {
    let mut reader = ReplyReader::new(alloc);
    let mut found = None;
    for piece in text.chunks(65_536) {
        found = reader.feed(alloc, piece).expect(rt, "a reply");
    }
    found
}

#[test]
fn replies_of_more_than_a_mebibyte(rt: HostRuntime) {
    let alloc = rt.alloc();
    for &(size, head) in &REPLIES {
        let body = body_of(&rt, alloc, size);
        let text = reply(alloc, Status::Ok, body.as_slice(), false).expect(&rt, "ample memory");
        let behind_head = text.as_slice().strip_prefix(head.as_bytes());
        assert!(rt; behind_head == Some(body.as_slice()), "{size}");
        let replied = read_in_pieces(&rt, alloc, text.as_slice()).expect(&rt, "a whole reply");
        assert!(rt; replied.status == 200, "{size}");
        assert!(rt; replied.body.as_slice() == body.as_slice(), "{size}");
    }
}
