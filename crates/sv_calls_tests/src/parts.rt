//! Parts of a child's output as the tests write them.
use std::process::Abort;
use sv_pipes::Part;

/// What is written before and behind what is logged, and before and behind a message.
#[derive(Clone, Copy)]
pub struct Marks {
    logged: (&'static str, &'static str),
    message: (&'static str, &'static str),
}

/// Each part has its letter before and a semicolon behind it.
pub const APART: Marks = Marks {
    logged: ("L", ";"),
    message: ("M", ";"),
};

/// What is logged is joined; messages stand in round brackets.
pub const JOINED: Marks = Marks {
    logged: ("", ""),
    message: ("(", ")"),
};

/// What is left of a text after this, with which it begins.
fn behind<'a>(rt: &impl Abort, text: &'a str, first: &str) -> &'a str {
    match text.strip_prefix(first) {
        Some(left) => left,
        None => panic!(rt; "{first} comes in place of {text}"),
    }
}

/// What is left of a text after these parts, with which it begins.
pub fn behind_parts<'a>(rt: &impl Abort, text: &'a str, parts: &[Part], marks: Marks) -> &'a str {
    let mut left = text;
    for part in parts {
        let (bytes, (before, after)) = match part {
            Part::Logged(bytes) => (bytes, marks.logged),
            Part::Message(bytes) => (bytes, marks.message),
        };
        let told = std::str::from_utf8(bytes.as_slice()).unwrap_or("no text");
        left = behind(rt, left, before);
        left = behind(rt, left, told);
        left = behind(rt, left, after);
    }
    left
}

/// The bytes of a stream from one place to another.
pub fn piece_of<'a>(rt: &impl Abort, stream: &'a str, from: usize, to: usize) -> &'a [u8] {
    stream.as_bytes().get(from..to).expect(rt, "a piece")
}
