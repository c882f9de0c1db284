//! Runs that begin, write and end, with the parts written out by hand.
use crate::checks::check_of;
use crate::parts::{APART, JOINED, behind_parts, piece_of};
use std::alloc::Global;
use std::process::Abort;
use std::rt::HostRuntime;
use sv_base::ids::Run;
use sv_base::state::Stream;
use sv_pipes::Part;
use sv_runs::streams::Streams;

/// Each line is a script. A digit names a run. `b1=0.12.-.10.0` begins it, of child 0 with the pid 12, whose messages on
/// stdout have at most 10 bytes, and which has no capture on stderr; with `r` for `-` its stderr is redirected. `o1=TEXT` and
/// `e1=TEXT` are pieces of its stdout and stderr, where `[` stands for the whole mark BEGIN and `]` for END, and `.o1` and
/// `.e1` end a pipe. Behind a colon stand the parts that come of it: `L` with the bytes for the log or `M` with a message, and
/// `;`. `?1` asks for its child and pid and for the channel of its stderr.
const SCRIPTS: &str = "\
b1=0.12.-.0.0 ?1:0.12e o1=hi:Lhi; e1=oh:Loh; o1=a[b]<:La[b]<; o1= .o1 o1=late e1=no:Lno; ?1:0.12e .e1 ?1:- e1=late .e1
b1=0.12.-.10.10 o1=a<:La; e1=b<:Lb; .o1:L<; o1=c .o1 e1=!c:L<!c; e1=<!:  .e1:L<!; .e1 ?1:-
b1=0.12.-.10.0 o1=a[b]c:La;Mb;Lc; e1=a[b]c:La[b]c; .e1 o1=<!-: o1=-x:L<!--x; .o1 ?1:-
b1=0.12.-.3.2 o1=[hello]:Mllo; e1=[hello]:Mlo; o1=[he o1=llo o1=]!:Mllo;L!; .o1 .e1 ?1:-
b1=0.12.-.10.10 o1=a[bc:La; .o1 e1=[ e1=de<!-- .e1 ?1:- o1=]x
b1=0.12.r.10.10 ?1:0.12o e1=a<:La; o1=!- .o1 o1=zz e1=x:L<!-x; e1=<: .o1 .e1:L<; .e1 ?1:-
b1=0.12.r.10.10 e1=a<:La; .e1 e1=b .e1 o1=!b:L<!b; o1=<! ?1:0.12o .o1:L<!; ?1:- o1=c
b1=0.12.r.10.0 o1=[he e1=llo o1=]x:Mhello;Lx; e1=[a]:Ma; .o1 e1=[b .e1 ?1:-
b1=0.12.r.0.10 o1=[a:L[a; e1=]<:L]<; .e1 .o1 ?1:-
b1=0.12.-.0.10 o1=a:La; b2=0.13.-.10.0 ?1:0.12e ?2:0.13e o1=b:Lb; e1=[c]:Mc; o2=[d]:Md; .o1 .e1 ?1:- ?2:0.13e o2=e:Le;
b1=0.12.-.10.0 o1=< b1=1.13.r.0.0 ?1:1.13o o1=a:La; e1=b:Lb; .o1 ?1:1.13o .e1 ?1:-
?7:- o7=a e7=b .o7 .e7 ?7:- b7=2.14.-.0.0 e7=b:Lb; ?7:2.14e
";

/// A stream of 56 bytes, which logs `ab`, has the message `hello` and logs `cd<`.
const STREAM: &str = "ab<!--XSUPERVISOR:BEGIN-->hello<!--XSUPERVISOR:END-->cd<";

#[test]
fn plays_scripts(rt: HostRuntime) {
    let alloc = rt.alloc();
    for script in SCRIPTS.lines() {
        let mut streams = Streams::new(alloc);
        for word in script.split_whitespace() {
            play(&rt, alloc, &mut streams, word);
        }
    }
}

#[test]
fn cuts_a_stream_anywhere(rt: HostRuntime) {
    for first in 0..57 {
        for second in 0..57 {
            play_cut(&rt, rt.alloc(), false, first, second);
            play_cut(&rt, rt.alloc(), true, first, second);
        }
    }
}

/// Makes one step of a script, and looks at what comes of it.
fn play(rt: &impl Abort, alloc: Global, streams: &mut Streams, word: &str) {
    let (step, wanted) = word.split_once(':').unwrap_or((word, ""));
    let wanted = spelled(rt, alloc, wanted.as_bytes());
    let wanted = std::str::from_utf8(wanted.as_slice()).unwrap_or("no text");
    make(rt, alloc, streams, step, wanted);
}

/// Makes a step, of which this comes.
fn make(rt: &impl Abort, alloc: Global, streams: &mut Streams, step: &str, wanted: &str) {
    match step.as_bytes() {
        [b'b', number, b'=', ..] => begin(rt, alloc, streams, run(*number), step),
        [b'o', number, b'=', text @ ..] => {
            fed(
                rt,
                alloc,
                streams,
                (run(*number), Stream::Out),
                text,
                wanted,
            );
        }
        [b'e', number, b'=', text @ ..] => {
            fed(
                rt,
                alloc,
                streams,
                (run(*number), Stream::Err),
                text,
                wanted,
            );
        }
        [b'.', b'o', number] => at_end(rt, alloc, streams, (run(*number), Stream::Out), wanted),
        [b'.', b'e', number] => at_end(rt, alloc, streams, (run(*number), Stream::Err), wanted),
        [b'?', number] => asked(rt, alloc, streams, run(*number), wanted),
        _ => panic!(rt; "no step is {step}"),
    }
}

/// One of the pipes of a run.
type Pipe = (Run, Stream);

/// The parts that a piece of a pipe gives.
fn parts_of(
    rt: &impl Abort,
    alloc: Global,
    streams: &mut Streams,
    pipe: Pipe,
    text: &[u8],
) -> Vec<Part> {
    let piece = spelled(rt, alloc, text);
    let parts = streams.feed(alloc, pipe.0, pipe.1, piece.as_slice());
    parts.expect(rt, "memory")
}

/// These are the parts.
fn are_parts(rt: &impl Abort, parts: &[Part], wanted: &str) {
    let left = behind_parts(rt, wanted, parts, APART);
    assert!(rt; left.is_empty(), "{left} isn't told");
}

/// Gives a piece to a pipe, of which these parts come.
fn fed(
    rt: &impl Abort,
    alloc: Global,
    streams: &mut Streams,
    pipe: Pipe,
    text: &[u8],
    wanted: &str,
) {
    let parts = parts_of(rt, alloc, streams, pipe, text);
    are_parts(rt, parts.as_slice(), wanted);
}

/// Ends a pipe, of which these parts come.
fn at_end(rt: &impl Abort, alloc: Global, streams: &mut Streams, pipe: Pipe, wanted: &str) {
    let parts = streams.end(alloc, pipe.0, pipe.1).expect(rt, "memory");
    are_parts(rt, parts.as_slice(), wanted);
}

fn run(number: u8) -> Run {
    Run(u32::from(number.saturating_sub(b'0')))
}

/// What a run begins with.
#[derive(Clone, Copy)]
struct Beginning {
    child: usize,
    pid: u32,
    redirect: bool,
    out_limit: u64,
    err_limit: u64,
}

/// The child, the pid, the redirection and the limits that stand in a text.
fn read_beginning(rt: &impl Abort, text: &str) -> Beginning {
    let mut fields = text.split('.');
    Beginning {
        child: number(rt, fields.next()) as usize,
        pid: number(rt, fields.next()),
        redirect: fields.next() == Some("r"),
        out_limit: u64::from(number(rt, fields.next())),
        err_limit: u64::from(number(rt, fields.next())),
    }
}

/// Begins a run, whose child, pid, redirection and limits stand after the sign.
fn begin(rt: &impl Abort, alloc: Global, streams: &mut Streams, run: Run, step: &str) {
    let (_, text) = step.split_once('=').expect(rt, "what it begins with");
    let with = read_beginning(rt, text);
    streams
        .begin(
            alloc,
            run,
            with.child,
            with.pid,
            with.redirect,
            with.out_limit,
            with.err_limit,
        )
        .expect(rt, "memory");
}

fn number(rt: &impl Abort, field: Option<&str>) -> u32 {
    let field = field.expect(rt, "a number");
    field.parse::<u32>().expect(rt, "a number")
}

/// The bytes of a text, with the marks written out.
fn spelled(rt: &impl Abort, alloc: Global, text: &[u8]) -> Vec<u8> {
    let mut bytes = Vec::new(alloc);
    for byte in text {
        let written: &[u8] = match *byte {
            b'[' => b"<!--XSUPERVISOR:BEGIN-->",
            b']' => b"<!--XSUPERVISOR:END-->",
            _ => &[],
        };
        if written.is_empty() {
            bytes.push(*byte).expect(rt, "memory");
        } else {
            bytes.extend_from_slice(written).expect(rt, "memory");
        }
    }
    bytes
}

/// The letter of the channel of its stderr.
fn letter(channel: Stream) -> char {
    match channel {
        Stream::Out => 'o',
        Stream::Err => 'e',
    }
}

/// Whose output it is, and the channel of its stderr.
fn asked(rt: &impl Abort, alloc: Global, streams: &Streams, run: Run, wanted: &str) {
    match (streams.owner(run), streams.channel(run, Stream::Err)) {
        (None, None) => check_of(rt, wanted == "-", "it has no owner"),
        (Some(owner), Some(channel)) => {
            let letter = letter(channel);
            let told = format!(in alloc; "{}.{}{letter}", owner.child, owner.pid).expect(
                rt, "memory",
            );
            assert!(rt; told.as_str() == wanted, "{told} is its owner");
        }
        _ => panic!(rt; "an owner without a channel"),
    }
}

/// Streams of which the first run has begun.
fn begun(rt: &impl Abort, alloc: Global, redirect: bool) -> Streams {
    let mut streams = Streams::new(alloc);
    streams
        .begin(alloc, Run(1), 0, 12, redirect, 10, 0)
        .expect(rt, "memory");
    streams
}

/// Gives a piece to a pipe of the first run: what is left to tell.
fn left_after_piece<'a>(
    rt: &impl Abort,
    alloc: Global,
    streams: &mut Streams,
    pipe: Stream,
    piece: &[u8],
    left: &'a str,
) -> &'a str {
    let parts = streams
        .feed(alloc, Run(1), pipe, piece)
        .expect(rt, "memory");
    behind_parts(rt, left, parts.as_slice(), JOINED)
}

/// Ends a pipe of the first run: what is left to tell.
fn left_after_end<'a>(
    rt: &impl Abort,
    alloc: Global,
    streams: &mut Streams,
    pipe: Stream,
    left: &'a str,
) -> &'a str {
    let parts = streams.end(alloc, Run(1), pipe).expect(rt, "memory");
    behind_parts(rt, left, parts.as_slice(), JOINED)
}

/// The stream on one pipe of a run, cut after so many bytes.
fn play_cut(rt: &impl Abort, alloc: Global, redirect: bool, first: usize, second: usize) {
    let pipe = if redirect { Stream::Err } else { Stream::Out };
    let mut streams = begun(rt, alloc, redirect);
    let mut left = "ab(hello)cd<";
    let mut from = 0usize;
    for to in 1..57usize {
        if to == first || to == second || to == 56 {
            let piece = piece_of(rt, STREAM, from, to);
            left = left_after_piece(rt, alloc, &mut streams, pipe, piece, left);
            from = to;
        }
    }
    left = left_after_end(rt, alloc, &mut streams, Stream::Err, left);
    left = left_after_end(rt, alloc, &mut streams, Stream::Out, left);
    assert!(rt; left.is_empty(), "cut behind {first} and {second}");
}
