//! Runs that begin, talk and end, with the answers written out by hand.
use crate::checks::check_of;
use std::alloc::Global;
use std::process::Abort;
use std::rt::HostRuntime;
use sv_base::ids::Run;
use sv_base::state::Stream;
use sv_pipes::Token;
use sv_runs::Runs;

/// Each line is a script over two children. A digit names a run. `l1.0` begins it as a listener of child 0, `p1.0` as
/// another process; `h1=TEXT` is a piece of its stdout, where `/` is a line feed and `_` a space, with the tokens that it
/// ends after a colon: `R` for READY, `+` and the bytes of a result, `W` for the first wrong byte. `s1` sends it an event;
/// `x1`, `o1` and `e1` end its process, stdout and stderr; `c1` closes its stdin, `u1` loses it. `?1` asks for its child if
/// its process lives, its child if it is talking, and whether it is ready; `k` whose stdin is closed.
const SCRIPTS: &str = "\
l1.0 ?1:00- h1=READY/:R ?1:00r s1 ?1:00- h1=RESULT_2/OK:+OK ?1:00- h1=READY/:R ?1:00r
l1.0 h1=REA h1=DY/:R s1 h1=RESULT_5/FAI h1=LxREADY/:+FAILxR ?1:00r
l1.0 h1=READY/x:RW ?1:00- s1 ?1:00- h1=READY/ ?1:00-
l1.0 s1 h1=READY/:R ?1:00r s1 s1 h1=RESULT_0/:+
l1.0 h1=READY/:R x1 ?1:--- s1 h1=RESULT_2/OK o1 ?1:--- e1 ?1:--- h1=READY/
l1.0 h1=READY/:R o1 ?1:0-r h1=RESULT_2/OK e1 ?1:0-r s1 ?1:0-- x1 ?1:--- x1
l1.0 e1 ?1:00- h1=READY/:R ?1:00r x1 ?1:--- o1 ?1:---
l1.1 h1=READY/:R s1 u1 ?1:1-- h1=RESULT_2/OK s1 ?1:1-- x1 o1 e1 ?1:---
l1.0 h1=READY/:R x1 l2.0 ?2:00- ?1:--- h1=RESULT_2/OK h2=READY/:R o1 e1 ?2:00r
l1.0 p2.1 ?2:1-- h2=READY/ s2 ?2:1-- k:-- c2 k:-x c2 c1 k:xx x2 p3.1 k:x- c2 k:x- c3 k:xx
l1.0 h1=READY/:R l1.1 ?1:11- h1=READY/:R ?1:11r
?7:--- h7=READY/ s7 x7 o7 e7 u7 c7 k:-- p7.5 ?7:5-- c7 k:--
";

#[test]
fn plays_scripts(rt: HostRuntime) {
    let alloc = rt.alloc();
    for script in SCRIPTS.lines() {
        play_all(&rt, alloc, script, true);
        play_all(&rt, alloc, script, false);
    }
}

/// Plays a script, with its pieces whole or byte by byte.
fn play_all(rt: &impl Abort, alloc: Global, script: &str, is_whole: bool) {
    let mut runs = Runs::new(alloc, 2).expect(rt, "memory");
    for word in script.split(' ') {
        play(rt, alloc, &mut runs, word, is_whole);
    }
}

/// Makes one step of a script, and looks at what comes of it.
fn play(rt: &impl Abort, alloc: Global, runs: &mut Runs, word: &str, is_whole: bool) {
    let (step, wanted) = word.split_once(':').unwrap_or((word, ""));
    let mut told = String::new(alloc);
    make(rt, alloc, runs, step, is_whole, &mut told);
    check_of(rt, told.as_str() == wanted, word);
}

/// Makes the step, and adds what comes of it.
fn make(
    rt: &impl Abort,
    alloc: Global,
    runs: &mut Runs,
    step: &str,
    is_whole: bool,
    told: &mut String,
) {
    match step.as_bytes() {
        [b'l', number, b'.', child] => begin(rt, alloc, runs, *number, *child, true),
        [b'p', number, b'.', child] => begin(rt, alloc, runs, *number, *child, false),
        [b'h', number, b'=', text @ ..] => {
            let size = if is_whole { text.len() } else { 1 };
            for piece in text.chunks(size.max(1)) {
                hear(rt, alloc, runs, run(*number), piece, told);
            }
        }
        [b's', number] => runs.sent(run(*number)),
        [b'x', number] => runs.end_process(run(*number)),
        [b'o', number] => runs.end_pipe(run(*number), Stream::Out),
        [b'e', number] => runs.end_pipe(run(*number), Stream::Err),
        [b'c', number] => runs.lose_stdin(run(*number)),
        [b'u', number] => runs.lose(run(*number)),
        [b'?', number] => asked(rt, runs, run(*number), told),
        [b'k'] => closed(rt, runs, told),
        _ => panic!(rt; "no step is {step}"),
    }
}

fn begin(
    rt: &impl Abort,
    alloc: Global,
    runs: &mut Runs,
    number: u8,
    child: u8,
    is_listener: bool,
) {
    let child = usize::from(digit(child));
    let begun = runs.begin(alloc, run(number), child, 100, is_listener);
    begun.expect(rt, "memory");
}

fn digit(byte: u8) -> u8 {
    byte.saturating_sub(b'0')
}

fn run(number: u8) -> Run {
    Run(u32::from(digit(number)))
}

/// The bytes of a piece.
fn spelled(rt: &impl Abort, alloc: Global, piece: &[u8]) -> Vec<u8> {
    let mut bytes = Vec::new(alloc);
    for byte in piece {
        let byte = match byte {
            b'/' => b'\n',
            b'_' => b' ',
            other => *other,
        };
        bytes.push(byte).expect(rt, "memory");
    }
    bytes
}

/// The tokens that a piece ends.
fn heard(rt: &impl Abort, alloc: Global, runs: &mut Runs, run: Run, piece: &[u8]) -> Vec<Token> {
    let bytes = spelled(rt, alloc, piece);
    runs.hear(alloc, run, bytes.as_slice()).expect(rt, "memory")
}

/// Gives a piece to a run and adds what it tells.
fn hear(
    rt: &impl Abort,
    alloc: Global,
    runs: &mut Runs,
    run: Run,
    piece: &[u8],
    told: &mut String,
) {
    let tokens = heard(rt, alloc, runs, run, piece);
    for token in tokens.as_slice() {
        tell(rt, told, token);
    }
}

/// Adds a token.
fn tell(rt: &impl Abort, told: &mut String, token: &Token) {
    match token {
        Token::Ready => told.push('R').expect(rt, "memory"),
        Token::Result(body) => {
            told.push('+').expect(rt, "memory");
            let text = std::str::from_utf8(body.as_slice()).unwrap_or("");
            told.push_str(text).expect(rt, "memory");
        }
        Token::Wrong => told.push('W').expect(rt, "memory"),
    }
}

/// Adds what is asked of a run.
fn asked(rt: &impl Abort, runs: &Runs, run: Run, told: &mut String) {
    told.push(place(runs.living(run))).expect(rt, "memory");
    told.push(place(runs.teller(run))).expect(rt, "memory");
    let ready = if runs.is_ready(run) { 'r' } else { '-' };
    told.push(ready).expect(rt, "memory");
}

fn place(child: Option<usize>) -> char {
    match child {
        None => '-',
        Some(0) => '0',
        Some(1) => '1',
        Some(_) => '5',
    }
}

/// Adds whose stdin is closed.
fn closed(rt: &impl Abort, runs: &Runs, told: &mut String) {
    for is_closed in runs.closed() {
        told.push(if *is_closed { 'x' } else { '-' })
            .expect(rt, "memory");
    }
}
