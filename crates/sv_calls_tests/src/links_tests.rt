//! Links whose pieces come, whose requests are answered and that end, with what comes of each step written out by hand.
use crate::checks::{check, check_of};
use std::alloc::Global;
use std::process::Abort;
use std::rt::HostRuntime;
use sv_base::config::Password;
use sv_base::ids::LinkId;
use sv_base::text::Text;
use sv_http::{Ask, Guard, Status};
use sv_links::{LINK_LIMIT, Links};

/// Each line is a script; a digit names a link. `o1` opens it, `g1` for those with a password alone: `+` where it is served.
/// `f1=TEXT` is a piece: a small letter is a request with this letter as its body, a capital one with `Connection: close`, a
/// digit one of HTTP/1.0, `!` one for another target; `<` and `>` before these mean its first 20 bytes and the others. `t1`
/// begins the next request: its body, and `.` where it closes, or the number of a refusal. `r1` answers the request in hand,
/// `c1` so that the link closes: `s` where this is sent. `m1` gives More: `+` where it does. `e1`, `l1` and `k1` end the link:
/// its client ended, an order failed, Close is given. `p1` asks whether a piece may come, `i1` whether the link was opened
/// or is the next, `q1` how many of its
/// requests aren't begun; `w` lists the links that are open, and `b` those that are open or have a request in hand.
const SCRIPTS: &str = "\
o1:+ o2:+ f1=<a f2=<b t1: t2: m1:+ m2:+ m1:- f2=>b t2:b f1=>a t1:a r2:s m2:+ r1:s m1:+ w:12
o1:+ f1=abc q1:3 t1:a q1:2 t1: m1:- r1:s p1:- t1:b m1:- r1:s m1:- t1:c r1:s t1: p1:- m1:+ m1:- p1:+
o1:+ f1=aBc t1:a r1:s t1:B. p1:- c1:s t1: m1:- b: w: p1:+ f1=d t1: r1:-
o1:+ f1=5a t1:5. c1:s t1: m1:- b:
o1:+ f1=a!b t1:a r1:s t1:404 c1:s t1: f1=b t1: m1:- b:
g1:+ f1=a t1:401 c1:s b:
o1:+ f1=ab t1:a e1 b:1 q1:0 w: t1: m1:- p1:+ f1=c r1:- b: t1: c1:-
o1:+ f1=a t1:a l1 c1:- b: o2:+ f2=a t2:a r2:s m2:+
o1:+ f1=a t1:a r1:s l1 b: f1=b t1: m1:-
o1:+ f1=a t1:a p1:+ f1=b t1: m1:- r1:s t1:b r1:s m1:+
o1:+ m1:- f1=<a m1:+ m1:- t1: p1:+ f1=>a m1:- t1:a
o1:+ o2:+ o3:+ w:123 b:123 e2 w:13 b:13 k1 k3 k3 w: b:
o1:+ o2:+ f2=a t2:a e1 e2 b:2 w: r2:- b:
i0:- i1:n o1:+ i1:i i2:n i3:- t7: r7:- m7:- e7 l7 k7 f7=a t0: q1:0 q7:0 b:1
";

#[test]
fn plays_scripts(rt: HostRuntime) {
    let alloc = rt.alloc();
    for script in SCRIPTS.lines() {
        play_all(&rt, alloc, script, true);
        play_all(&rt, alloc, script, false);
    }
}

/// The 65th link gets Close and is never served; once one of the others ended, one more is.
#[test]
fn serves_as_many_as_may_be_open(rt: HostRuntime) {
    let alloc = rt.alloc();
    let mut links = Links::new(alloc);
    for number in 1..=64 {
        open(&rt, alloc, &mut links, number, true);
    }
    open(&rt, alloc, &mut links, 65, false);
    feed(&rt, alloc, &mut links, 65, b"a", true);
    links.end(LinkId(65));
    nothing_of(&rt, &mut links, 65);
    links.end(LinkId(7));
    open(&rt, alloc, &mut links, 66, true);
    open(&rt, alloc, &mut links, 67, false);
    feed(&rt, alloc, &mut links, 66, b"a", true);
    asked(&rt, &mut links, 66, "a");
    is_last(&rt, alloc, &links, LinkId(66));
    check_of(&rt, LINK_LIMIT == 64, "the limit");
}

/// This link is the last of those that are served.
fn is_last(rt: &impl Abort, alloc: Global, links: &Links, link: LinkId) {
    let busy = links.busy_links(alloc).expect(rt, "memory");
    check_of(rt, busy.last() == Some(&link), "it is served");
}

/// Nothing comes of a link that is over.
fn nothing_of(rt: &impl Abort, links: &mut Links, number: u32) {
    let link = LinkId(number);
    check_of(rt, links.takes_piece(link), "a piece may come");
    check_of(rt, links.take_ask(link).is_none(), "it asks nothing");
    check_of(rt, !links.answer(link, false), "nothing is sent");
    check_of(rt, !links.give_more(link), "it gets no More");
    check_of(rt, links.left(link) == 0, "nothing is left");
}

/// Plays a script, with its pieces whole or byte by byte.
fn play_all(rt: &impl Abort, alloc: Global, script: &str, is_whole: bool) {
    let mut links = Links::new(alloc);
    for word in script.split(' ') {
        play(rt, alloc, &mut links, word, is_whole);
    }
}

/// Makes one step of a script, and looks at what comes of it.
fn play(rt: &impl Abort, alloc: Global, links: &mut Links, word: &str, is_whole: bool) {
    let (step, wanted) = word.split_once(':').unwrap_or((word, ""));
    match step.as_bytes() {
        [b'o', number] => open(rt, alloc, links, digit(*number), wanted == "+"),
        [b'g', number] => open_guarded(rt, alloc, links, digit(*number)),
        [b'f', number, b'=', text @ ..] => {
            feed(rt, alloc, links, digit(*number), text, is_whole);
        }
        [b't', number] => asked(rt, links, digit(*number), wanted),
        [b'w'] => are_open(rt, alloc, links, wanted),
        [b'b'] => are_busy(rt, alloc, links, wanted),
        [deed, number] => {
            let told = other(rt, links, *deed, LinkId(digit(*number)));
            check_of(rt, wanted == told, word);
        }
        _ => panic!(rt; "no step is {word}"),
    }
}

/// Makes one of the steps that only name a link: what comes of it.
fn other(rt: &impl Abort, links: &mut Links, deed: u8, link: LinkId) -> &'static str {
    match deed {
        b'r' => told(links.answer(link, false), "s"),
        b'c' => told(links.answer(link, true), "s"),
        b'm' => told(links.give_more(link), "+"),
        b'p' => told(links.takes_piece(link), "+"),
        b'i' if links.is_next(link) => "n",
        b'i' => told(links.is_issued(link), "i"),
        b'q' => count(links.left(link)),
        _ => over(rt, links, deed, link),
    }
}

/// Makes a link end.
fn over(rt: &impl Abort, links: &mut Links, deed: u8, link: LinkId) -> &'static str {
    match deed {
        b'e' => links.end(link),
        b'l' => links.lose(link),
        b'k' => links.close(link),
        _ => panic!(rt; "no step is {deed}"),
    }
    ""
}

fn told(holds: bool, word: &'static str) -> &'static str {
    if holds { word } else { "-" }
}

fn count(left: usize) -> &'static str {
    match left {
        0 => "0",
        1 => "1",
        2 => "2",
        3 => "3",
        _ => "more",
    }
}

fn digit(byte: u8) -> u32 {
    u32::from(byte.saturating_sub(b'0'))
}

/// Opens a link for all, which is served or not.
fn open(rt: &impl Abort, alloc: Global, links: &mut Links, number: u32, served: bool) {
    assert!(rt; links.is_next(LinkId(number)), "{number} is next");
    let guard = guard(Password::None);
    let is_served = links
        .begin(alloc, LinkId(number), guard)
        .expect(rt, "memory");
    assert!(rt; is_served == served, "whether {number} is served");
}

/// Opens a link for those with a password.
fn open_guarded(rt: &impl Abort, alloc: Global, links: &mut Links, number: u32) {
    let guard = guard(Password::Plain(Text::fixed("secret")));
    let is_served = links
        .begin(alloc, LinkId(number), guard)
        .expect(rt, "memory");
    assert!(rt; is_served, "{number} is served");
}

fn guard(password: Password) -> Guard {
    Guard {
        username: Text::fixed(""),
        password,
    }
}

/// Gives a link the requests that these marks name, whole or byte by byte.
fn feed(
    rt: &impl Abort,
    alloc: Global,
    links: &mut Links,
    number: u32,
    marks: &[u8],
    is_whole: bool,
) {
    let bytes = requests(rt, alloc, marks);
    let size = if is_whole { bytes.len() } else { 1 };
    for piece in bytes.as_slice().chunks(size.max(1)) {
        links
            .feed(alloc, LinkId(number), piece)
            .expect(rt, "memory");
    }
}

/// The requests that these marks name.
fn requests(rt: &impl Abort, alloc: Global, marks: &[u8]) -> Vec<u8> {
    let mut bytes = Vec::new(alloc);
    match marks {
        [b'<', mark] => {
            let head = head(*mark);
            put(rt, &mut bytes, &head[..head.len().min(20)]);
        }
        [b'>', mark] => {
            let head = head(*mark);
            put(rt, &mut bytes, &head[head.len().min(20)..]);
            put_body(rt, &mut bytes, *mark);
        }
        marks => for mark in marks {
            put(rt, &mut bytes, head(*mark));
            put_body(rt, &mut bytes, *mark);
        },
    }
    bytes
}

fn put(rt: &impl Abort, bytes: &mut Vec<u8>, more: &[u8]) {
    bytes.extend_from_slice(more).expect(rt, "memory");
}

/// What stands before the body of a request.
fn head(mark: u8) -> &'static [u8] {
    let head = match mark {
        b'!' => "GET / HTTP/1.1\r\n\r\n",
        b'0'..=b'9' => "POST /RPC2 HTTP/1.0\r\nContent-Length: 1\r\n\r\n",
        b'A'..=b'Z' => "POST /RPC2 HTTP/1.1\r\nConnection: close\r\nContent-Length: 1\r\n\r\n",
        _ => "POST /RPC2 HTTP/1.1\r\nContent-Length: 1\r\n\r\n",
    };
    head.as_bytes()
}

fn put_body(rt: &impl Abort, bytes: &mut Vec<u8>, mark: u8) {
    if mark != b'!' {
        bytes.push(mark).expect(rt, "memory");
    }
}

/// Whether a request has this body, with `.` behind it where the link closes after its reply, or is refused by this number.
fn is_told(ask: &Ask, wanted: &str) -> bool {
    match ask {
        Ask::Call { body, close } => {
            let text = wanted.strip_suffix('.').unwrap_or(wanted);
            body.as_slice() == text.as_bytes() && *close == wanted.ends_with('.')
        }
        Ask::Bad(refusal) => {
            let number = u64::from(Status::Bad(*refusal).number());
            wanted.parse::<u64>() == Ok(number)
        }
    }
}

/// Begins the next request of a link, and looks at it.
fn asked(rt: &impl Abort, links: &mut Links, number: u32, wanted: &str) {
    let is_wanted = match &links.take_ask(LinkId(number)) {
        None => wanted.is_empty(),
        Some(ask) => is_told(ask, wanted),
    };
    assert!(rt; is_wanted, "what link {number} asks");
}

fn are_open(rt: &impl Abort, alloc: Global, links: &Links, wanted: &str) {
    let links = links.open_links(alloc).expect(rt, "memory");
    are_named(rt, links.as_slice(), wanted.as_bytes());
}

fn are_busy(rt: &impl Abort, alloc: Global, links: &Links, wanted: &str) {
    let links = links.busy_links(alloc).expect(rt, "memory");
    are_named(rt, links.as_slice(), wanted.as_bytes());
}

/// These are the links that the digits name.
fn are_named(rt: &impl Abort, links: &[LinkId], digits: &[u8]) {
    check(rt, links.len() == digits.len());
    for (link, byte) in links.iter().zip(digits.iter()) {
        let number = digit(*byte);
        assert!(rt; link.0 == number, "{number} is listed");
    }
}
