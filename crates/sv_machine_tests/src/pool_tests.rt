//! Calls of a pool with what it holds after them, worked out by hand.
use crate::checks::check_of;
use std::alloc::Global;
use std::process::Abort;
use sv_base::bytes::Bytes;
use sv_base::kind::Kind;
use sv_events::event::Event;
use sv_pool::{Dropped, Pool};

// Each line is a script: the buffer's size, the number of listeners, and steps with what each is to answer.
// `a` takes an event, whose serials are 100, 101, 102 and so on; `a!0` is to report that the pool's event 0 is dropped.
// `n0` finds event 0 first, `n-` none. `t1` hands the first one to listener 1, `k1` acknowledges its event, `r1` rejects
// it, and `r1!2` is to report that event 2 is dropped. `f3` gives up three events.
const SCRIPTS: &str = "\
1 1 n-
1 1 f0 n-
1 1 a n0
1 1 a a!0 n1
1 1 a a!0 a!1 n2
1 1 a t0 n-
1 1 a t0 k0 n- f0
1 1 a t0 r0 n0
1 1 a t0 a n1
1 1 a t0 a r0!1 n0
1 1 a t0 a r0!1 a!0 n2
1 1 a t0 a a!1 n2
1 1 a t0 k0 a n1 t0 k0 n-
1 1 a f1 n-
1 1 a t0 f1 n- f0
1 1 a t0 a f2 n- f0
1 1 a f1 a n1
1 2 a t1 a t0 n-
1 2 a t0 a t1 f2 n-
1 2 a t0 a t1 r0 n0
1 2 a t0 a t1 r0 r1!0 n1
1 2 a t0 a t1 r1 r0!1 n0
1 2 a t0 a t1 k0 r1 n1
1 2 a t0 a t1 k1 r0 n0 t1 k1 f0
1 2 a t1 r1 t0 k0 n-
3 1 a a a n0
3 1 a a a a!0 n1
3 1 a a a t0 a a!1 n2
3 1 a a a t0 r0 n0
3 1 a a a t0 a r0!1 n0 t0 n2
3 1 a a t0 k0 t0 k0 n-
3 1 a a t0 k0 a t0 k0 n2
3 1 a a a f3 n-
3 1 a a a t0 f3 n- f0
3 1 a t0 r0 t0 r0 t0 r0 n0 f1
3 2 a a t0 t1 n- r0 r1 n1 t0 n0
3 2 a a t0 t1 r1 r0 n0 t0 n1
3 2 a a t0 t1 k1 r0 n0
3 2 a a a t0 t1 a a r0!2 n0 t0 n3
3 2 a a a t0 t1 a a r0!2 r1!0 n1 t0 n3
3 2 a a a t1 t0 a a f5 n-
3 2 a a a a!0 a!1 t0 t1 r1 n3 r0 n2 f3
";

#[test]
fn plays_scripts(rt: HostRuntime) {
    for script in SCRIPTS.lines() {
        play(&rt, rt.alloc(), script);
    }
}

fn play(rt: &impl Abort, alloc: Global, script: &str) {
    let mut words = script.split(' ');
    let buffer = digit(words.next().unwrap_or(""));
    let listeners = digit(words.next().unwrap_or(""));
    let mut pool = pool_of(rt, alloc, buffer, listeners);
    let mut serial = 100;
    for word in words {
        serial = step(rt, alloc, &mut pool, word, serial);
    }
    drop(pool);
}

/// A pool of this size for so many listeners.
fn pool_of(rt: &impl Abort, alloc: Global, buffer: u32, listeners: u32) -> Pool {
    assert!(rt; 1 <= buffer && buffer <= 9 && listeners <= 9);
    Pool::new(alloc, buffer, listeners).expect(rt, "memory")
}

/// The number that a word of one digit writes.
fn digit(word: &str) -> u32 {
    match word.as_bytes() {
        [digit] => u32::from(digit.saturating_sub(b'0').min(9)),
        _ => 0,
    }
}

/// Makes one step, and gives the serial of the event that comes next.
fn step(rt: &impl Abort, alloc: Global, pool: &mut Pool, word: &str, serial: u64) -> u64 {
    match word.as_bytes() {
        [b'a', report @ ..] => {
            let report = is_reported(accept(rt, alloc, pool, serial), report);
            check_of(rt, report, word);
            serial.wrapping_add(1)
        }
        step => {
            check_of(rt, is_done(rt, pool, step), word);
            serial
        }
    }
}

/// Makes one step but that of an event that comes: whether it answers what it is to.
fn is_done(rt: &impl Abort, pool: &mut Pool, step: &[u8]) -> bool {
    match step {
        [b'n', number] => is_next(pool, *number),
        [b't', listener] => take(rt, pool, place(*listener)),
        [b'k', listener] => acknowledge(rt, pool, place(*listener)),
        [b'r', listener, report @ ..] => is_reported(reject(rt, pool, place(*listener)), report),
        [b'f', number] => pool.forget() == place(*number),
        _ => false,
    }
}

fn place(digit: u8) -> u32 {
    u32::from(digit.saturating_sub(b'0'))
}

/// The event of this serial.
fn event(rt: &impl Abort, alloc: Global, serial: u64) -> Event {
    Event {
        kind: Kind::Tick5,
        serial,
        body: Bytes::from_slice(alloc, b"when:5").expect(rt, "memory"),
    }
}

fn accept(rt: &impl Abort, alloc: Global, pool: &mut Pool, serial: u64) -> Option<Dropped> {
    pool.accept(event(rt, alloc, serial)).expect(rt, "memory")
}

/// Whether the event of this digit is next, or none where it is no digit.
fn is_next(pool: &Pool, digit: u8) -> bool {
    match pool.next_for() {
        Some((event, poolserial)) => digit != b'-' && is_numbered(event.serial, poolserial, digit),
        None => digit == b'-',
    }
}

/// Whether the event of this digit has these numbers, among all and in the pool.
fn is_numbered(serial: u64, poolserial: u64, digit: u8) -> bool {
    let wanted = u64::from(place(digit));
    poolserial == wanted && serial == 100 + wanted
}

fn take(rt: &impl Abort, pool: &mut Pool, listener: u32) -> bool {
    assert!(rt; pool.next_for().is_some() && pool.is_free(listener));
    pool.took(listener);
    true
}

fn acknowledge(rt: &impl Abort, pool: &mut Pool, listener: u32) -> bool {
    assert!(rt; pool.is_holding(listener));
    pool.acknowledged(listener);
    true
}

fn reject(rt: &impl Abort, pool: &mut Pool, listener: u32) -> Option<Dropped> {
    assert!(rt; pool.is_holding(listener));
    pool.rejected(listener)
}

/// Whether what was dropped is what the report of a script says.
fn is_reported(dropped: Option<Dropped>, report: &[u8]) -> bool {
    match dropped {
        Some(dropped) => match report {
            [b'!', digit] => is_numbered(dropped.serial, dropped.poolserial, *digit),
            _ => false,
        },
        None => report.is_empty(),
    }
}
