//! When the daemon has to look at a child again.
ghost use Rattle.std.specs.Prelude.{◌≡◌, ◌≤◌, IfSome, pos};
ghost use Rattle.std.specs.List.{list_any};
ghost use Rattle.std.specs.Ordering.{int_eq};
ghost use Rattle.sv_child.specs.Moves.{has_tired, is_first_start, restarts};
ghost use Rattle.sv_child.specs.Rewind.{wait_of};
ghost use Rattle.sv_children.specs.Wake.{is_past, is_settled, is_within, wake_moment};

use sv_base::moment::{Deadline, Moment};
use sv_base::spec::Spec;
use sv_base::state::{Autorestart, State};
use sv_child::child::Child;

/// The moment from which time may do something to a child: its deadline, the moment 0 where something is to be done at once,
/// and `None` where it waits for something else than time.
pub(crate) fn wake_moment(spec: &Spec, child: &Child) -> Option<Deadline>
    ensures { result ≡ wake_moment spec.now child.now }
{
    match child.state {
        State::Starting | State::Stopping => child.deadline,
        State::Backoff if has_tired(spec, child) => Some(at_once()),
        State::Backoff => child.deadline,
        State::Exited if restarts(spec, child) => Some(at_once()),
        State::Stopped if is_first_start(spec, child) => Some(at_once()),
        _ => None,
    }
}

/// The moment 0 as a deadline.
fn at_once() -> Deadline
    ensures { result ≡ 0 }
{
    Moment::zero().later(0)
}

/// Whether more starts failed in a row than are tried again.
fn has_tired(spec: &Spec, child: &Child) -> bool
    ensures { result ≡ has_tired spec.now child.now }
{
    child.tries.get() > spec.startretries.get()
}

/// Whether it is to be started with the daemon, and never was.
fn is_first_start(spec: &Spec, child: &Child) -> bool
    ensures { result ≡ is_first_start spec.now child.now }
{
    child.start.is_none() && spec.autostart
}

/// Whether it is to be started again after its exit.
fn restarts(spec: &Spec, child: &Child) -> bool
    ensures { result ≡ restarts spec.now child.now }
{
    match spec.autorestart {
        Autorestart::Always => true,
        Autorestart::Unexpected => !is_expected(spec.exitcodes.as_slice(), child.exit),
        Autorestart::Never => false,
    }
}

/// Whether this exit is among the expected codes.
fn is_expected(codes: &[u8], exit: i32) -> bool
    ensures { result ≡ list_any (λ code. int_eq (pos code) exit) codes.now }
{
    codes.iter().any(|code| i32::from(*code) == exit)
}

/// Whether a child stays as it is when it is rewound to this moment or a later one.
pub(crate) fn is_settled(spec: &Spec, child: &Child, now: Moment) -> bool
    ensures { result ≡ is_settled spec.now child.now now }
{
    is_past(child.start, now)
        && is_past(child.stop, now)
        && is_within(child.deadline, wait_of(spec, child), now)
}

/// How many seconds a deadline of its state waits.
fn wait_of(spec: &Spec, child: &Child) -> Option<u32>
    ensures value { result ≡ wait_of spec.now child.now child.now.state }
    ensures most { IfSome result (λ seconds. seconds ≤ 1000001) }
{
    match child.state {
        State::Starting => Some(spec.startsecs.get()),
        State::Backoff => Some(child.tries.get()),
        State::Stopping => Some(spec.stopwaitsecs.get()),
        _ => None,
    }
}

/// Whether the moment, if there is one, is no later than now.
fn is_past(moment: Option<Moment>, now: Moment) -> bool
    ensures { result ≡ is_past moment now }
{
    match moment {
        Some(moment) => moment <= now,
        None => true,
    }
}

/// Whether the deadline is no further off than so many seconds.
fn is_within(deadline: Option<Deadline>, seconds: Option<u32>, now: Moment) -> bool
    requires { IfSome seconds (λ seconds. seconds ≤ 1000001) }
    ensures { result ≡ is_within deadline seconds now }
{
    match (deadline, seconds) {
        (Some(deadline), Some(seconds)) => deadline <= now.later(seconds),
        _ => true,
    }
}
