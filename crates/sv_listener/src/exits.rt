//! Reading the body of an event that tells of an exit.

ghost use Rattle.std.specs.Prelude.{◌≡◌, None, Some, MatchOption};
ghost use Rattle.std.specs.Str.{bytes_eq};
ghost use Rattle.sv_base.specs.Names.{state_name};
ghost use Rattle.sv_listener.specs.CrashLines.{crash_in, unexpected};
ghost use Rattle.sv_listener.specs.ExitBody.{ended, exit_in, exit_of, left_from, pid_in, pid_of};
ghost use Rattle.sv_listener.specs.ExitBody.{state_at, state_in, truth_at, truth_in};
ghost use Rattle.sv_listener.specs.ExitCalls.{Reads, said_of};

use crate::events::Heard;
use crate::header::{after, small_number, text};
use sv_base::state::State;

/// An exit, as the body of its event tells it.
#[derive(Clone, Copy)]
pub(crate) struct Exit<'a> {
    pub(crate) name: &'a str,
    pub(crate) group: &'a str,
    pub(crate) from: State,
    pub(crate) expected: bool,
    pub(crate) pid: u32,
}

/// The exit that an event tells of, where it is one and wasn't expected.
pub(crate) fn crash_in(event: &Heard) -> Option<Exit>
    ensures { Reads result (crash_in event.now) }
{
    if event.eventname.as_str() != "PROCESS_STATE_EXITED" {
        return None;
    }
    let exit = read_exit(event.body.as_slice())?;
    unexpected(exit)
}

fn unexpected(exit: Exit) -> Option<Exit>
    ensures { Reads result (unexpected (Some (said_of exit.entry))) }
{
    if exit.expected { None } else { Some(exit) }
}

/// What a body says, where it is that of an exit's event.
#[tactic(auto, unfolding(crate::specs::ExitBody::exit_of))]
fn read_exit(body: &[u8]) -> Option<Exit>
    ensures { Reads result (exit_of body.now) }
{
    if body.contains(&b'\n') {
        return None;
    }
    let rest = after(b"processname:", body)?;
    let (name, rest) = text(rest)?;
    let rest = after(b"groupname:", rest)?;
    let (group, rest) = text(rest)?;
    left_from(name, group, rest)
}

fn left_from<'a>(name: &'a str, group: &'a str, bytes: &[u8]) -> Option<Exit<'a>>
    ensures { Reads result (left_from name.now group.now bytes.now) }
{
    let rest = after(b"from_state:", bytes)?;
    let (from, rest) = state(rest)?;
    let rest = after(b"expected:", rest)?;
    let (expected, rest) = truth(rest)?;
    let rest = after(b"pid:", rest)?;
    let pid = pid(rest)?;
    Some(Exit {
        name,
        group,
        from,
        expected,
        pid,
    })
}

const STATES: [State; 8] = [
    State::Stopped,
    State::Starting,
    State::Running,
    State::Backoff,
    State::Stopping,
    State::Exited,
    State::Fatal,
    State::Unknown,
];

/// The state of this name up to a space, and what follows that.
fn state(bytes: &[u8]) -> Option<(State, &[u8])>
    ensures { MatchOption result (state_at bytes.now ≡ None)
        (λ parts. state_at bytes.now ≡ Some (parts.0, parts.1.now)) }
{
    let (name, rest) = text(bytes)?;
    let state = state_of(name)?;
    Some((state, rest))
}

fn state_of(name: &str) -> Option<State>
    ensures { result ≡ state_in name.now }
{
    STATES
        .iter()
        .copied()
        .find(|state| is_name_of(*state, name))
}

fn is_name_of(state: State, name: &str) -> bool
    ensures { result ≡ bytes_eq (state_name state) name.now }
{
    state.name() == name
}

/// 1 or 0 up to a space, and what follows that.
fn truth(bytes: &[u8]) -> Option<(bool, &[u8])>
    ensures { MatchOption result (truth_at bytes.now ≡ None)
        (λ parts. truth_at bytes.now ≡ Some (parts.0, parts.1.now)) }
{
    let (digit, rest) = text(bytes)?;
    let truth = truth_of(digit)?;
    Some((truth, rest))
}

fn truth_of(digit: &str) -> Option<bool>
    ensures { result ≡ truth_in digit.now }
{
    if digit == "1" {
        return Some(true);
    }
    if digit == "0" {
        return Some(false);
    }
    None
}

/// The number of a process, in digits.
fn pid(digits: &[u8]) -> Option<u32>
    ensures { MatchOption result (pid_in digits.now ≡ None) (λ pid. pid_in digits.now ≡ Some pid) }
{
    pid_of(digits)
}

fn pid_of(digits: &[u8]) -> Option<u32>
    ensures { MatchOption result (pid_of digits.now ≡ None) (λ pid. pid_of digits.now ≡ Some pid) }
{
    let value = small_number(digits)?;
    if value > u64::from(u32::MAX) {
        return None;
    }
    Some(value as u32)
}
