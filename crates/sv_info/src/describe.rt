//! What is said of a process in words.
ghost use Rattle.std.specs.Prelude.{◌≡◌, ◌++◌, IfOk, OnOk, string_bytes};
ghost use Rattle.sv_info.specs.Info.{cause_text, description, stop_text, up_text};

use crate::times::{push_moment, push_number, push_uptime, seconds_since};
use std::alloc::{AllocError, Global};
use sv_base::moment::Moment;
use sv_base::state::State;
use sv_base::text::Text;
use sv_child::child::Child;

/// What is said of the child of a process of this name, by its state.
pub(crate) fn description(
    alloc: Global,
    name: &str,
    child: &Child,
    now: Moment,
) -> Result<Text, AllocError>
    ensures { IfOk result (λ text. text ≡ description name.now child.now now) }
{
    match child.state {
        State::Running => up_text(alloc, child.pid, seconds_since(child.start, now)),
        State::Fatal | State::Backoff => cause_text(alloc, name, &child.fault),
        State::Stopped | State::Exited => stop_text(alloc, child.stop),
        _ => Ok(Text::fixed("")),
    }
}

fn up_text(alloc: Global, pid: u32, seconds: u64) -> Result<Text, AllocError>
    ensures { IfOk result (λ text. text ≡ up_text pid seconds) }
{
    let mut text = String::from_str(alloc, "pid ")?;
    push_number(&mut text, u64::from(pid))?;
    text.push_str(", uptime ")?;
    push_uptime(&mut text, seconds)?;
    Ok(Text::from_string(text))
}

/// Why a process of this name isn't up.
fn cause_text(alloc: Global, name: &str, fault: &Text) -> Result<Text, AllocError>
    ensures { IfOk result (λ text. text ≡ cause_text name.now fault.now) }
{
    if !fault.as_str().is_empty() {
        return fault.clone();
    }
    let mut text = String::from_str(alloc, "unknown error (try \"tail ")?;
    text.push_str(name)?;
    text.push_str("\")")?;
    Ok(Text::from_string(text))
}

fn stop_text(alloc: Global, stop: Option<Moment>) -> Result<Text, AllocError>
    ensures { IfOk result (λ text. text ≡ stop_text stop) }
{
    let Some(stop) = stop else {
        return Ok(Text::fixed("Not started"));
    };
    let mut text = String::new(alloc);
    push_moment(&mut text, stop)?;
    Ok(Text::from_string(text))
}
