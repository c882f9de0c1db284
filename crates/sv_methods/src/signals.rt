//! Signals by their texts.
ghost use Rattle.std.specs.Prelude.{◌≡◌, ◌<◌, ℕ, IfOk, length};
ghost use Rattle.sv_groups.specs.declared.lookup.Found.TheVariants.{Group};
ghost use Rattle.sv_methods.specs.Acts.{signals_all, signals_found, signals_found_group};
ghost use Rattle.sv_methods.specs.MethodTable.{signal_of};
ghost use Rattle.sv_methods.specs.Outcomes.{outcome};
ghost use Rattle.sv_methods.specs.Scenes.{scene};

use crate::act::{Act, asks_all, asks_found, asks_group};
use crate::planned::{Planned, refused_for};
use crate::stand::Stand;
use std::alloc::{AllocError, Global};
use sv_base::signal::Signal;
use sv_base::text::Text;
use sv_base::words::signal_of as signal_named;
use sv_groups::Found;
use sv_info::fault::Fault;

/// The signal of a text.
pub(crate) fn signal_in(content: &Text) -> Option<Signal>
    ensures { result ≡ signal_of content.now }
{
    signal_named(content.as_str())
}

/// A signal for what was found for a name.
pub(crate) fn signals_found(
    alloc: Global,
    stand: &Stand,
    name: &Text,
    content: &Text,
    signal: Option<Signal>,
    found: Found,
) -> Result<Planned, AllocError>
    requires { (group : ℕ) → found ≡ Group group → group < length stand.now.roster.now }
    ensures { IfOk result (λ planned. outcome planned
        ≡ signals_found (scene stand.now) name.now content.now signal found) }
{
    if found == Found::Nothing {
        return refused_for(alloc, Fault::BadName, name.as_str());
    }
    match signal {
        Some(signal) => asks_found(alloc, Act::Signal(signal), stand, false, name, found),
        None => refused_for(alloc, Fault::BadSignal, content.as_str()),
    }
}

/// A signal for the group that was found for its name.
pub(crate) fn signals_found_group(
    alloc: Global,
    stand: &Stand,
    name: &Text,
    content: &Text,
    signal: Option<Signal>,
    found: Found,
) -> Result<Planned, AllocError>
    requires { (group : ℕ) → found ≡ Group group → group < length stand.now.roster.now }
    ensures { IfOk result (λ planned. outcome planned
        ≡ signals_found_group (scene stand.now) name.now content.now signal found) }
{
    let Found::Group(group) = found else {
        return refused_for(alloc, Fault::BadName, name.as_str());
    };
    match signal {
        Some(signal) => asks_group(alloc, Act::Signal(signal), stand, false, name, group),
        None => refused_for(alloc, Fault::BadSignal, content.as_str()),
    }
}

/// A signal for all processes.
pub(crate) fn signals_all(
    alloc: Global,
    stand: &Stand,
    content: &Text,
    signal: Option<Signal>,
) -> Result<Planned, AllocError>
    ensures { IfOk result (λ planned. outcome planned
        ≡ signals_all (scene stand.now) content.now signal) }
{
    match signal {
        Some(signal) => asks_all(alloc, Act::Signal(signal), stand, false),
        None => refused_for(alloc, Fault::BadSignal, content.as_str()),
    }
}
