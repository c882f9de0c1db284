//! The event that an edge of a child gives.
ghost use Rattle.std.specs.Prelude.{◌≡◌, IfOk, pos};
ghost use Rattle.std.specs.List.{list_any};
ghost use Rattle.std.specs.Ordering.{int_eq};
ghost use Rattle.sv_children.specs.EdgeFacts.{fact_at, fact_of, is_expected, kind_of, pid_at};

use crate::{Children, Member};
use std::alloc::AllocError;
use sv_base::kind::Kind;
use sv_base::spec::Spec;
use sv_base::state::State;
use sv_child::child::Child;
use sv_child::step::Edge;
use sv_events::Fact;

/// The type of the event of entering this state.
pub fn kind_of(state: State) -> Kind
    ensures { result ≡ kind_of state }
{
    match state {
        State::Stopped => Kind::ProcessStateStopped,
        State::Starting => Kind::ProcessStateStarting,
        State::Running => Kind::ProcessStateRunning,
        State::Backoff => Kind::ProcessStateBackoff,
        State::Stopping => Kind::ProcessStateStopping,
        State::Exited => Kind::ProcessStateExited,
        State::Fatal => Kind::ProcessStateFatal,
        State::Unknown => Kind::ProcessStateUnknown,
    }
}

/// What the event of an edge tells of the child of a place; `None` where no child is there. The child is as it is after its
/// step, and `pid` is the number that its process had before it, 0 where it had none.
pub fn fact_at(
    children: &Children,
    place: usize,
    pid: u32,
    edge: Edge,
) -> Result<Option<Fact>, AllocError>
    ensures { IfOk result (λ f. f ≡ fact_at children.now place pid edge) }
{
    match children.member(place) {
        None => Ok(None),
        Some(member) => {
            let fact = fact_of(&member, pid, edge)?;
            Ok(Some(fact))
        }
    }
}

/// The number of the process of the child of a place; 0 where it has none, or no child is there.
pub fn pid_at(children: &Children, place: usize) -> u32
    ensures { result ≡ pid_at children.now place }
{
    match children.as_slice().get(place) {
        None => 0,
        Some(child) => child.pid,
    }
}

fn fact_of(member: &Member<'_>, pid: u32, edge: Edge) -> Result<Fact, AllocError>
    ensures { IfOk result (λ f. f ≡ fact_of pid (record {
      group = member.now.group.now;
      spec = member.now.spec.now;
      child = member.now.child.now;
    }) edge) }
{
    let name = member.spec.name.clone()?;
    let group = member.group.name.clone()?;
    let from = edge.from;
    Ok(match edge.to {
        State::Starting | State::Backoff => Fact::Trying {
            name,
            group,
            from,
            tries: member.child.tries.get(),
        },
        State::Running | State::Stopping | State::Stopped => Fact::Living {
            name,
            group,
            from,
            pid,
        },
        State::Exited => Fact::Ended {
            name,
            group,
            from,
            expected: is_expected(member.spec, member.child),
            pid,
        },
        State::Fatal | State::Unknown => Fact::GaveUp { name, group, from },
    })
}

/// Whether the last exit of a child was expected: its code is among those that the configuration names.
pub fn is_expected(spec: &Spec, child: &Child) -> bool
    ensures { result ≡ is_expected spec.now child.now }
{
    is_among(spec.exitcodes.as_slice(), child.exit)
}

fn is_among(codes: &[u8], exit: i32) -> bool
    ensures { result ≡ list_any (λ code. int_eq (pos code) exit) codes.now }
{
    codes.iter().any(|code| i32::from(*code) == exit)
}
