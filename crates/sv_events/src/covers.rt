//! Which types of event cover which.
ghost use Rattle.std.specs.Prelude.{◌≡◌, ◌↔◌, ◌⊎◌, IsTrue, Some};
ghost use Rattle.sv_base.specs.declared.kind.Kind.{Kind};
ghost use Rattle.sv_events.specs.Covers.{Covers, parent_of};

use sv_base::kind::Kind;

/// Whether a pool that asks for `parent` is told of events of type `kind`: each type covers itself, the plain name of
/// a family covers the family, and EVENT covers all.
pub fn covers(parent: Kind, kind: Kind) -> bool
    ensures { IsTrue result ↔ Covers parent kind }
{
    is_covering(parent, kind)
}

fn is_covering(parent: Kind, kind: Kind) -> bool
    ensures { IsTrue result
        ↔ ((parent ≡ kind) ⊎ (parent ≡ Kind.Event) ⊎ (parent_of kind ≡ Some parent)) }
{
    parent == kind || parent == Kind::Event || is_right_above(parent, kind)
}

fn is_right_above(upper: Kind, lower: Kind) -> bool
    ensures { IsTrue result ↔ (parent_of lower ≡ Some upper) }
{
    match parent_of(lower) {
        Some(parent) => parent == upper,
        None => false,
    }
}

/// The event type right above this one; EVENT has none.
pub fn parent_of(kind: Kind) -> Option<Kind>
    ensures { result ≡ parent_of kind }
{
    match kind {
        Kind::Event => None,
        Kind::ProcessState => Some(Kind::Event),
        Kind::ProcessStateStarting => Some(Kind::ProcessState),
        Kind::ProcessStateRunning => Some(Kind::ProcessState),
        Kind::ProcessStateBackoff => Some(Kind::ProcessState),
        Kind::ProcessStateStopping => Some(Kind::ProcessState),
        Kind::ProcessStateExited => Some(Kind::ProcessState),
        Kind::ProcessStateStopped => Some(Kind::ProcessState),
        Kind::ProcessStateFatal => Some(Kind::ProcessState),
        Kind::ProcessStateUnknown => Some(Kind::ProcessState),
        Kind::ProcessCommunication => Some(Kind::Event),
        Kind::ProcessCommunicationStdout => Some(Kind::ProcessCommunication),
        Kind::ProcessCommunicationStderr => Some(Kind::ProcessCommunication),
        Kind::ProcessLog => Some(Kind::Event),
        Kind::ProcessLogStdout => Some(Kind::ProcessLog),
        Kind::ProcessLogStderr => Some(Kind::ProcessLog),
        Kind::RemoteCommunication => Some(Kind::Event),
        Kind::SupervisorStateChange => Some(Kind::Event),
        Kind::SupervisorStateChangeRunning => Some(Kind::SupervisorStateChange),
        Kind::SupervisorStateChangeStopping => Some(Kind::SupervisorStateChange),
        Kind::Tick => Some(Kind::Event),
        Kind::Tick5 => Some(Kind::Tick),
        Kind::Tick60 => Some(Kind::Tick),
        Kind::Tick3600 => Some(Kind::Tick),
        Kind::ProcessGroup => Some(Kind::Event),
        Kind::ProcessGroupAdded => Some(Kind::ProcessGroup),
        Kind::ProcessGroupRemoved => Some(Kind::ProcessGroup),
    }
}
