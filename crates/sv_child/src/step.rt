//! What a call gives: the edges that the child went, and the deed that they ask for.
ghost use Rattle.std.specs.Prelude.{◌≡◌, Some, None};
ghost use Rattle.sv_child.specs.Moves.{stays, leads, leads_over};

use sv_base::signal::Signal;
use sv_base::state::State;

/// An edge of the diagram of states, which a child takes.
#[derive(Clone, Copy, PartialEq, Eq)]
pub struct Edge {
    /// The state that it leads from.
    pub from: State,
    /// The state that it leads to.
    pub to: State,
}

/// What is to be done for a child.
#[derive(Clone, Copy, PartialEq, Eq)]
pub enum ChildDeed {
    /// Its process is to be started.
    Spawn,
    /// Its process is to be sent this signal, and with `true` its whole process group too.
    Kill(Signal, bool),
}

/// What came of a call: the edges that the child took, in order, and what is to be done.
#[derive(Clone, Copy, PartialEq, Eq)]
pub struct Step {
    /// The edges, in order.
    pub edges: [Option<Edge>; 2],
    /// The deed, which comes after the edges.
    pub deed: Option<ChildDeed>,
}

impl Step {
    /// No edge, and nothing to be done.
    pub(crate) fn nothing() -> Step
        ensures { result ≡ stays None }
    {
        Step {
            edges: [None, None],
            deed: None,
        }
    }

    /// No edge, but this is to be done.
    pub(crate) fn stays(deed: ChildDeed) -> Step
        ensures { result ≡ stays (Some deed) }
    {
        Step {
            edges: [None, None],
            deed: Some(deed),
        }
    }

    /// One edge.
    pub(crate) fn leads(from: State, to: State, deed: Option<ChildDeed>) -> Step
        ensures { result ≡ leads from to deed }
    {
        Step {
            edges: [Some(Edge { from, to }), None],
            deed,
        }
    }

    /// Two edges, one after the other.
    pub(crate) fn leads_over(from: State, by: State, to: State) -> Step
        ensures { result ≡ leads_over from by to }
    {
        Step {
            edges: [Some(Edge { from, to: by }), Some(Edge { from: by, to })],
            deed: None,
        }
    }
}
