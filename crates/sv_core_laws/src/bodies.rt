//! Laws of events: what a child's edges, its output and its messages offer has the body of its type.
ghost use Rattle.std.specs.Prelude.{◌≡◌, List, ℕ, Option, Some, true};
ghost use Rattle.sv_base.specs.declared.state.State.{State};
ghost use Rattle.sv_base.specs.declared.state.Stream.{Stream};
ghost use Rattle.sv_children.specs.Crew.{Member};
ghost use Rattle.sv_core.specs.Output.{log_fact, log_kind, message_fact, message_kind};
ghost use Rattle.sv_core_laws.specs.Bodies.Bodies.{tells};
ghost use Rattle.sv_events.specs.declared.fact.Fact.{Fact};
ghost use Rattle.sv_children.specs.EdgeFacts.{entry_fact, kind_of};

/// A law: the event of entering a state tells a fact of its type's form.
#[tactic(auto, using(crate::proofs::BodiesLemmas::Bodies::entry_tells))]
pub fn each_edge_has_its_body()
    ensures { (to from : State) (pid : ℕ) (member : Member)
        → tells (kind_of to) (entry_fact to pid member from) ≡ true }
{}

/// A law: so does the event of a logged piece.
#[tactic(auto, using(crate::proofs::BodiesLemmas::Bodies::log_tells))]
pub fn each_logged_piece_has_its_body()
    ensures { (pid : ℕ) (channel : Stream) (member : Option Member) (bytes : List ℕ) (fact : Fact)
        → log_fact pid channel member bytes ≡ Some fact → tells (log_kind channel) fact ≡ true }
{}

/// A law: so does the event of a message between the tokens of a capture.
#[tactic(auto, using(crate::proofs::BodiesLemmas::Bodies::message_tells))]
pub fn each_message_has_its_body()
    ensures { (pid : ℕ) (channel : Stream) (member : Option Member) (bytes : List ℕ) (fact : Fact)
        → message_fact pid member bytes ≡ Some fact → tells (message_kind channel) fact ≡ true }
{}
