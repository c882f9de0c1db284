//! Laws over the definitions: their contracts are the statements, and they do nothing.
ghost use Rattle.std.specs.Prelude.{◌≡◌};
ghost use Rattle.sv_base.specs.declared.kind.Kind.{Kind};
ghost use Rattle.sv_base.specs.KindNames.{kind_name};

/// A law: no two types of events have one name.
#[tactic(auto, using(crate::proofs::KindWords::names_differ))]
pub fn kinds_have_distinct_names()
    ensures { (one other : Kind) → kind_name one ≡ kind_name other → one ≡ other }
{}
