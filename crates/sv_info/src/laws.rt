//! Laws of the definitions.
ghost use Rattle.std.specs.Prelude.{◌≡◌, ℕ, List, map};
ghost use Rattle.sv_base.specs.declared.spec.Spec.{Spec};
ghost use Rattle.sv_child.specs.declared.child.Child.{Child};
ghost use Rattle.sv_info.specs.Examples.{AreFaultTexts, IsClock, member_names};
ghost use Rattle.sv_info.specs.Info.{info_members};

/// What is said of a process has fourteen members, always the same ones in the same order.
pub fn fourteen_members()
    ensures { (group : List ℕ) (spec : Spec) (child : Child) (now : ℕ)
        → map (λ m. m.0) (info_members group spec child now) ≡ member_names }
{}

/// Texts that were worked out by hand are those of the definitions.
pub fn worked_texts()
    ensures clock { IsClock }
    ensures faults { AreFaultTexts }
{}
