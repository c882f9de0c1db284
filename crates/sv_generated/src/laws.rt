//! What holds of the definitions that the contracts cite.
ghost use Rattle.std.specs.Prelude.{◌≡◌};
ghost use Rattle.sv_generated.specs.Drawn.{nth_draw};
ghost use Rattle.sv_generated.specs.Generator.{state_after};
ghost use Rattle.sv_generated.specs.declared.draw.Draw.TheVariants.{Stop};

/// A law: the first state after 1 is 1103527590, so the one input of the run of one is the stop of program 9 at 0.
pub fn the_run_of_one()
    ensures state { state_after 1 1 ≡ 1103527590 }
    ensures draw { nth_draw 1 0 0 ≡ Stop 0 9 }
{}
