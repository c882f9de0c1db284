//! A law of the machine of `sv_core` over all lists of inputs: a cut of a client's bytes that is idle changes nothing.
#![tactic(auto)]

ghost use Rattle.std.specs.Prelude.{List, ℕ};
ghost use Rattle.sv_base.specs.declared.config.Config.{Config};
ghost use Rattle.sv_base.specs.declared.config.Host.{Host};
ghost use Rattle.sv_core.specs.MachineState.{opening};
ghost use Rattle.sv_cut_laws.specs.IdleCut.{ChangesNothing, Cut, IsIdle};

/// Whatever the machine is told, a cut of a client's bytes that is idle changes nothing: where the first of two pieces of a link at one
/// moment is answered by More alone, the machine's deeds are those of the one piece that both make, but for that More; what is told
/// later of orders that failed has their numbers, which are then smaller by one.
pub fn an_idle_cut_changes_nothing()
    ensures { (config : Config) (sizes : List (List ℕ × ℕ)) (host : Host) (cut : Cut) →
        IsIdle (opening config sizes host) cut → ChangesNothing (opening config sizes host) cut }
{}
