//! Laws of the configuration.

ghost use Rattle.std.specs.Prelude.{◌≡◌, ◌↔◌, [], ℕ, List, Bool, true, IsTrue, Ok, Err};
ghost use Rattle.sv_base.specs.Roster.{is_roster};
ghost use Rattle.sv_base.specs.declared.config.Config.{Config};
ghost use Rattle.sv_base.specs.declared.config.Host.{Host};
ghost use Rattle.sv_base.specs.declared.spec.GroupSpec.{GroupSpec};
ghost use Rattle.sv_conf.specs.Configuration.{configuration_of, each_once, of_groups};
ghost use Rattle.sv_conf.specs.Limits.{AreTooMany};
ghost use Rattle.sv_sections.specs.declared.fault.ConfFault.TheVariants.{TooMany};
ghost use Rattle.sv_sections.specs.declared.server.Others.{Others};

/// A law: where no name is a duplicate, a configuration has too many groups or processes exactly past 256 groups or
/// past 1,024 processes, and is accepted otherwise.
#[tactic(auto, using(crate::proofs::FewEnough::too_many_past_the_limits))]
pub fn too_many_exactly_past_the_limits()
    ensures { (others : Others) (rpc : Bool) (groups : List GroupSpec)
        → each_once [] groups ≡ Ok true
        → (of_groups others rpc groups ≡ Err TooMany) ↔ AreTooMany groups }
{}

/// A law: the groups of an accepted configuration are a roster: few enough, each in its place, no name twice.
pub fn accepted_groups_are_a_roster()
    ensures { (main : List ℕ) (included : List (List ℕ × List ℕ)) (host : Host) (config : Config)
        → configuration_of main included host ≡ Ok config → IsTrue (is_roster config.groups) }
{}
