//! What holds of both ends.

ghost use Rattle.std.specs.Prelude.{◌≤◌, ℕ, List};
ghost use Rattle.sv_listener_laws.specs.BothEnds.{AreFit, AreSound, Names, Step, after_all, begun};
ghost use Rattle.sv_listener_laws.specs.InStep.{AreInStep};

/// A law: whatever is done between a daemon and a listener that says what it should, they keep in step. The talk is never
/// outside the protocol; what the listener has heard is what was handed out, but for one event at most; and each event whose
/// result arrived was acknowledged where the verdict was OK, and given back otherwise.
pub fn both_ends_keep_in_step()
    ensures { (names : Names) (buffer : ℕ) (steps : List Step)
        → AreFit names → 1 ≤ buffer → AreSound steps
        → AreInStep names (after_all names (begun buffer) steps) }
{}
