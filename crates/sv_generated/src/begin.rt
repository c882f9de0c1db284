//! The beginning of a run.
ghost use Rattle.std.specs.Prelude.{◌≤◌};
ghost use Rattle.sv_generated.specs.Drawn.{HasDrawn};

use crate::generated::Generated;

/// The run of so many inputs, of which none was drawn; this number is the first state of its generator too.
pub fn generate(number: u64) -> Generated
    requires { number ≤ 1000000 }
    ensures { HasDrawn result number 0 }
{
    Generated::begin(number)
}
