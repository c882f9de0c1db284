//! The line of a generated run.
ghost use Rattle.std.specs.Prelude.{◌≡◌, ◌≤◌, IfOk, string_bytes};
ghost use Rattle.sv_core.specs.Deeds.{deeds};
ghost use Rattle.sv_generated.specs.Counted.{run_line};
ghost use Rattle.sv_generated.specs.Generated.{generated};
ghost use Rattle.sv_generated.specs.Taken.{Beginning, Begins, first_of};

use std::alloc::{AllocError, Global};
use sv_core::machine::Machine;
use sv_generated::run;

/// The line of the run of so many inputs, at most 1,000,000, from this machine on, which begins: how many inputs it has,
/// not counting the answers of spawns, and how many spawns, signals and reports of an edge the machine gave.
pub(crate) fn line_of_run(
    alloc: Global,
    machine: Machine,
    number: u64,
) -> Result<String, AllocError>
    requires few { number ≤ 1000000 }
    requires begins { (begins : Beginning) × Begins machine begins }
    ensures { IfOk result (λ line. (begins : Beginning) → Begins machine begins →
        string_bytes line ≡ run_line number
        (deeds (first_of begins) (generated (first_of begins) number))) }
{
    let counts = run(alloc, machine, number)?;
    let mut line = String::from_str(alloc, "inputs ")?;
    let mut digits = itoa::Buffer::new();
    line.push_str(digits.format(number))?;
    line.push_str(" spawns ")?;
    line.push_str(digits.format(counts.spawns))?;
    line.push_str(" kills ")?;
    line.push_str(digits.format(counts.kills))?;
    line.push_str(" edges ")?;
    line.push_str(digits.format(counts.edges))?;
    line.push('\n')?;
    Ok(line)
}
