//! The run.
ghost use Rattle.std.specs.Prelude.{◌≡◌, ◌≤◌, ◌+◌, ◌*◌, ◌^◌, ◌++◌, ◌∷◌, [], List, ℕ, IsTrue, IfOk};
ghost use Rattle.std.specs.Prelude.{OnOk};
ghost use Rattle.sv_core.specs.MachineState.{Model};
ghost use Rattle.sv_core.specs.StandsFor.{is_fitting};
ghost use Rattle.sv_generated.specs.Counted.{Counted};
ghost use Rattle.sv_generated.specs.Generated.{answered, generated};
ghost use Rattle.sv_generated.specs.Taken.{Beginning, Begins, IsAfter, IsAsking, first_of};
ghost use Rattle.sv_core.specs.Deeds.{deeds};
ghost use Rattle.sv_out.specs.declared.input.Input.{Input};

use crate::counts::Counts;
use crate::generate;
use crate::inputs::{answer_to, input_of};
use std::alloc::{AllocError, Global};
use sv_core::machine::Machine;
use sv_out::input::Input;

/// At most so many spawns come in a turn: one of each process at a start, and one of each as time goes on.
const MOST_ANSWERS: u32 = 2_050;

/// The machine takes an input, and its orders are counted.
fn take(
    alloc: Global,
    machine: &mut Machine,
    input: Input,
    counts: &mut Counts,
) -> Result<(), AllocError>
    requires fits { IsTrue (is_fitting machine.old input) }
    requires spawns { counts.old.spawns ≤ 4294967295 }
    requires kills { counts.old.kills ≤ 2 ^ 100 }
    requires edges { counts.old.edges ≤ 2 ^ 100 }
    ensures after { OnOk result ((first : Model) (inputs : List Input) →
        IsAfter machine.old counts.old first inputs →
        IsAfter machine.new counts.new first (inputs ++ input ∷ [])) }
    ensures few_kills { counts.new.kills ≤ counts.old.kills + 2 ^ 64 }
    ensures few_edges { counts.new.edges ≤ counts.old.edges + 2 ^ 64 }
{
    let orders = machine.step(alloc, input)?;
    counts.add(orders.as_slice());
    Ok(())
}

/// Each spawn of the turn in hand is answered.
fn answer_all(alloc: Global, machine: &mut Machine, counts: &mut Counts) -> Result<(), AllocError>
    requires asking { IsAsking machine.old counts.old 2050 }
    requires kills { counts.old.kills ≤ 2 ^ 99 }
    requires edges { counts.old.edges ≤ 2 ^ 99 }
    ensures after { OnOk result ((begins : Beginning) (inputs : List Input) →
        IsAfter machine.old counts.old (first_of begins) inputs →
        IsAfter machine.new counts.new (first_of begins) (answered (first_of begins) inputs)) }
    ensures few_kills { counts.new.kills ≤ counts.old.kills + 2050 * 2 ^ 64 }
    ensures few_edges { counts.new.edges ≤ counts.old.edges + 2050 * 2 ^ 64 }
{
    for _ in 0..MOST_ANSWERS {
        if !machine.awaits() {
            return Ok(());
        }
        take(alloc, machine, answer_to(counts.spawns), counts)?;
    }
    Ok(())
}

/// The machine, which begins, goes through the run of so many inputs; its orders are counted. Each spawn is answered,
/// which isn't counted as an input.
pub fn run(alloc: Global, machine: Machine, number: u64) -> Result<Counts, AllocError>
    requires few { number ≤ 1000000 }
    requires begins { (begins : Beginning) × Begins machine begins }
    ensures { IfOk result (λ counts. (begins : Beginning) → Begins machine begins →
        Counted counts (deeds (first_of begins) (generated (first_of begins) number))) }
{
    let mut machine = machine;
    run_through(alloc, &mut machine, number)
}

/// The machine, which begins, goes through the run.
fn run_through(alloc: Global, machine: &mut Machine, number: u64) -> Result<Counts, AllocError>
    requires few { number ≤ 1000000 }
    requires begins { (begins : Beginning) × Begins machine.old begins }
    ensures { IfOk result (λ counts. (begins : Beginning) → Begins machine.old begins →
        Counted counts (deeds (first_of begins) (generated (first_of begins) number))) }
{
    let mut counts = Counts::none();
    let mut generated = generate(number);
    while let Some(draw) = generated.draw(counts.spawns) {
        take(alloc, machine, input_of(alloc, draw)?, &mut counts)?;
        answer_all(alloc, machine, &mut counts)?;
    }
    Ok(counts)
}
