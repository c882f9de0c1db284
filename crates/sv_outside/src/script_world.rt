//! A world in memory.
ghost use Rattle.std.specs.Prelude.{◌≡◌, ◌≤◌, [], Some, length};
ghost use Rattle.sv_out.specs.Plans.{none_made};
ghost use Rattle.sv_outside.specs.Worlds.{tell_failure, tells_failure};

use crate::copies::{copy_input, copy_order};
use crate::world::{NextFault, World};
use std::alloc::{AllocError, Global};
use sv_out::input::Input;
use sv_out::order::Order;

/// A world in memory: it gives the inputs of a script as they stand, fails at the calls for an input that it was made to
/// fail at, and keeps the orders. Its count of faults rises with each order of which the rest of the script tells that
/// it failed.
pub struct ScriptWorld {
    script: Vec<Input>,
    at: usize,
    orders: Vec<Order>,
    failing: Vec<u64>,
    calls: u64,
    breaks: u64,
    faults: u64,
    ghost within: { at ≤ length script.items },
}

impl Drop for ScriptWorld {
    fn drop(self) {
        let Self {
            script: _,
            at: _,
            orders: _,
            failing: _,
            calls: _,
            breaks: _,
            faults: _,
        } = self;
    }
}

impl ScriptWorld {
    ghost use Rattle.sv_outside.specs.Scripts.{world_plan};

    /// A world that gives these inputs, and fails at the calls of `next` with these numbers, the first one being 1.
    pub fn new(alloc: Global, script: Vec<Input>, failing: Vec<u64>) -> ScriptWorld
        ensures plan { world_plan result ≡ none_made failing.items }
        ensures given { ⟦<ScriptWorld as World>⟧.given result ≡ Some [] }
        ensures left { ⟦<ScriptWorld as World>⟧.left result ≡ Some script.items }
        ensures handed { ⟦<ScriptWorld as World>⟧.handed result ≡ Some [] }
        ensures number { ⟦<ScriptWorld as World>⟧.number result ≡ 0 }
        ensures faults { ⟦<ScriptWorld as World>⟧.faults result ≡ 0 }
        ensures breaks { ⟦<ScriptWorld as World>⟧.breaks result ≡ 0 }
    {
        ScriptWorld {
            script,
            at: 0,
            orders: Vec::new(alloc),
            failing,
            calls: 0,
            breaks: 0,
            faults: 0,
        }
    }

    /// The inputs that were given, in order.
    pub fn given(&self) -> &[Input]
        ensures { ⟦<ScriptWorld as World>⟧.given self.now ≡ Some result.now }
    {
        &self.script.as_slice()[..self.at]
    }

    /// The orders that were handed over, in order.
    pub fn handed(&self) -> &[Order]
        ensures { ⟦<ScriptWorld as World>⟧.handed self.now ≡ Some result.now }
    {
        self.orders.as_slice()
    }

    /// How many orders could not be carried out.
    pub fn faults(&self) -> u64
        ensures { result ≡ ⟦<ScriptWorld as World>⟧.faults self.now }
    {
        self.faults
    }

    /// How many calls for an input failed.
    pub fn breaks(&self) -> u64
        ensures { result ≡ ⟦<ScriptWorld as World>⟧.breaks self.now }
    {
        self.breaks
    }
}

impl ScriptWorld {
    ghost use Rattle.std.specs.Prelude.{◌≡◌, ◌≤◌};
    ghost use Rattle.std.specs.Bool.{OnTrue};
    ghost use Rattle.sv_out.specs.Faults.{Rose};
    ghost use Rattle.sv_out.specs.Plans.{called, is_to_fail};
    ghost use Rattle.sv_outside.specs.Scripts.{inputs_left, world_plan};

    /// Begins a call for an input: whether it is to fail, and then it counts as a break.
    fn next_fails(&mut self) -> bool
        ensures told { result ≡ is_to_fail (world_plan self.old) }
        ensures plan { world_plan self.new ≡ called (world_plan self.old) result }
        ensures kept { self.new
            ≡ record self.old { calls = self.new.calls; breaks = self.new.breaks } }
        ensures later { self.old.breaks ≤ self.new.breaks }
        ensures rose { OnTrue result (Rose self.old.breaks self.new.breaks) }
    {
        self.calls = self.calls.saturating_add(1);
        if !self.failing.as_slice().contains(&self.calls) {
            return false;
        }
        self.breaks = self.breaks.saturating_add(1);
        true
    }

    /// Whether the rest of the script tells that the order of this number failed.
    fn tells_failure(&self, number: u64) -> bool
        ensures { result ≡ tell_failure number (inputs_left self.now) }
    {
        let (_, rest) = self.script.as_slice().split_at(self.at);
        rest.iter().any(|input| tells_failure(number, input))
    }
}

fn tells_failure(number: u64, input: &Input) -> bool
    ensures { result ≡ tells_failure number input.now }
{
    match input {
        Input::Failed(other) => *other == number,
        _ => false,
    }
}

impl World for ScriptWorld {
    ghost use Rattle.std.specs.Prelude.{◌+◌, ◌%◌, ◌^◌, ℕ, false, true, Err, IfOk, OnErr, OnOk};
    ghost use Rattle.std.specs.Prelude.{option_map};
    ghost use Rattle.sv_out.specs.Faults.{RisesWhere};
    ghost use Rattle.sv_out.specs.Plans.{GoesAsPlanned, is_to_fail};
    ghost use Rattle.sv_outside.specs.Worlds.{IsBroken, MayFail, Takes, WasToFail, given_more};
    ghost use Rattle.sv_outside.specs.Worlds.{handed_more};
    ghost use Rattle.sv_outside.specs.Scripts.{faults_after, inputs_left, orders_so_far, to_fail};
    ghost use Rattle.sv_outside.specs.Scripts.{told_given, told_handed, told_left, world_breaks};
    ghost use Rattle.sv_outside.specs.Scripts.{world_faults, world_plan};

    ghost given = { told_given };

    ghost left = { told_left };

    ghost handed = { told_handed };

    ghost number = { orders_so_far };

    ghost failed = { to_fail };

    ghost faults = { world_faults };

    ghost breaks = { world_breaks };

    fn next(&mut self, alloc: Global) -> Result<Input, NextFault>
        ensures given { told_given self.new ≡ option_map (given_more result) (told_given self.old) }
        ensures left { Takes (told_left self.old) (told_left self.new) result }
        ensures failure { IfOk result (WasToFail (to_fail self.old) (orders_so_far self.old)) }
        ensures failures { (n : ℕ) → to_fail self.new n ≡ true → to_fail self.old n ≡ true }
        ensures breaks { RisesWhere (world_breaks self.old) (world_breaks self.new)
            (IsBroken result) }
        ensures faults { world_faults self.new ≡ world_faults self.old }
        ensures handed { told_handed self.new ≡ told_handed self.old }
        ensures number { orders_so_far self.new ≡ orders_so_far self.old }

        // It fails exactly at its calls, and ends exactly where else no input is left.
        ensures planned { GoesAsPlanned (world_plan self.old) (world_plan self.new)
            (IsBroken result) }
        ensures ended { is_to_fail (world_plan self.old) ≡ false → inputs_left self.old ≡ []
            → result ≡ Err NextFault.Ended }
    {
        if self.next_fails() {
            return Err(NextFault::Failed);
        }
        let Some(input) = self.script.as_slice().get(self.at) else {
            return Err(NextFault::Ended);
        };
        let input = copy_input(alloc, input)?;
        self.at += 1;
        Ok(input)
    }

    fn perform(&mut self, _alloc: Global, order: &Order) -> Result<(), AllocError>
        ensures handed { OnOk result
            (told_handed self.new ≡ option_map (handed_more order.now) (told_handed self.old)) }
        ensures lost { OnErr result (told_handed self.new ≡ told_handed self.old) }
        ensures number { OnOk result
            (orders_so_far self.new ≡ (orders_so_far self.old + 1) % 2 ^ 64) }
        ensures failures { (n : ℕ) → to_fail self.new n ≡ true
            → MayFail (to_fail self.old) (orders_so_far self.old)
            (world_faults self.old) (world_faults self.new) n }
        ensures faults { world_faults self.old ≤ world_faults self.new }
        ensures breaks { world_breaks self.new ≡ world_breaks self.old }
        ensures given { told_given self.new ≡ told_given self.old }
        ensures left { told_left self.new ≡ told_left self.old }

        // The count of faults rises exactly where the rest of the script tells that this order failed.
        ensures exact { OnOk result (world_faults self.new ≡ faults_after self.old) }
        ensures unharmed { OnErr result (world_faults self.new ≡ world_faults self.old) }
    {
        let number = self.orders.as_slice().len() as u64;
        let order = copy_order(order)?;
        self.orders.push(order)?;
        if self.tells_failure(number) {
            self.faults = self.faults.saturating_add(1);
        }
        Ok(())
    }
}
