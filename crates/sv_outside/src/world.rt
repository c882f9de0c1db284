//! The world, as the daemon sees it.
ghost use Rattle.std.specs.Prelude.{◌≡◌, ◌≤◌, ◌+◌, ◌%◌, ◌^◌, ℕ, List, Bool, true, Option, IfOk};
ghost use Rattle.std.specs.Prelude.{OnErr, OnOk, option_map};
ghost use Rattle.sv_out.specs.Faults.{RisesWhere};

use std::alloc::{AllocError, Global};
use sv_out::input::Input;
use sv_out::order::Order;
use thiserror::Error;

/// Why a world gave no input.
#[derive(Clone, Copy, Debug, PartialEq, Eq, Error)]
pub enum NextFault {
    /// The call failed; the world's count of breaks rose in it.
    #[error("the world failed")]
    Failed,
    /// No input is left.
    #[error("the input ended")]
    Ended,
    #[error("out of memory")]
    OutOfMemory,
}

impl From<AllocError> for NextFault {
    ghost use Rattle.sv_outside.specs.declared.world.NextFault.TheVariants.{OutOfMemory};

    ghost from_gives = { λ error fault. fault ≡ OutOfMemory };

    fn from(_: AllocError) -> NextFault {
        NextFault::OutOfMemory
    }
}

/// What gives the daemon its inputs and is handed its orders: threads over real processes, a script in memory. A world
/// that can, tells the inputs that it gave (`given`), those that it will give (`left`), and the orders that it was
/// handed (`handed`).
///
/// It numbers the orders that it is handed from 0, modulo 2^64 (`number` is that of the next one), and may give
/// `Input::Failed` of an order that it was handed only where its count of faults rose when it was handed over (`failed`
/// has these numbers). A second count, of breaks, is that of the calls of `next` that failed.
pub trait World {
    ghost use Rattle.sv_out.specs.declared.input.Input.{Input};
    ghost use Rattle.sv_out.specs.declared.order.Order.{Order};
    ghost use Rattle.sv_outside.specs.Worlds.{IsBroken, MayFail, Takes, WasToFail, given_more};
    ghost use Rattle.sv_outside.specs.Worlds.{handed_more};

    ghost given: { Self → Option (List Input) };

    ghost left: { Self → Option (List Input) };

    ghost handed: { Self → Option (List Order) };

    ghost number: { Self → ℕ };

    ghost failed: { Self → ℕ → Bool };

    ghost faults: { Self → ℕ };

    ghost breaks: { Self → ℕ };

    /// The next input. Fails only where the count of breaks rose in this call, and ends only where no told input is
    /// left; it has then taken nothing.
    fn next(&mut self, alloc: Global) -> Result<Input, NextFault>
        ensures given { given self.new ≡ option_map (given_more result) (given self.old) }
        ensures left { Takes (left self.old) (left self.new) result }
        ensures failure { IfOk result (WasToFail (failed self.old) (number self.old)) }
        ensures failures { (n : ℕ) → failed self.new n ≡ true → failed self.old n ≡ true }
        ensures breaks { RisesWhere (breaks self.old) (breaks self.new) (IsBroken result) }
        ensures faults { faults self.new ≡ faults self.old }
        ensures handed { handed self.new ≡ handed self.old }
        ensures number { number self.new ≡ number self.old };

    /// Hands an order over. That it can't be carried out is no error of this call: the count of faults rises, and a
    /// later input tells it.
    fn perform(&mut self, alloc: Global, order: &Order) -> Result<(), AllocError>
        ensures handed { OnOk result
            (handed self.new ≡ option_map (handed_more order.now) (handed self.old)) }
        ensures lost { OnErr result (handed self.new ≡ handed self.old) }
        ensures number { OnOk result (number self.new ≡ (number self.old + 1) % 2 ^ 64) }
        ensures failures { (n : ℕ) → failed self.new n ≡ true
            → MayFail (failed self.old) (number self.old) (faults self.old) (faults self.new) n }
        ensures faults { faults self.old ≤ faults self.new }
        ensures breaks { breaks self.new ≡ breaks self.old }
        ensures given { given self.new ≡ given self.old }
        ensures left { left self.new ≡ left self.old };
}
