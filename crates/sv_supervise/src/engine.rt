//! The machine, for the loop.
use crate::main_loop::Engine;
use std::alloc::{AllocError, Global};
use sv_core::Machine;
use sv_out::input::Input;
use sv_out::order::Order;

/// The daemon's machine, as the loop takes it.
#[derive(Drop)]
pub(crate) struct Core {
    pub(crate) machine: Machine,
}

impl Engine for Core {
    ghost use Rattle.sv_core.specs.MachineState.{Model};
    ghost use Rattle.sv_supervise.specs.Machines.{core_rules, fits_core, stands_for};

    ghost Model = { Model };

    ghost rules = { core_rules };

    ghost stands = { stands_for };

    ghost fits = { fits_core };

    fn accepts(&self, input: &Input) -> bool {
        self.machine.accepts(input)
    }

    fn step(&mut self, alloc: Global, input: Input) -> Result<Vec<Order>, AllocError> {
        self.machine.step(alloc, input)
    }

    fn halted(&self) -> bool {
        self.machine.halted()
    }
}
