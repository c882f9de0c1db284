//! The machine, as the loop sees it.
ghost use Rattle.std.specs.Prelude.{◌≡◌, Bool, IfOk, IsTrue};

use std::alloc::{AllocError, Global};
use sv_out::input::Input;
use sv_out::order::Order;

/// What takes inputs one at a time and answers with orders: the daemon's machine. It stands for a state of a model
/// (`stands`), whose rules say which inputs are accepted, what comes next and which orders are given.
pub trait Engine {
    ghost use Rattle.sv_out.specs.declared.input.Input.{Input};
    ghost use Rattle.sv_supervise.specs.MainLoop.Rules.{Rules};

    ghost Model: { Type 0 };

    ghost rules: { Rules Model };

    ghost stands: { Self → Model → Type 0 };

    ghost fits: { Self → Input → Bool };

    /// Whether it takes this input now.
    fn accepts(&self, input: &Input) -> bool
        ensures accepts { (m : Model) → stands self.now m → result ≡ rules.accepts m input.now }
        ensures fits { result ≡ fits self.now input.now };

    /// Takes one input, which it accepts, and answers its orders.
    fn step(&mut self, alloc: Global, input: Input) -> Result<Vec<Order>, AllocError>
        requires { IsTrue (fits self.old input) }
        ensures next { IfOk result (λ given. (m : Model) → stands self.old m
            → stands self.new (rules.next m input)) }
        ensures orders { IfOk result (λ given. (m : Model) → stands self.old m
            → given.items ≡ rules.orders m input) };

    /// Whether the halt was given.
    fn halted(&self) -> bool
        ensures { (m : Model) → stands self.now m → result ≡ rules.halted m };
}
