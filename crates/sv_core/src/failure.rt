//! What it means that an order couldn't be carried out.
ghost use Rattle.std.specs.Prelude.{◌≡◌};
ghost use Rattle.sv_core.specs.Failure.{failure_of, can_fail};

use sv_base::ids::{LinkId, Run};
use sv_out::order::Order;

/// What it means that an order couldn't be carried out.
#[derive(Clone, Copy)]
pub enum Failure {
    /// A report or the halt: nobody carries it out.
    NeverFails,
    /// A signal that didn't get through, or an order about a file.
    ChangesNothing,
    /// A write to a run: its stdin is closed.
    LosesStdin(Run),
    /// An order of a link: it is over.
    LosesLink(LinkId),
    /// A question: it is answered by a refusal.
    RefusesQuestion,
}

/// What the failure of this order would mean.
pub(crate) fn failure_of(order: &Order) -> Failure
    ensures { result ≡ failure_of order.now }
{
    match order {
        Order::State { .. } | Order::Dropped { .. } | Order::Halt => Failure::NeverFails,
        Order::Spawn(_)
        | Order::ReadFile { .. }
        | Order::ClearFile { .. }
        | Order::Names { .. }
        | Order::Size { .. } => Failure::RefusesQuestion,
        Order::Stdin { run, .. } => Failure::LosesStdin(*run),
        Order::Send { link, .. } | Order::More { link } | Order::Close { link } => {
            Failure::LosesLink(*link)
        }
        _ => Failure::ChangesNothing,
    }
}

/// Whether there is such an order and it can fail.
pub(crate) fn can_fail(failure: Option<Failure>) -> bool
    ensures { result ≡ can_fail failure }
{
    match failure {
        Some(Failure::NeverFails) | None => false,
        Some(_) => true,
    }
}
