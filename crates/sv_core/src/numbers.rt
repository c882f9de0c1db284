//! The numbers that are given out.
ghost use Rattle.std.specs.Prelude.{◌≡◌, ◌++◌, ◌+◌, ◌^◌, ◌%◌, [], Some, None, OnOk, length, map};
ghost use Rattle.sv_core.specs.Failure.{failure_of, behind};
ghost use Rattle.sv_core.specs.StandsFor.{is_above, failure_kept, can_name};

use crate::failure::{Failure, can_fail, failure_of};
use std::alloc::AllocError;
use sv_out::order::Order;

/// The numbers that are given out, and what is kept of the orders that can still be named as failed: those since the
/// last input that wasn't a failed order.
#[derive(Drop)]
pub struct Numbers {
    /// The number that the next run gets; above 4,294,967,295 none is left.
    pub(crate) next_run: u64,
    /// The number of the first of these orders. Orders are numbered from 0, modulo 2^64.
    pub(crate) first: u64,
    /// What the failure of each of them would mean, in order.
    pub(crate) failures: Vec<Failure>,
    /// The last of them that failed.
    pub(crate) last: Option<u64>,
}

impl Numbers {
    /// What the failure of the order of this number would mean, if it is one of those.
    pub(crate) fn failure(&self, number: u64) -> Option<Failure>
        ensures { result ≡ failure_kept self.now number }
    {
        let behind = number.wrapping_sub(self.first);
        self.failures.as_slice().get(behind as usize).copied()
    }

    /// Whether the order of this number can be named as failed.
    pub(crate) fn can_name(&self, number: u64) -> bool
        ensures { result ≡ can_name self.now number }
    {
        can_fail(self.failure(number)) && is_above(self.last, number)
    }

    /// An input comes that isn't a failed order: those before can no longer be named.
    pub(crate) fn forget(&mut self)
        ensures kept { self.new ≡ record self.old {
          first = self.new.first;
          failures = self.new.failures;
          last = None;
        } }
        ensures first { self.new.first
            ≡ (self.old.first + length self.old.failures.items) % 2 ^ 64 }
        ensures none { self.new.failures.items ≡ [] }
    {
        self.first = self.first.wrapping_add(self.failures.len() as u64);
        self.failures.clear();
        self.last = None;
    }

    /// Keeps what is to be known of these orders.
    pub(crate) fn note(&mut self, given: &[Order]) -> Result<(), AllocError>
        ensures kept { self.new ≡ record self.old { failures = self.new.failures } }
        ensures noted { OnOk result (self.new.failures.items
            ≡ self.old.failures.items ++ map failure_of given.now) }
    {
        for order in given {
            self.failures.push(failure_of(order))?;
        }
        Ok(())
    }
}

fn is_above(last: Option<u64>, number: u64) -> bool
    ensures { result ≡ is_above last number }
{
    match last {
        Some(last) => last < number,
        None => true,
    }
}
