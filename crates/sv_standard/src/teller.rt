//! What tells on standard error of what was lost or refused at the edge.

use crate::outlet::Outlet;
use std::alloc::{AllocError, Global};
use std::sync::Wait;

/// Tells on standard error, a line each. It never waits; a line that standard error has no room for is lost.
pub struct Teller<R> {
    outlet: Outlet<R>,
}

impl<R: Drop> Drop for Teller<R> {
    fn drop(self) {
        let Self { outlet: _ } = self;
    }
}

impl<R: Wait + Copy> Teller<R> {
    /// One that tells through this side of standard error.
    pub fn new(outlet: Outlet<R>) -> Teller<R> {
        Teller { outlet }
    }

    /// The same, for another holder.
    pub fn another(&self) -> Result<Teller<R>, AllocError> {
        Ok(Teller {
            outlet: self.outlet.another()?,
        })
    }

    /// Tells this line, which has no line feed. Where memory is refused it is lost.
    pub fn tell(&self, alloc: Global, line: &str) {
        if let Ok(text) = format!(in alloc; "{line}\n") {
            let _ = self.outlet.give(alloc, text.as_str().as_bytes());
        }
    }
}
