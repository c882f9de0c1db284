//! What an answer of the system is for who called the shelf.
ghost use Rattle.std.specs.Prelude.{◌≡◌, ◌≤◌, IfOk};
ghost use Rattle.sv_out.specs.Faults.{RisesWhere, Rose};
ghost use Rattle.sv_out.specs.Files.{IsFailure};
ghost use Rattle.sv_disk.specs.Missing.{IsUntold};

use std::io;
use std::io::ErrorKind;
use sv_out::ShelfFault;

/// How many calls of a shelf failed: each error but a missing file and out of memory.
#[derive(Drop)]
pub(crate) struct Faults {
    pub(crate) count: u64,
}

impl Faults {
    /// None has failed yet.
    pub(crate) fn new() -> Faults
        ensures { result.count ≡ 0 }
    {
        Faults { count: 0 }
    }

    /// What an answer of the system is for the caller: a missing file, out of memory, or a fault, which is counted.
    pub(crate) fn judged<T>(&mut self, answer: io::Result<T>) -> Result<T, ShelfFault>
        ensures passed { IfOk result (λ value. answer ≡ Ok value) }
        ensures cause { RisesWhere self.old.count self.new.count (IsFailure result) }
    {
        match answer {
            Ok(value) => Ok(value),
            Err(error) => match error.kind() {
                ErrorKind::NotFound => Err(ShelfFault::Missing),
                ErrorKind::OutOfMemory => Err(ShelfFault::OutOfMemory),
                _ => Err(self.failed()),
            },
        }
    }

    /// The same where a missing file is a fault too.
    pub(crate) fn demanded<T>(&mut self, answer: io::Result<T>) -> Result<T, ShelfFault>
        ensures passed { IfOk result (λ value. answer ≡ Ok value) }
        ensures cause { RisesWhere self.old.count self.new.count (IsFailure result) }
        ensures told { IsUntold result }
    {
        match answer {
            Ok(value) => Ok(value),
            Err(error) if error.kind() == ErrorKind::OutOfMemory => Err(ShelfFault::OutOfMemory),
            Err(_) => Err(self.failed()),
        }
    }

    fn failed(&mut self) -> ShelfFault
        ensures fault { result ≡ ShelfFault.Failed }
        ensures rose { Rose self.old.count self.new.count }
        ensures later { self.old.count ≤ self.new.count }
    {
        self.count = self.count.saturating_add(1);
        ShelfFault::Failed
    }
}
