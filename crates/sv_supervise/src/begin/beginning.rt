//! The reading of what a daemon begins with.
ghost use Rattle.std.specs.Prelude.{◌≡◌, IfErr, IfOk, IsTrue};
ghost use Rattle.std.specs.Option.{ForSome};
ghost use Rattle.sv_logs.specs.Sizes.{rise};
ghost use Rattle.sv_out.specs.Faults.{RisesWhere};
ghost use Rattle.sv_supervise.specs.Begin.Beginnings.{BeginsWith, IsOfReading, IsTold, IsUnread};

use crate::Outcome;
use std::alloc::Global;
use sv_base::{Host, Text};
use sv_load::sizes::{SizesFault, sizes_of};
use sv_load::{LoadFault, Loaded, load};
use sv_out::Shelf;

/// What a daemon begins with.
#[derive(Drop)]
pub struct Beginning {
    /// The configuration with the texts that it was read from.
    pub loaded: Loaded,
    /// The sizes of the log files that it names, in bytes, by rising names.
    pub sizes: Vec<(Text, u64)>,
}

/// Reads what a daemon begins with: the configuration in this file, with its includes, and then the sizes of all log files
/// that it names.
pub fn beginning_of<S: Shelf>(
    alloc: Global,
    file: &Text,
    host: &Host,
    shelf: &mut S,
) -> Result<Beginning, Outcome>
    ensures begins { ForSome (S.files shelf.old) (λ files.
        BeginsWith files file.now host.now result) }
    ensures reading { IfErr result IsOfReading }
    ensures rise { IfOk result (λ beginning. IsTrue (rise beginning.sizes.items)) }
    ensures kept { S.files shelf.new ≡ S.files shelf.old }
    ensures cause { RisesWhere (S.faults shelf.old) (S.faults shelf.new) (IsUnread result) }
{
    let loaded = match load(alloc, file.as_str(), host, shelf) {
        Ok(loaded) => loaded,
        Err(fault) => return Err(told_of(alloc, file, fault)),
    };
    match sizes_of(alloc, &loaded.config, shelf) {
        Ok(sizes) => Ok(Beginning { loaded, sizes }),
        Err(SizesFault::Failed(name)) => Err(Outcome::Unreadable(name)),
        Err(SizesFault::OutOfMemory) => Err(Outcome::NoMemory),
    }
}

/// What is told of a fault in the reading of this file.
fn told_of(alloc: Global, file: &Text, fault: LoadFault) -> Outcome
    ensures { IsTold file.now fault result }
{
    match fault {
        LoadFault::Missing => match file.clone() {
            Ok(file) => Outcome::NoFile(file),
            Err(_) => Outcome::NoMemory,
        },
        LoadFault::Refused(fault) => match fault.text(alloc) {
            Ok(text) => Outcome::Refused(text),
            Err(_) => Outcome::NoMemory,
        },
        LoadFault::Failed(name) => Outcome::Unreadable(name),
        LoadFault::OutOfMemory => Outcome::NoMemory,
    }
}
