//! The reading of the sizes.
ghost use Rattle.std.specs.Prelude.{◌≡◌, ◌++◌, ◌∷◌, ℕ, List, [], IsTrue, IfErr, IfOk, map};
ghost use Rattle.std.specs.Option.{ForSome};
ghost use Rattle.sv_logs.specs.Sizes.{rise};
ghost use Rattle.sv_out.specs.Faults.{RisesWhere};
ghost use Rattle.sv_load.specs.Sizes.LogSizes.{FailsAt, FailsAtOneOf, IsUnsized, is_log_file, is_one_of};
ghost use Rattle.sv_load.specs.Sizes.LogSizes.{log_files, name_of, size_on, sizes_on};

use crate::sizes::fault::SizesFault;
use std::alloc::Global;
use sv_base::{Config, Text};
use sv_logs::KnownSizes;
use sv_out::{Shelf, ShelfFault};

/// The sizes of all log files that the configuration names, in bytes, by rising names, each once; that of a missing file
/// is 0. Each is asked of the shelf in this order.
pub fn sizes_of<S: Shelf>(
    alloc: Global,
    config: &Config,
    shelf: &mut S,
) -> Result<Vec<(Text, u64)>, SizesFault>
    ensures sizes { IfOk result (λ sizes. ForSome (S.files shelf.old) (λ files.
        sizes.items ≡ sizes_on files (log_files config.now))) }
    ensures names { IfOk result (λ sizes. map name_of sizes.items ≡ log_files config.now) }
    ensures files { IfOk result (λ sizes. (name : List ℕ)
        → is_one_of name (map name_of sizes.items) ≡ is_log_file config.now name) }
    ensures rise { IfOk result (λ sizes. IsTrue (rise sizes.items)) }
    ensures fault { IfErr result (FailsAtOneOf (log_files config.now)) }
    ensures kept { S.files shelf.new ≡ S.files shelf.old }
    ensures cause { RisesWhere (S.faults shelf.old) (S.faults shelf.new) (IsUnsized result) }
{
    let known = KnownSizes::new(config, Vec::new(alloc))?;
    sizes_of_all(alloc, known.as_slice(), shelf)
}

/// The sizes that these files have on the shelf, whatever is known of them.
fn sizes_of_all<S: Shelf>(
    alloc: Global,
    files: &[(Text, u64)],
    shelf: &mut S,
) -> Result<Vec<(Text, u64)>, SizesFault>
    ensures sizes { IfOk result (λ sizes. ForSome (S.files shelf.old) (λ held.
        sizes.items ≡ sizes_on held (map name_of files.now))) }
    ensures names { IfOk result (λ sizes. map name_of sizes.items ≡ map name_of files.now) }
    ensures fault { IfErr result (FailsAtOneOf (map name_of files.now)) }
    ensures kept { S.files shelf.new ≡ S.files shelf.old }
    ensures cause { RisesWhere (S.faults shelf.old) (S.faults shelf.new) (IsUnsized result) }
{
    let mut sizes = Vec::new(alloc);
    let mut left = files;
    while let [file, rest @ ..] = left {
        let size = size_of(alloc, &file.0, shelf)?;
        sizes.push((file.0.clone()?, size))?;
        left = rest;
    }
    Ok(sizes)
}

/// The size of one file; 0 where it is missing.
fn size_of<S: Shelf>(alloc: Global, name: &Text, shelf: &mut S) -> Result<u64, SizesFault>
    ensures size { IfOk result (λ size. ForSome (S.files shelf.old) (λ files.
        size ≡ size_on files name.now)) }
    ensures fault { IfErr result (FailsAt name.now) }
    ensures kept { S.files shelf.new ≡ S.files shelf.old }
    ensures cause { RisesWhere (S.faults shelf.old) (S.faults shelf.new) (IsUnsized result) }
{
    match shelf.size(alloc, name.as_str()) {
        Ok(size) => Ok(size),
        Err(ShelfFault::Missing) => Ok(0),
        Err(ShelfFault::Failed) => Err(SizesFault::Failed(name.clone()?)),
        Err(ShelfFault::OutOfMemory) => Err(SizesFault::OutOfMemory),
    }
}
