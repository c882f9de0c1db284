//! Which names the patterns of a configuration list.
ghost use Rattle.std.specs.Prelude.{◌≡◌, ◌≤◌, IfOk, IfErr, OnOk};
ghost use Rattle.std.specs.List.{list_any};
ghost use Rattle.std.specs.Option.{ForSome};
ghost use Rattle.std.specs.Str.{bytes_eq};
ghost use Rattle.sv_out.specs.Faults.{RisesWhere};
ghost use Rattle.sv_load.specs.Listing.{IsAnswer, AreListed, each_once, with_name};
ghost use Rattle.sv_load.specs.Loading.{FailsAt, FailsAtOneOf, IsUnreadable};

use crate::fault::LoadFault;
use std::alloc::{AllocError, Global};
use sv_base::{Items, Text};
use sv_out::{Shelf, ShelfFault};

/// The names that these patterns list, those of each after those of the patterns before it.
pub(crate) fn names_of_all<S: Shelf>(
    alloc: Global,
    patterns: &[Text],
    shelf: &mut S,
) -> Result<Items<Text>, LoadFault>
    ensures listed { IfOk result (λ names. ForSome (S.files shelf.old) (λ files.
        AreListed files patterns.now names)) }
    ensures failed { IfErr result (FailsAtOneOf patterns.now) }
    ensures kept { S.files shelf.new ≡ S.files shelf.old }
    ensures cause { RisesWhere (S.faults shelf.old) (S.faults shelf.new) (IsUnreadable result) }
{
    let mut names = Vec::new(alloc);
    let mut left = patterns;
    while let [pattern, rest @ ..] = left {
        let mut answer = names_of(alloc, pattern.as_str(), shelf)?;
        names.append(&mut answer)?;
        left = rest;
    }
    Ok(Items::from_vec(names))
}

/// The names that a pattern lists.
fn names_of<S: Shelf>(alloc: Global, pattern: &str, shelf: &mut S) -> Result<Vec<Text>, LoadFault>
    ensures listed { IfOk result (λ names. ForSome (S.files shelf.old) (λ files.
        IsAnswer files pattern.now names.items)) }
    ensures failed { IfErr result (FailsAt pattern.now) }
    ensures kept { S.files shelf.new ≡ S.files shelf.old }
    ensures cause { RisesWhere (S.faults shelf.old) (S.faults shelf.new) (IsUnreadable result) }
{
    match shelf.names(alloc, pattern) {
        Ok(names) => Ok(names),
        Err(ShelfFault::Failed) => Err(LoadFault::Failed(Text::from_str(alloc, pattern)?)),
        // No shelf misses a file where it is asked for names.
        Err(ShelfFault::Missing | ShelfFault::OutOfMemory) => Err(LoadFault::OutOfMemory),
    }
}

/// The names, each once, where it first stands.
pub(crate) fn each_once(alloc: Global, names: &[Text]) -> Result<Items<Text>, AllocError>
    ensures { IfOk result (λ once. once ≡ each_once names.now) }
{
    let mut once = Items::new(alloc);
    let mut left = names;
    while let [name, rest @ ..] = left {
        add_name(&mut once, name)?;
        left = rest;
    }
    Ok(once)
}

/// Adds a name, unless it is there.
fn add_name(names: &mut Items<Text>, name: &Text) -> Result<(), AllocError>
    ensures { OnOk result (names.new ≡ with_name names.old name.now) }
{
    if is_one_of(names.as_slice(), name.as_str()) {
        return Ok(());
    }
    names.push(name.clone()?)
}

fn is_one_of(names: &[Text], name: &str) -> bool
    ensures { result ≡ list_any (λ other. bytes_eq other name.now) names.now }
{
    names.iter().any(|other| other.as_str() == name)
}
