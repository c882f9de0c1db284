//! The texts of files.
ghost use Rattle.std.specs.Prelude.{◌≡◌, ◌≤◌, ◌++◌, IfOk, IfErr, OnOk};
ghost use Rattle.std.specs.Option.{ForSome};
ghost use Rattle.sv_out.specs.Faults.{RisesWhere};
ghost use Rattle.sv_load.specs.Listing.{text_of, texts_of};
ghost use Rattle.sv_load.specs.Loading.{FailsAt, FailsAtOneOf, IsUnreadable};

use crate::fault::LoadFault;
use std::alloc::Global;
use sv_base::{Bytes, Items, Text};
use sv_out::{Shelf, ShelfFault};

/// The text of a file; none where the shelf has no such file.
pub(crate) fn text_of<S: Shelf>(
    alloc: Global,
    name: &str,
    shelf: &mut S,
) -> Result<Option<Bytes>, LoadFault>
    ensures text { IfOk result (λ text. ForSome (S.files shelf.old) (λ files.
        files name.now ≡ text)) }
    ensures failed { IfErr result (FailsAt name.now) }
    ensures kept { S.files shelf.new ≡ S.files shelf.old }
    ensures cause { RisesWhere (S.faults shelf.old) (S.faults shelf.new) (IsUnreadable result) }
{
    match shelf.read(alloc, name) {
        Ok(bytes) => Ok(Some(bytes)),
        Err(ShelfFault::Missing) => Ok(None),
        Err(ShelfFault::Failed) => Err(LoadFault::Failed(Text::from_str(alloc, name)?)),
        Err(ShelfFault::OutOfMemory) => Err(LoadFault::OutOfMemory),
    }
}

/// The texts of these files, each with its name. A file that is missing is left out.
pub(crate) fn texts_of<S: Shelf>(
    alloc: Global,
    names: &[Text],
    shelf: &mut S,
) -> Result<Items<(Text, Bytes)>, LoadFault>
    ensures texts { IfOk result (λ texts. ForSome (S.files shelf.old) (λ files.
        texts ≡ texts_of files names.now)) }
    ensures failed { IfErr result (FailsAtOneOf names.now) }
    ensures kept { S.files shelf.new ≡ S.files shelf.old }
    ensures cause { RisesWhere (S.faults shelf.old) (S.faults shelf.new) (IsUnreadable result) }
{
    let mut texts = Items::new(alloc);
    let mut left = names;
    while let [name, rest @ ..] = left {
        add_text(alloc, name, shelf, &mut texts)?;
        left = rest;
    }
    Ok(texts)
}

/// Adds the text of a file with its name, where it is there.
fn add_text<S: Shelf>(
    alloc: Global,
    name: &Text,
    shelf: &mut S,
    texts: &mut Items<(Text, Bytes)>,
) -> Result<(), LoadFault>
    ensures added { OnOk result (ForSome (S.files shelf.old) (λ files.
        texts.new ≡ texts.old ++ text_of name.now (files name.now))) }
    ensures failed { IfErr result (FailsAt name.now) }
    ensures kept { S.files shelf.new ≡ S.files shelf.old }
    ensures cause { RisesWhere (S.faults shelf.old) (S.faults shelf.new) (IsUnreadable result) }
{
    match text_of(alloc, name.as_str(), shelf)? {
        Some(bytes) => {
            texts.push((name.clone()?, bytes))?;
            Ok(())
        }
        None => Ok(()),
    }
}
