//! A shelf in memory.
ghost use Rattle.std.specs.Prelude.{◌≡◌, ◌≤◌, Some, OnOk, OnErr, IfOk, IfErr, is_err};
ghost use Rattle.std.specs.Option.{option_copied, ForSome};
ghost use Rattle.sv_out.specs.Faults.{Rose};
ghost use Rattle.sv_out.specs.Files.{part_of, size_of};
ghost use Rattle.sv_out.specs.MapFiles.{files_of, IsPut, IsMissing, HasNone};
ghost use Rattle.sv_out.specs.Plans.{called, is_to_fail, none_made, shelf_plan};

use crate::calls::Calls;
use crate::files::{Shelf, ShelfFault};
use crate::pattern::matches;
use std::alloc::{AllocError, Global};
use std::collections::BTreeMap;
use sv_base::{Bytes, Text};

/// A shelf in memory, which tells its files and fails at the calls that it was made to fail at, the first call being 1.
pub struct MapShelf {
    files: BTreeMap<Text, Bytes>,
    calls: Calls,
}

impl Drop for MapShelf {
    fn drop(self) {
        let Self { files: _, calls: _ } = self;
    }
}

impl MapShelf {
    /// A shelf without files.
    pub fn new(alloc: Global, failing: Vec<u64>) -> MapShelf
        ensures plan { shelf_plan result ≡ none_made failing.items }
        ensures told { ForSome (⟦<MapShelf as Shelf>⟧.files result) HasNone }
        ensures faults { ⟦<MapShelf as Shelf>⟧.faults result ≡ 0 }
    {
        MapShelf {
            files: BTreeMap::new(alloc),
            calls: Calls::new(failing),
        }
    }

    /// Puts a file there in place of what there was. It counts as no call.
    pub fn set(&mut self, name: Text, bytes: Bytes) -> Result<(), AllocError>
        ensures set { OnOk result (IsPut (files_of self.old) (files_of self.new) name bytes) }
        ensures plan { shelf_plan self.new ≡ shelf_plan self.old }
        ensures faults { ⟦<MapShelf as Shelf>⟧.faults self.new
            ≡ ⟦<MapShelf as Shelf>⟧.faults self.old }
    {
        match self.files.insert(name, bytes) {
            Ok(_) => Ok(()),
            Err(_) => Err(AllocError),
        }
    }

    /// What a file holds; `None` where there is no such file.
    pub fn file(&self, alloc: Global, name: &str) -> Result<Option<&Bytes>, AllocError>
        ensures { IfOk result (λ held. option_copied held ≡ files_of self.now name.now) }
    {
        let name = Text::from_str(alloc, name)?;
        Ok(self.files.get(&name))
    }

    /// How many calls failed.
    pub fn faults(&self) -> u64
        ensures { result ≡ ⟦<MapShelf as Shelf>⟧.faults self.now }
    {
        self.calls.faults()
    }

    /// Begins a call, which may be one that is to fail.
    fn begin(&mut self) -> Result<(), ShelfFault>
        ensures files { self.new.files ≡ self.old.files }
        ensures told { is_err result ≡ is_to_fail (shelf_plan self.old) }
        ensures plan { shelf_plan self.new ≡ called (shelf_plan self.old) (is_err result) }
        ensures later { self.old.calls.faults ≤ self.new.calls.faults }
        ensures failed { OnErr result (Rose self.old.calls.faults self.new.calls.faults) }
        ensures only { IfErr result (λ fault. fault ≡ ShelfFault.Failed) }
    {
        if self.calls.next_fails() {
            return Err(ShelfFault::Failed);
        }
        Ok(())
    }

    /// The bytes of a file.
    fn found(&self, alloc: Global, name: &str) -> Result<&Bytes, ShelfFault>
        ensures found { IfOk result (λ bytes. files_of self.now name.now ≡ Some bytes.now) }
        ensures missing { IfErr result (IsMissing (files_of self.now name.now)) }
    {
        let name = Text::from_str(alloc, name)?;
        match self.files.get(&name) {
            Some(bytes) => Ok(bytes),
            None => Err(ShelfFault::Missing),
        }
    }

    /// Puts a file there in place of what there was.
    fn put(&mut self, alloc: Global, name: &str, bytes: Bytes) -> Result<(), ShelfFault>
        ensures put { OnOk result (IsPut (files_of self.old) (files_of self.new) name.now bytes) }
        ensures only { IfErr result (λ fault. fault ≡ ShelfFault.OutOfMemory) }
        ensures plan { shelf_plan self.new ≡ shelf_plan self.old }
    {
        let name = Text::from_str(alloc, name)?;
        self.set(name, bytes)?;
        Ok(())
    }
}

impl Shelf for MapShelf {
    ghost use Rattle.sv_out.specs.Faults.{RisesWhere};
    ghost use Rattle.sv_out.specs.Files.{Changes, IsFailure, Reads, AreNames, AreRising};
    ghost use Rattle.sv_out.specs.Files.{appended, emptied, shifted};
    ghost use Rattle.sv_out.specs.MapFiles.{shelf_faults, told_files};
    ghost use Rattle.sv_out.specs.Plans.{GoesAsPlanned};

    ghost files = { λ s. Some (files_of s) };

    ghost faults = { λ s. s.calls.faults };

    fn read(&mut self, alloc: Global, name: &str) -> Result<Bytes, ShelfFault>
        ensures answer { Reads (told_files self.old) name.now (λ bytes. bytes) result }
        ensures kept { told_files self.new ≡ told_files self.old }
        ensures cause { RisesWhere (shelf_faults self.old) (shelf_faults self.new)
            (IsFailure result) }
        ensures planned { GoesAsPlanned (shelf_plan self.old) (shelf_plan self.new)
            (IsFailure result) }
    {
        self.begin()?;
        Ok(self.found(alloc, name)?.clone()?)
    }

    fn size(&mut self, alloc: Global, name: &str) -> Result<u64, ShelfFault>
        ensures answer { Reads (told_files self.old) name.now size_of result }
        ensures kept { told_files self.new ≡ told_files self.old }
        ensures cause { RisesWhere (shelf_faults self.old) (shelf_faults self.new)
            (IsFailure result) }
        ensures planned { GoesAsPlanned (shelf_plan self.old) (shelf_plan self.new)
            (IsFailure result) }
    {
        self.begin()?;
        Ok(size_of(self.found(alloc, name)?))
    }

    fn names(&mut self, alloc: Global, pattern: &str) -> Result<Vec<Text>, ShelfFault>
        ensures rising { IfOk result (λ names. AreRising names.items) }
        ensures exact { IfOk result (λ names.
            ForSome (told_files self.old) (AreNames pattern.now names.items)) }
        ensures kept { told_files self.new ≡ told_files self.old }
        ensures cause { RisesWhere (shelf_faults self.old) (shelf_faults self.new)
            (IsFailure result) }
        ensures planned { GoesAsPlanned (shelf_plan self.old) (shelf_plan self.new)
            (IsFailure result) }
    {
        self.begin()?;
        let mut names = Vec::new(alloc);
        for name in self.files.keys() {
            if matches(pattern.as_bytes(), name.as_str().as_bytes()) {
                names.push(name.clone()?).map_err(AllocError::from)?;
            }
        }
        Ok(names)
    }

    fn part(
        &mut self,
        alloc: Global,
        name: &str,
        start: u64,
        length: u64,
    ) -> Result<Bytes, ShelfFault>
        ensures answer { Reads (told_files self.old) name.now (part_of start length) result }
        ensures kept { told_files self.new ≡ told_files self.old }
        ensures cause { RisesWhere (shelf_faults self.old) (shelf_faults self.new)
            (IsFailure result) }
        ensures planned { GoesAsPlanned (shelf_plan self.old) (shelf_plan self.new)
            (IsFailure result) }
    {
        self.begin()?;
        let bytes = self.found(alloc, name)?.as_slice();
        Ok(Bytes::from_slice(alloc, part_of(bytes, start, length))?)
    }

    fn append(&mut self, alloc: Global, name: &str, piece: &[u8]) -> Result<(), ShelfFault>
        ensures change { Changes (told_files self.old) (told_files self.new)
            (appended name.now piece.now) result }
        ensures cause { RisesWhere (shelf_faults self.old) (shelf_faults self.new)
            (IsFailure result) }
        ensures planned { GoesAsPlanned (shelf_plan self.old) (shelf_plan self.new)
            (IsFailure result) }
    {
        self.begin()?;
        let mut bytes = match self.found(alloc, name) {
            Ok(bytes) => bytes.clone()?.into_vec(),
            Err(ShelfFault::Missing) => Vec::new(alloc),
            Err(fault) => return Err(fault),
        };
        bytes.extend_from_slice(piece)?;
        self.put(alloc, name, Bytes::from_vec(bytes))?;
        Ok(())
    }

    fn shift(&mut self, alloc: Global, from: &str, to: &str) -> Result<(), ShelfFault>
        ensures change { Changes (told_files self.old) (told_files self.new)
            (shifted from.now to.now) result }
        ensures cause { RisesWhere (shelf_faults self.old) (shelf_faults self.new)
            (IsFailure result) }
        ensures planned { GoesAsPlanned (shelf_plan self.old) (shelf_plan self.new)
            (IsFailure result) }
    {
        self.begin()?;
        let name = Text::from_str(alloc, from)?;
        match self.files.remove(&name) {
            Some(bytes) => {
                self.put(alloc, to, bytes)?;
                Ok(())
            }
            None => Ok(()),
        }
    }

    fn fresh(&mut self, alloc: Global, name: &str) -> Result<(), ShelfFault>
        ensures change { Changes (told_files self.old) (told_files self.new)
            (emptied name.now) result }
        ensures cause { RisesWhere (shelf_faults self.old) (shelf_faults self.new)
            (IsFailure result) }
        ensures planned { GoesAsPlanned (shelf_plan self.old) (shelf_plan self.new)
            (IsFailure result) }
    {
        self.begin()?;
        self.put(alloc, name, Bytes::from_vec(Vec::new(alloc)))?;
        Ok(())
    }
}

/// How many bytes these are.
#[tactic(auto, using(crate::proofs::Maps::counted))]
fn size_of(bytes: &Bytes) -> u64
    ensures { result ≡ size_of bytes.now }
{
    bytes.as_slice().len() as u64
}

/// The bytes from `start` on, at most `length` of them.
fn part_of(bytes: &[u8], start: u64, length: u64) -> &[u8]
    ensures { result.now ≡ part_of start length bytes.now }
{
    let start = bytes.len().min(start as usize);
    let rest = &bytes[start..];
    let length = rest.len().min(length as usize);
    &rest[..length]
}
