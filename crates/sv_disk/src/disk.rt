//! A shelf over files, for who reads them.
ghost use Rattle.std.specs.Prelude.{◌≡◌, None};

use crate::faults::Faults;
use crate::listing::names_on;
use crate::parts::part_on;
use crate::plain::{empty_on, shift_on};
use std::alloc::Global;
use std::fs::OpenOptions;
use std::io::Write;
use std::rt::Files;
use std::{fs, io};
use sv_base::{Bytes, Text};
use sv_out::{Shelf, ShelfFault};

/// The folder in `/proc` of a process that isn't there: who reads files knows its own streams by their common names.
const NO_PROCESS: &str = "/proc/0/";

/// A shelf over files. It counts each error but a missing file and out of memory as a fault, and tells nothing of the
/// content. Only plain files are renamed and emptied.
#[derive(Drop)]
pub struct OsShelf<R> {
    rt: R,
    faults: Faults,
}

impl<R: Files + AllocGlobal + Clone + Drop> OsShelf<R> {
    /// A shelf that has not failed yet.
    pub fn new(rt: R) -> OsShelf<R>
        ensures { result.faults.count ≡ 0 }
    {
        OsShelf {
            rt,
            faults: Faults::new(),
        }
    }
}

impl<R: Files + AllocGlobal + Clone + Drop> Shelf for OsShelf<R> {
    ghost files = { λ _. None };

    ghost faults = { λ s. s.faults.count };

    fn read(&mut self, _alloc: Global, name: &str) -> Result<Bytes, ShelfFault> {
        let answer = fs::read(&self.rt, name);
        Ok(Bytes::from_vec(self.faults.judged(answer)?))
    }

    fn size(&mut self, _alloc: Global, name: &str) -> Result<u64, ShelfFault> {
        let answer = fs::metadata(&self.rt, name);
        Ok(self.faults.judged(answer)?.len())
    }

    fn names(&mut self, alloc: Global, pattern: &str) -> Result<Vec<Text>, ShelfFault> {
        let answer = names_on(alloc, &self.rt, pattern);
        self.faults.demanded(answer)
    }

    fn part(
        &mut self,
        alloc: Global,
        name: &str,
        start: u64,
        length: u64,
    ) -> Result<Bytes, ShelfFault> {
        let answer = part_on(alloc, &self.rt, name, start, length);
        self.faults.judged(answer)
    }

    fn append(&mut self, _alloc: Global, name: &str, piece: &[u8]) -> Result<(), ShelfFault> {
        let answer = append_on(&self.rt, name, piece);
        self.faults.demanded(answer)
    }

    fn shift(&mut self, _alloc: Global, from: &str, to: &str) -> Result<(), ShelfFault> {
        let answer = shift_on(&self.rt, NO_PROCESS, from, to);
        self.faults.demanded(answer)
    }

    fn fresh(&mut self, _alloc: Global, name: &str) -> Result<(), ShelfFault> {
        let answer = empty_on(&self.rt, NO_PROCESS, name);
        self.faults.demanded(answer)
    }
}

/// Adds a piece at the end of a file; a missing one is made.
fn append_on<R: Files>(rt: &R, name: &str, piece: &[u8]) -> io::Result<()> {
    let mut file = OpenOptions::new().append(true).create(true).open(rt, name)?;
    file.write_all(piece)
}
