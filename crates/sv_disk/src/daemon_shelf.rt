//! The shelf of the daemon's world.
ghost use Rattle.std.specs.Prelude.{◌≡◌, IfOk, None};

use crate::faults::Faults;
use crate::listing::names_on;
use crate::logs::Logs;
use crate::parts::part_on;
use crate::rules::LogRules;
use std::alloc::{AllocError, Global};
use std::rt::{Clock, Files};
use std::sync::Wait;
use std::{fs, io};
use sv_base::{Bytes, Text};
use sv_out::{Shelf, ShelfFault};
use sv_standard::Teller;

/// A shelf over files that keeps the logs it writes open. It counts each error but a missing file and out of memory as a
/// fault, and tells nothing of the content.
///
/// Only plain files are renamed and emptied. A log of the name of one of the daemon's own streams goes there. What isn't
/// written is told once a log on standard error. Nothing that is opened or written to can wait but a device.
pub struct DaemonShelf<R: Files + Wait> {
    rt: R,
    faults: Faults,
    logs: Logs<R>,
}

impl<R: Files + Wait + Drop> Drop for DaemonShelf<R> {
    fn drop(self) {
        let Self {
            rt: _,
            faults: _,
            logs: _,
        } = self;
    }
}

impl<R: Files + AllocGlobal + Clock + Wait + Copy> DaemonShelf<R> {
    /// A shelf under these rules that has not failed yet, and what it tells of its logs.
    pub fn new(
        rt: R,
        alloc: Global,
        rules: LogRules<R>,
        teller: Teller<R>,
    ) -> Result<DaemonShelf<R>, AllocError>
        ensures { IfOk result (λ shelf. shelf.faults.count ≡ 0) }
    {
        Ok(DaemonShelf {
            rt,
            faults: Faults::new(),
            logs: Logs::new(rt, alloc, rules, teller)?,
        })
    }

    fn part_of(&mut self, alloc: Global, name: &str, start: u64, length: u64) -> io::Result<Bytes>
        ensures { self.new.faults ≡ self.old.faults }
    {
        if self.logs.is_standard(name)? {
            return Ok(Bytes::from_vec(Vec::new(alloc)));
        }
        match part_on(alloc, &self.rt, name, start, length) {
            Err(error) if self.logs.makes_room(&error) => part_on(
                alloc, &self.rt, name, start, length,
            ),
            answer => answer,
        }
    }

    fn bytes_of(&mut self, name: &str) -> io::Result<Vec<u8>>
        ensures { self.new.faults ≡ self.old.faults }
    {
        match fs::read(&self.rt, name) {
            Err(error) if self.logs.makes_room(&error) => fs::read(&self.rt, name),
            answer => answer,
        }
    }

    fn size_of(&self, name: &str) -> io::Result<u64> {
        if self.logs.is_standard(name)? {
            return Ok(0);
        }
        Ok(fs::metadata(&self.rt, name)?.len())
    }
}

impl<R: Files + AllocGlobal + Clock + Wait + Copy> Shelf for DaemonShelf<R> {
    ghost files = { λ _. None };

    ghost faults = { λ s. s.faults.count };

    fn read(&mut self, _alloc: Global, name: &str) -> Result<Bytes, ShelfFault> {
        let answer = self.bytes_of(name);
        Ok(Bytes::from_vec(self.faults.judged(answer)?))
    }

    fn size(&mut self, _alloc: Global, name: &str) -> Result<u64, ShelfFault> {
        let answer = self.size_of(name);
        self.faults.judged(answer)
    }

    fn names(&mut self, alloc: Global, pattern: &str) -> Result<Vec<Text>, ShelfFault> {
        let answer = names_on(alloc, &self.rt, pattern);
        self.faults.demanded(answer)
    }

    fn part(
        &mut self,
        alloc: Global,
        name: &str,
        start: u64,
        length: u64,
    ) -> Result<Bytes, ShelfFault> {
        let answer = self.part_of(alloc, name, start, length);
        self.faults.judged(answer)
    }

    fn append(&mut self, alloc: Global, name: &str, piece: &[u8]) -> Result<(), ShelfFault> {
        let answer = self.logs.append(alloc, name, piece);
        self.faults.demanded(answer)
    }

    fn shift(&mut self, alloc: Global, from: &str, to: &str) -> Result<(), ShelfFault> {
        let answer = self.logs.shift(alloc, from, to);
        self.faults.demanded(answer)
    }

    fn fresh(&mut self, alloc: Global, name: &str) -> Result<(), ShelfFault> {
        let answer = self.logs.fresh(alloc, name);
        self.faults.demanded(answer)
    }
}
