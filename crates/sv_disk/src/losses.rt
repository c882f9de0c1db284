//! What is told of logs that take no pieces.
ghost use Rattle.std.specs.Prelude.{◌≡◌};

use crate::lines::{again_line, lost_line, unrotated_line};
use crate::refusal::Refusal;
use std::alloc::{AllocError, Global};
use std::collections::{BTreeMap, BTreeSet};
use std::io;
use std::io::ErrorKind;
use std::sync::Wait;
use sv_standard::Teller;

/// Of how many logs it is remembered at most that they take no pieces.
const MOST: usize = 4_096;

/// How long no piece is lost until a log counts as written again, in milliseconds.
const QUIET: u64 = 1_000;

/// What a log lost.
#[derive(Drop)]
struct Loss {
    bytes: u64,
    /// When a piece was last lost, in milliseconds of the machine's clock.
    last: u64,
}

/// The logs that take no pieces at present. Each is told once on standard error, and once when it is written again.
pub(crate) struct Losses<R: Wait> {
    teller: Teller<R>,
    by_name: BTreeMap<String, Loss>,
    /// The logs of which it was told that they can't be rotated.
    unrotated: BTreeSet<String>,
}

impl<R: Wait + Drop> Drop for Losses<R> {
    fn drop(self) {
        let Self {
            teller: _,
            by_name: _,
            unrotated: _,
        } = self;
    }
}

impl<R: Wait + Copy> Losses<R> {
    /// Nothing was lost yet.
    pub(crate) fn new(alloc: Global, teller: Teller<R>) -> Losses<R> {
        Losses {
            teller,
            by_name: BTreeMap::new(alloc),
            unrotated: BTreeSet::new(alloc),
        }
    }

    /// Tells a line, as far as there is memory for it.
    pub(crate) fn tell(&self, alloc: Global, line: Result<String, AllocError>) {
        if let Ok(line) = line {
            self.teller.tell(alloc, line.as_str());
        }
    }

    /// So many bytes of a log were lost: it is told where they are the first ones.
    pub(crate) fn lost(&mut self, alloc: Global, name: &str, why: &Refusal, bytes: u64, now: u64) {
        match self.by_name.get_mut(name) {
            Some(loss) => {
                loss.bytes = loss.bytes.saturating_add(bytes);
                loss.last = now;
            }
            None => {
                let _ = self.begin(alloc, name, why, bytes, now);
            }
        }
    }

    fn begin(
        &mut self,
        alloc: Global,
        name: &str,
        why: &Refusal,
        bytes: u64,
        now: u64,
    ) -> Result<(), AllocError> {
        if self.by_name.len() < MOST {
            let name = String::from_str(alloc, name)?;
            self.by_name.insert(name, Loss { bytes, last: now })?;
        }
        let reason = why.words(alloc)?;
        self.tell(alloc, lost_line(alloc, name, reason.as_str()));
        Ok(())
    }

    /// A piece of a log was written: it is told where others were lost before.
    pub(crate) fn written(&mut self, alloc: Global, name: &str, now: u64) {
        if self.by_name.is_empty() {
            return;
        }
        let is_quiet = |loss: &Loss| now.saturating_sub(loss.last) >= QUIET;
        if self.by_name.get(name).is_some_and(is_quiet)
            && let Some(loss) = self.by_name.remove(name)
        {
            self.tell(alloc, again_line(alloc, name, loss.bytes));
        }
    }

    /// A log couldn't be given its backup's name: it is told once, but where it is no plain file, which isn't rotated.
    pub(crate) fn unrotated(&mut self, alloc: Global, name: &str, error: &io::Error) {
        if error.kind() != ErrorKind::InvalidInput && !self.unrotated.contains(name) {
            let _ = self.begin_unrotated(alloc, name, error);
        }
    }

    fn begin_unrotated(
        &mut self,
        alloc: Global,
        name: &str,
        error: &io::Error,
    ) -> Result<(), AllocError> {
        if self.unrotated.len() < MOST {
            self.unrotated.insert(String::from_str(alloc, name)?)?;
        }
        let reason = format!(in alloc; "{error}")?;
        self.tell(alloc, unrotated_line(alloc, name, reason.as_str()));
        Ok(())
    }
}
