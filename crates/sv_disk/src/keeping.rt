//! The logs that stay open.
ghost use Rattle.std.specs.Prelude.{◌≡◌};
ghost use Rattle.sv_disk.specs.Keeping.{most_kept};

use crate::opening::OpenLog;
use crate::standard::Standard;
use std::alloc::{AllocError, Global};
use std::collections::BTreeMap;

/// How many logs stay open at most where the process may have so many descriptors: an eighth of these, so that programs and
/// clients have the others, but at least 4 and at most 64.
pub fn most_kept(descriptors: u64) -> usize
    ensures { result ≡ most_kept descriptors }
{
    (descriptors / 8).clamp(4, 64) as usize
}

/// How long it isn't looked whether a log's name still means the open file, in milliseconds.
const LOOK: u64 = 1_000;

/// Where the pieces of a log go.
#[derive(Drop)]
pub(crate) enum Way<F> {
    /// Into an open file.
    File(OpenLog<F>),
    /// To one of the daemon's own streams.
    Standard(Standard),
}

/// A log that is open.
#[derive(Drop)]
pub(crate) struct Kept<F> {
    pub(crate) way: Way<F>,
    /// When it was last looked whether the name still means the file, in milliseconds of the machine's clock.
    pub(crate) looked: u64,
    /// Whether it stays open, however long nothing is written to it.
    pub(crate) stays: bool,
    /// The number of its last use.
    used: u64,
}

impl<F> Kept<F> {
    /// A log that was opened at this moment.
    pub(crate) fn new(way: Way<F>, now: u64, stays: bool) -> Kept<F> {
        Kept {
            way,
            looked: now,
            stays,
            used: 0,
        }
    }

    /// Whether it is time to look what the name means.
    pub(crate) fn is_due(&self, now: u64) -> bool {
        now.saturating_sub(self.looked) >= LOOK
    }
}

/// The open logs by name. What was least lately used is closed where they are too many.
pub(crate) struct KeptLogs<F> {
    logs: BTreeMap<String, Kept<F>>,
    /// A file that is open for nothing but to be closed where no other can be opened.
    spare: Option<F>,
    most: usize,
    uses: u64,
}

impl<F: Drop> Drop for KeptLogs<F> {
    fn drop(self) {
        let Self {
            logs: _,
            spare: _,
            most: _,
            uses: _,
        } = self;
    }
}

impl<F: Drop> KeptLogs<F> {
    /// None is open of at most so many.
    pub(crate) fn new(alloc: Global, spare: Option<F>, most: usize) -> KeptLogs<F> {
        KeptLogs {
            logs: BTreeMap::new(alloc),
            spare,
            most,
            uses: 0,
        }
    }

    /// The open log of this name, which is used now.
    pub(crate) fn used(&mut self, name: &str) -> Option<&mut Kept<F>> {
        self.uses = self.uses.saturating_add(1);
        let kept = self.logs.get_mut(name)?;
        kept.used = self.uses;
        Some(kept)
    }

    /// Keeps a log open.
    pub(crate) fn keep(&mut self, name: String, kept: Kept<F>) -> Result<(), AllocError> {
        if self.logs.len() >= self.most {
            self.give_up_one();
        }
        self.logs.insert(name, kept)?;
        Ok(())
    }

    /// Closes the log of this name, where it is open.
    pub(crate) fn give_up(&mut self, name: &str) {
        let _closed = self.logs.remove(name);
    }

    /// Closes the log that was least lately used, or else the spare file: whether there was one.
    pub(crate) fn give_up_one(&mut self) -> bool {
        match self.least_used() {
            Some(least) => {
                self.logs.retain(|_, kept| kept.stays || kept.used != least);
                true
            }
            None => self.spare.take().is_some(),
        }
    }

    /// The number of the use that is furthest back, of those that may be closed.
    fn least_used(&self) -> Option<u64> {
        self.logs
            .values()
            .filter(|kept| !kept.stays)
            .map(|kept| kept.used)
            .min()
    }
}
