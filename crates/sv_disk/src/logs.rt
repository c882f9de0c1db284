//! The logs that the daemon writes.

use crate::keeping::{Kept, KeptLogs, Way, most_kept};
use crate::kinds::{Kind, kind_at, node_of};
use crate::limits::descriptors;
use crate::lines::redirected_line;
use crate::losses::Losses;
use crate::opening::{Making, OpenLog, mode_under, open_log};
use crate::plain::shift_on;
use crate::refusal::Refusal;
use crate::rules::LogRules;
use crate::standard::{Standard, standard_at};
use crate::writing::{Unwritten, give_whole, write_whole};
use std::alloc::{AllocError, Global};
use std::fs::{OpenFile, OpenOptions};
use std::rt::{Clock, Files};
use std::sync::Wait;
use std::{fs, io};
use sv_standard::Teller;

/// The number of the system's error where the process has no descriptor left.
const NO_DESCRIPTOR: i32 = 24;

/// What is opened to be closed where no other file can be.
const SPARE: &str = "/dev/null";

/// The logs that the daemon writes, with those that are open and those that take no pieces.
pub(crate) struct Logs<R: Files + Wait> {
    rt: R,
    rules: LogRules<R>,
    /// The daemon's folder in `/proc`.
    own: String,
    kept: KeptLogs<R::File>,
    losses: Losses<R>,
    has_told_redirection: bool,
    /// The log that couldn't be given another name in the call before this one.
    unshifted: Option<String>,
}

impl<R: Files + Wait + Drop> Drop for Logs<R> {
    fn drop(self) {
        let Self {
            rt: _,
            rules: _,
            own: _,
            kept: _,
            losses: _,
            has_told_redirection: _,
            unshifted: _,
        } = self;
    }
}

impl<R: Files + AllocGlobal + Clock + Wait + Copy> Logs<R> {
    /// The logs under these rules, of which none is open.
    pub(crate) fn new(
        rt: R,
        alloc: Global,
        rules: LogRules<R>,
        teller: Teller<R>,
    ) -> Result<Logs<R>, AllocError> {
        let pid = rules.pid;
        let own = format!(in alloc; "/proc/{pid}/")?;
        let spare = OpenOptions::new().read(true).open(&rt, SPARE).ok();
        Ok(Logs {
            rt,
            rules,
            own,
            kept: KeptLogs::new(alloc, spare, most_kept(descriptors(&rt))),
            losses: Losses::new(alloc, teller),
            has_told_redirection: false,
            unshifted: None,
        })
    }

    /// Adds a piece at the end of a log; a missing one is made. What isn't written is told.
    pub(crate) fn append(&mut self, alloc: Global, name: &str, piece: &[u8]) -> io::Result<()> {
        self.unshifted = None;
        let now = self.now();
        let answer = self.add(alloc, name, piece, now);
        self.echo(alloc, name, piece);
        match answer {
            Ok(()) => {
                self.losses.written(alloc, name, now);
                Ok(())
            }
            Err(Unwritten { why, bytes }) => {
                self.kept.give_up(name);
                self.losses.lost(alloc, name, &why, bytes, now);
                Err(why.into_error())
            }
        }
    }

    /// Gives a log another name, as `shift_on` does. One that can't get it keeps its bytes in the next call, which would
    /// make it empty.
    pub(crate) fn shift(&mut self, alloc: Global, from: &str, to: &str) -> io::Result<()> {
        self.unshifted = None;
        self.kept.give_up(from);
        self.kept.give_up(to);
        let answer = shift_on(&self.rt, self.own.as_str(), from, to);
        if let Err(error) = &answer {
            self.unshifted = String::from_str(alloc, from).ok();
            self.losses.unrotated(alloc, from, error);
        }
        answer
    }

    /// Makes a log empty; a missing one is made, and what is no plain file stays as it is.
    pub(crate) fn fresh(&mut self, alloc: Global, name: &str) -> io::Result<()> {
        if self
            .unshifted
            .take()
            .is_some_and(|from| from.as_str() == name)
        {
            return Ok(());
        }
        match self.emptied(alloc, name) {
            Ok(()) => Ok(()),
            Err(why) => Err(why.into_error()),
        }
    }

    /// Whether a name means one of the daemon's own streams.
    pub(crate) fn is_standard(&self, name: &str) -> io::Result<bool> {
        Ok(standard_at(&self.rt, self.own.as_str(), name)?.is_some())
    }

    /// Where a call failed since no descriptor was left, closes a log: whether it did, so that another try is worth it.
    pub(crate) fn makes_room(&mut self, error: &io::Error) -> bool {
        error.raw_os_error() == Some(NO_DESCRIPTOR) && self.kept.give_up_one()
    }

    /// Milliseconds of the machine's clock.
    fn now(&self) -> u64 {
        match self.rt.monotonic() {
            Ok(since) => since.as_millis().min(u128::from(u64::MAX)) as u64,
            Err(_) => 0,
        }
    }

    /// Gives a piece of the main log to the foreground too, unless that is where it went.
    fn echo(&mut self, alloc: Global, name: &str, piece: &[u8]) {
        if !self.rules.is_main(name) || self.is_kept_as_standard(name) {
            return;
        }
        if let Some(echo) = &self.rules.echo {
            let _ = echo.give(alloc, piece);
        }
    }

    fn is_kept_as_standard(&mut self, name: &str) -> bool {
        match self.kept.used(name) {
            Some(kept) => matches!(kept.way, Way::Standard(_)),
            None => false,
        }
    }

    fn add(&mut self, alloc: Global, name: &str, piece: &[u8], now: u64) -> Result<(), Unwritten> {
        if !self.is_current(name, now) {
            if let Err(why) = self.open(alloc, name, now) {
                return Err(Unwritten::all(why, piece));
            }
        }
        self.write(alloc, name, piece)
    }

    /// Whether a log is open, and its name still means the file, as far as it was looked in the last second.
    fn is_current(&mut self, name: &str, now: u64) -> bool {
        match self.kept.used(name) {
            Some(kept) if kept.is_due(now) => {
                kept.looked = now;
                is_meant(&self.rt, name, &kept.way)
            }
            Some(_) => true,
            None => false,
        }
    }

    fn write(&mut self, alloc: Global, name: &str, piece: &[u8]) -> Result<(), Unwritten> {
        match self.kept.used(name) {
            Some(
                Kept {
                    way: Way::File(log),
                    ..
                },
            ) => write_whole(&mut log.file, piece),
            Some(
                Kept {
                    way: Way::Standard(Standard::Out),
                    ..
                },
            ) => give_whole(alloc, &self.rules.out, piece),
            _ => give_whole(alloc, &self.rules.err, piece),
        }
    }

    /// Opens a log, and keeps it so.
    fn open(&mut self, alloc: Global, name: &str, now: u64) -> Result<(), Refusal> {
        self.kept.give_up(name);
        let way = match standard_at(&self.rt, self.own.as_str(), name)? {
            Some(standard) => Way::Standard(self.redirected(alloc, name, standard)),
            None => Way::File(self.opened(name)?),
        };
        let kept = Kept::new(way, now, self.rules.is_main(name));
        self.kept.keep(String::from_str(alloc, name)?, kept)?;
        Ok(())
    }

    /// The stream that a log goes to where it means this one.
    fn redirected(&mut self, alloc: Global, name: &str, standard: Standard) -> Standard {
        if standard == Standard::Err || !self.rules.journal_on_out {
            return standard;
        }
        if !self.has_told_redirection {
            self.has_told_redirection = true;
            self.losses.tell(alloc, redirected_line(alloc, name));
        }
        Standard::Err
    }

    fn opened(&mut self, name: &str) -> Result<OpenLog<R::File>, Refusal> {
        let making = self.making(name);
        match open_log(&self.rt, name, making) {
            Err(Refusal::System(error)) => {
                if self.makes_room(&error) {
                    open_log(&self.rt, name, making)
                } else {
                    Err(Refusal::System(error))
                }
            }
            answer => answer,
        }
    }

    fn making(&self, name: &str) -> Making {
        if self.rules.is_automatic(name) {
            return Making::Own;
        }
        match self.rules.umask {
            Some(umask) => Making::WithMode(mode_under(umask)),
            None => Making::Shared,
        }
    }

    fn emptied(&mut self, alloc: Global, name: &str) -> Result<(), Refusal> {
        match kind_at(&self.rt, name)? {
            Kind::Missing | Kind::Plain(_) => {
                self.open(alloc, name, self.now())?;
                Ok(self.cut(name)?)
            }
            _ => Ok(()),
        }
    }

    /// Takes what is in an open file out of it.
    fn cut(&mut self, name: &str) -> io::Result<()> {
        match self.kept.used(name) {
            Some(
                Kept {
                    way: Way::File(log),
                    ..
                },
            ) => log.file.set_len(0),
            _ => Ok(()),
        }
    }
}

/// Whether a name still means what its log goes to. Of one of the daemon's own streams it isn't known, so that its name is
/// read again.
fn is_meant<R: Files>(rt: &R, name: &str, way: &Way<R::File>) -> bool {
    match way {
        Way::File(log) => fs::metadata(rt, name).is_ok_and(|found| node_of(&found) == log.node),
        Way::Standard(_) => false,
    }
}
