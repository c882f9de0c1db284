//! What is done before any thread is made: words and configuration are looked at, and the addresses are opened.

use crate::parts::{GateParts, Parts, gate_parts, parts_of};
use crate::settings_word::{WORD, asked};
use crate::streams::{StreamEnds, Streams};
use crate::told::{Told, told_by};
use crate::unbegun::Unbegun;
use std::alloc::AllocError;
use std::fs::File;
use std::net::Net;
use std::process::Processes;
use std::rt::{Files, Runtime};
use std::sync::Wait;
use sv_base::{Host, Text};
use sv_disk::OsShelf;
use sv_os::host_of;
use sv_out::sink::{ListSink, Sink};
use sv_outside::ScriptWorld;
use sv_supervise::{arguments_of, supervise};

/// The variable by which the launcher says its number.
const LAUNCHER: &str = "SUPERVISORD_LAUNCHER";

/// The numbers of a process.
#[derive(Clone, Copy)]
pub struct Numbers {
    pub own: u32,
    pub parent: u32,
}

/// What the daemon is given: its words, and the machine that it runs on.
pub struct Given {
    pub words: Vec<Text>,
    pub host: Host,
}

impl Drop for Given {
    fn drop(self) {
        let Self { words: _, host: _ } = self;
    }
}

impl Given {
    /// Its words, and the machine.
    pub fn into_parts(self) -> (Vec<Text>, Host) {
        let Self { words, host } = self;
        (words, host)
    }
}

/// A daemon that can be begun, but for its gate.
pub struct Prepared<R: Net + Files + Processes + Wait + Copy + Drop> {
    pub streams: Streams<R>,
    pub parts: Parts<R>,
}

impl<R: Net + Files + Processes + Wait + Copy + Drop> Drop for Prepared<R> {
    fn drop(self) {
        let Self {
            streams: _,
            parts: _,
        } = self;
    }
}

impl<R: Net + Files + Processes + Wait + Copy + Drop> Prepared<R> {
    /// Each of its parts.
    pub fn into_parts(self) -> (Streams<R>, Parts<R>) {
        let Self { streams, parts } = self;
        (streams, parts)
    }
}

/// What a daemon is begun with: itself, the ends of its streams for their threads, and what its gate is made of.
pub type Beginning<R, J> = (Prepared<R>, StreamEnds<R>, GateParts<R, J>);

/// What the process of these numbers is given by these words.
pub fn given_by<R: Runtime + AllocGlobal>(
    rt: &R,
    words: Vec<Text>,
    numbers: Numbers,
) -> Result<Given, AllocError> {
    let host = machine_of(rt, words.as_slice(), numbers.own)?;
    Ok(Given { words, host })
}

/// Prepares the daemon that is given this, for jobs of this type. Where its own call refuses words or configuration, `out` says
/// why; any other reason is the caller's to tell.
pub fn prepare<
    R: Runtime + Files<File = File> + Net + Processes + AllocGlobal + Wait + Copy + Drop,
    J: Drop,
    O: Sink,
>(rt: R, given: &Given, parent: u32, out: &mut O) -> Result<Beginning<R, J>, Unbegun> {
    let alloc = rt.alloc();
    let (words, host) = (given.words.as_slice(), &given.host);
    let mut shelf = OsShelf::new(rt);
    if let Some(told) = asked(alloc, words, host, &mut shelf)? {
        return Err(told);
    }
    match told_by(alloc, words, host, &mut shelf)? {
        Some(told) => begun(rt, &told, host.pid, is_launched(host, parent)),
        None => Err(Unbegun::Ended(refused(&rt, given, out))),
    }
}

/// The daemon of this number that was told so, with its addresses open and its parts made.
fn begun<
    R: Runtime + Files<File = File> + Net + Processes + AllocGlobal + Wait + Copy + Drop,
    J: Drop,
>(rt: R, told: &Told, pid: u32, launched: bool) -> Result<Beginning<R, J>, Unbegun> {
    let (streams, ends) = Streams::new(rt, rt.alloc(), told.journal)?;
    let gate = gate_parts(&rt, rt.alloc(), &streams)?;
    let parts = parts_of(rt, told, pid, launched, &streams, &gate)?;
    Ok((Prepared { streams, parts }, ends, gate))
}

/// The status of a daemon whose words or configuration its own call refuses, which says why.
fn refused<R: Runtime + AllocGlobal + Copy + Drop, O: Sink>(
    rt: &R,
    given: &Given,
    out: &mut O,
) -> u8 {
    let alloc = rt.alloc();
    let mut journal = ListSink::new(alloc, 1, Vec::new(alloc));
    let mut world = ScriptWorld::new(alloc, Vec::new(alloc), Vec::new(alloc));
    supervise(
        alloc,
        given.words.as_slice(),
        &given.host,
        &mut OsShelf::new(*rt),
        &mut world,
        &mut journal,
        out,
    )
}

/// Whether the process of this number, the parent, is a launcher that applied the daemon's own settings.
fn is_launched(host: &Host, parent: u32) -> bool {
    host.environment.as_slice().iter().any(|(name, value)| name.as_str() == LAUNCHER
        && value.as_str().parse() == Ok(parent))
}

/// The machine, with the configuration file that the words name.
fn machine_of<R: Runtime + AllocGlobal>(
    rt: &R,
    words: &[Text],
    pid: u32,
) -> Result<Host, AllocError> {
    let words = match words {
        [word, rest @ ..] if word.as_str() == WORD => rest,
        words => words,
    };
    match arguments_of(rt.alloc(), words)? {
        Some(arguments) => host_of(rt, pid, Some(arguments.file.as_str())),
        None => host_of(rt, pid, None),
    }
}
