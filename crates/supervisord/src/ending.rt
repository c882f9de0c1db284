//! The end of a daemon whose machine didn't halt.

use std::alloc::{AllocError, Global};
use std::net::Net;
use std::process::Processes;
use std::rt::{Clock, Files};
use std::sync::Wait;
use sv_processes::Living;
use sv_standard::Teller;

/// The status where memory was refused.
pub const NO_MEMORY: u8 = 3;

/// How long programs have after TERM before they get KILL, in seconds.
const PATIENCE: u32 = 10;

/// The daemon's status. Where it isn't that of an orderly end, the programs that still live are ended first, and that is told.
pub fn end_programs<R: Processes + Files + Net + Wait + Clock + Copy + Drop>(
    rt: R,
    alloc: Global,
    status: Result<u8, AllocError>,
    living: &Living,
    teller: &Teller<R>,
) -> u8 {
    let status = status.unwrap_or(NO_MEMORY);
    if status < NO_MEMORY {
        return status;
    }
    teller.tell(alloc, reason_of(status));
    match living.end_all(rt, alloc, PATIENCE) {
        Ok(0) => {}
        Ok(_) => teller.tell(alloc, "the programs that were running have been stopped"),
        Err(AllocError) => teller.tell(alloc, "out of memory: some programs may still run"),
    }
    status
}

/// Why the daemon ends with this status, and what comes next.
fn reason_of(status: u8) -> &'static str {
    match status {
        NO_MEMORY => "the daemon ends, since memory was refused; its programs are being stopped",
        7 => "the daemon ends, since it can't write what it has to; its programs are being stopped",
        _ => "the daemon ends before its programs did; they are being stopped",
    }
}
