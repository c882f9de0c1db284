//! Writing a piece of a log.

use crate::refusal::Refusal;
use std::alloc::Global;
use std::io;
use std::io::{ErrorKind, Write};
use std::sync::Wait;
use sv_os::write_some;
use sv_standard::Outlet;

/// Why so many bytes of a piece weren't written.
#[derive(Drop)]
pub(crate) struct Unwritten {
    pub(crate) why: Refusal,
    pub(crate) bytes: u64,
}

impl Unwritten {
    /// None of these bytes was written.
    pub(crate) fn all(why: Refusal, left: &[u8]) -> Unwritten {
        Unwritten {
            why,
            bytes: left.len() as u64,
        }
    }
}

/// Writes a piece, by several calls where one takes less.
pub(crate) fn write_whole<W: Write>(file: &mut W, piece: &[u8]) -> Result<(), Unwritten> {
    let mut left = piece;
    for _ in 0..piece.len() {
        let count = match write_some(file, left) {
            Ok(count) if count > 0 => count,
            Ok(_) => return Err(Unwritten::all(
                Refusal::System(io::Error::from(ErrorKind::WriteZero)),
                left,
            )),
            Err(error) => return Err(Unwritten::all(Refusal::System(error), left)),
        };
        left = &left[count..];
        if left.is_empty() {
            break;
        }
    }
    Ok(())
}

/// Gives a piece to one of the daemon's own streams.
pub(crate) fn give_whole<R: Wait + Copy>(
    alloc: Global,
    outlet: &Outlet<R>,
    piece: &[u8],
) -> Result<(), Unwritten> {
    if outlet.give(alloc, piece) {
        return Ok(());
    }
    Err(Unwritten::all(Refusal::Standard, piece))
}
