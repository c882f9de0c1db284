//! Pieces of pipes and links.
ghost use Rattle.std.specs.Prelude.{◌≡◌, ◌<◌, ◌≤◌, IfOk, length};
ghost use Rattle.sv_base.specs.Limits.{piece_limit};
ghost use Rattle.sv_journal.specs.Reading.{Gives, GivesAlways};
ghost use Rattle.sv_journal.specs.Pieces.{byte_at, bytes_at, piece_at};

use crate::stop::Stop;
use crate::token::{escape, stands_for_itself};
use std::alloc::Global;
use sv_base::bytes::{PIECE_LIMIT, Piece};
use sv_letters::{Awaits, BadByte, Letters};

/// Reads one byte of a piece.
fn byte(bytes: &[u8]) -> Result<(u8, &[u8]), BadByte>
    ensures value { GivesAlways (λ x. (x.0, x.1.now)) result (byte_at bytes.now) }
    ensures shorter { IfOk result (λ x. length x.1.now < length bytes.now) }
{
    match bytes {
        [b'%', rest @ ..] => escape(Letters::OfBytes, Awaits::Character, rest),
        [byte, rest @ ..] if stands_for_itself(*byte) => Ok((*byte, rest)),
        _ => Err(BadByte(bytes.len())),
    }
}

/// Reads the bytes of a piece up to the line's end. Where more than 65,536 are spelled, the first of them is the bad one.
#[tactic(auto, using(crate::proofs::PieceLaws::piece_more, crate::proofs::PieceLaws::piece_full, crate::proofs::PieceLaws::piece_end, crate::proofs::PieceLaws::piece_stops))]
fn spelled(alloc: Global, bytes: &[u8]) -> Result<Vec<u8>, Stop>
    ensures value { Gives (λ x. x.items) result (bytes_at piece_limit bytes.now) }
    ensures most { IfOk result (λ x. length x.items ≤ piece_limit) }
{
    let mut value = Vec::new(alloc);
    let mut room = PIECE_LIMIT;
    let mut rest = bytes;
    while !rest.is_empty() {
        if room == 0 {
            return Err(Stop::At(rest.len()));
        }
        match byte(rest) {
            Ok((next, after)) => {
                value.push(next)?;
                rest = after;
                room -= 1;
            }
            Err(bad) => return Err(Stop::At(bad.0)),
        }
    }
    Ok(value)
}

/// Reads a piece, which ends the line.
#[tactic(auto, using(crate::proofs::PieceLaws::piece_some))]
pub fn piece_of_line(alloc: Global, bytes: &[u8]) -> Result<Piece, Stop>
    ensures { Gives (λ x. x) result (piece_at bytes.now) }
{
    let value = spelled(alloc, bytes)?;
    match Piece::new(value) {
        Some(piece) => Ok(piece),
        None => Err(Stop::At(0)),
    }
}
