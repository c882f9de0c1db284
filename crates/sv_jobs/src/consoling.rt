//! The console: the daemon's own standard input.
ghost use Rattle.std.specs.Prelude.{◌≡◌, ◌++◌, [], OnErr, OnOk, option_to_list};
ghost use Rattle.sv_jobs.specs.ConsoleLines.{note_of};
ghost use Rattle.sv_jobs.specs.HeldLines.{kept_bytes};
ghost use Rattle.sv_jobs.specs.Consoling.{Consoled, Consoling};
ghost use Rattle.sv_lane.specs.Ends.{IsSameSeat, posted};
ghost use Rattle.sv_out.specs.Faults.{RisesWhere};

use crate::console_line::note_of;
use crate::line_in_hand::LineInHand;
use crate::notes::Note;
use std::alloc::{AllocError, Global};
use std::sync::Wait;
use sv_lane::Poster;
use sv_out::source::Source;
use sv_outside::PumpEnd;

/// How many bytes are asked for at once.
const ROOM: usize = 4_096;

/// Posts what each line asks for, in order: `signal NAME`, `start NAME`, `stop NAME`. Any other line is passed over, one
/// of more than 4,096 bytes among them, and so are bytes after the last line feed. Answers `Ended` at the end of input,
/// `Failed` only where the source's count of faults rose, and `OutOfMemory` where memory was refused, which the last note
/// tells.
#[inline(never)]
pub fn console<S: Source, R: Wait>(
    rt: &R,
    alloc: Global,
    source: &mut S,
    poster: &mut Poster<Note>,
) -> PumpEnd
    ensures consoled { Consoled result (S.left source.old) (S.left source.new)
        (posted poster.old) (posted poster.new) }
    ensures cause { RisesWhere (S.faults source.old) (S.faults source.new)
        (result ≡ PumpEnd.Failed) }
    ensures seat { IsSameSeat poster.old poster.new }
{
    let Ok(line) = LineInHand::new(alloc) else {
        poster.post(rt, Note::NoMemory);
        return PumpEnd::OutOfMemory;
    };
    let mut line = line;
    let end = read_lines(rt, alloc, source, &mut line, poster);
    if end == PumpEnd::OutOfMemory {
        poster.post(rt, Note::NoMemory);
    }
    end
}

/// Reads the lines, up to the end of input or of memory.
fn read_lines<S: Source, R: Wait>(
    rt: &R,
    alloc: Global,
    source: &mut S,
    line: &mut LineInHand,
    poster: &mut Poster<Note>,
) -> PumpEnd
    requires { kept_bytes line.old ≡ [] }
    ensures consoling { Consoling result (S.left source.old) (S.left source.new)
        (posted poster.old) (posted poster.new) }
    ensures cause { RisesWhere (S.faults source.old) (S.faults source.new)
        (result ≡ PumpEnd.Failed) }
    ensures seat { IsSameSeat poster.old poster.new }
{
    let mut buffer = [0u8; ROOM];
    for _ in rt.forever() {
        let Ok(count) = source.read(&mut buffer) else {
            return PumpEnd::Failed;
        };
        if count == 0 {
            return PumpEnd::Ended;
        }
        let (piece, _) = buffer.split_at(count);
        for byte in piece {
            if *byte != b'\n' {
                line.push(*byte);
                continue;
            }
            let Ok(()) = end_line(rt, alloc, line, poster) else {
                return PumpEnd::OutOfMemory;
            };
        }
    }
    unreachable!()
}

/// Ends the line in hand: what it asks for is posted, and the next line begins.
fn end_line<R: Wait>(
    rt: &R,
    alloc: Global,
    line: &mut LineInHand,
    poster: &mut Poster<Note>,
) -> Result<(), AllocError>
    ensures line { OnOk result (kept_bytes line.new ≡ []) }
    ensures posted { OnOk result (posted poster.new
        ≡ posted poster.old ++ option_to_list (note_of (kept_bytes line.old))) }
    ensures err { OnErr result (posted poster.new ≡ posted poster.old) }
    ensures seat { IsSameSeat poster.old poster.new }
{
    if let Some(note) = note_of(alloc, line.as_slice())? {
        poster.post(rt, note);
    }
    line.clear();
    Ok(())
}
