//! Reading a whole line.
ghost use Rattle.std.specs.Prelude.{◌≡◌, ◌≤◌, ◌-◌, length, min, IfOk, IfErr, IfSome};
ghost use Rattle.sv_out.specs.declared.input.Input.{Input};
ghost use Rattle.sv_journal.specs.declared.header.Header.{Header};
ghost use Rattle.sv_journal.specs.Limits.{line_limit};
ghost use Rattle.sv_journal.specs.JournalLine.{FitsInput, input_line, FitsHeader, header_line};
ghost use Rattle.sv_journal.specs.Outcome.{IsOrNoMemory, IsFaultOf};
ghost use Rattle.sv_journal.specs.ReadingLines.{input_at, header_at};

use crate::fault::LineFault;
use crate::header::Header;
use crate::header_line::header;
use crate::input_line::{input, tick};
use crate::stop::Stop;
use std::alloc::Global;
use sv_base::moment::Moment;
use sv_out::input::Input;

/// The most bytes of one line, its line feed left out.
pub const LINE_LIMIT: usize = 4_194_304;

/// Reads an input line, without its line feed: the one input that has this line. Refuses exactly the lines that no
/// input has, and those of more than 4,194,304 bytes.
#[tactic(auto, using(crate::proofs::InputLaws::input_takes, crate::proofs::InputLaws::input_fits))]
pub fn read_input(alloc: Global, line: &[u8]) -> Result<Input, LineFault>
    ensures found { IfOk result (λ i. line.now ≡ input_line i) }
    ensures fits { IfOk result (λ i. FitsInput i) }
    ensures short { IfOk result (λ i. length line.now ≤ line_limit) }
    ensures column { IfErr result (λ fault. IsFaultOf FitsInput input_line line.now fault) }
    ensures only { (i : Input) → FitsInput i → line.now ≡ input_line i
        → length line.now ≤ line_limit → IsOrNoMemory result i }
{
    match input(alloc, line) {
        Ok(input) if line.len() <= LINE_LIMIT => Ok(input),
        Ok(_) => Err(LineFault::BadLine(LINE_LIMIT)),
        Err(Stop::At(left)) => Err(LineFault::BadLine(column(line, left))),
        Err(Stop::OutOfMemory) => Err(LineFault::OutOfMemory),
    }
}

/// Reads the line of a clock moment, of which a journal has the most, without its line feed: the moment of the one input that
/// has this line. None where it is another line.
#[tactic(auto, using(crate::proofs::InputLaws::input_takes, crate::proofs::InputLaws::input_fits))]
pub fn read_tick(line: &[u8]) -> Option<Moment>
    ensures found { IfSome result (λ at. line.now ≡ input_line (Input.Tick at)) }
    ensures fits { IfSome result (λ at. FitsInput (Input.Tick at)) }
    ensures short { IfSome result (λ at. length line.now ≤ line_limit) }
{
    match tick(line) {
        Some(at) if line.len() <= LINE_LIMIT => Some(at),
        _ => None,
    }
}

/// Reads a header line, without its line feed: the one header that has this line. Refuses exactly the lines that no
/// header has, and those of more than 4,194,304 bytes.
#[tactic(auto, using(crate::proofs::HeaderLaws::header_takes, crate::proofs::HeaderLaws::header_fits))]
pub fn read_header(alloc: Global, line: &[u8]) -> Result<Header, LineFault>
    ensures found { IfOk result (λ h. line.now ≡ header_line h) }
    ensures fits { IfOk result (λ h. FitsHeader h) }
    ensures short { IfOk result (λ h. length line.now ≤ line_limit) }
    ensures column { IfErr result (λ fault. IsFaultOf FitsHeader header_line line.now fault) }
    ensures only { (h : Header) → FitsHeader h → line.now ≡ header_line h
        → length line.now ≤ line_limit → IsOrNoMemory result h }
{
    match header(alloc, line) {
        Ok(header) if line.len() <= LINE_LIMIT => Ok(header),
        Ok(_) => Err(LineFault::BadLine(LINE_LIMIT)),
        Err(Stop::At(left)) => Err(LineFault::BadLine(column(line, left))),
        Err(Stop::OutOfMemory) => Err(LineFault::OutOfMemory),
    }
}

/// The column of the first bad byte, where so many bytes are left from it on.
pub(crate) fn column(line: &[u8], left: usize) -> usize
    ensures { result ≡ min (length line.now - left) line_limit }
{
    line.len().saturating_sub(left).min(LINE_LIMIT)
}
