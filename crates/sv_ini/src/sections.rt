//! The sections of a configuration text, or its first fault.

ghost use Rattle.std.specs.Prelude.{◌≡◌, ◌≤◌, Ok, IfOk, IfErr, length};
ghost use Rattle.sv_ini.specs.Lines.{lines_of};
ghost use Rattle.sv_ini.specs.Sections.{text_limit, nothing_read, after_lines, sections_of};
ghost use Rattle.sv_ini.specs.Sections.{IsFault};

use crate::cuts;
use crate::fault::IniFault;
use crate::reading::SectionReader;
use crate::section::Section;
use std::alloc::Global;
use std::str;

/// The most bytes of a configuration text.
pub const TEXT_LIMIT: usize = 1_048_576;

/// The sections of a configuration text, in order of first appearance, each with its keys in lower case and
/// their last values, or the first fault: too many bytes, then a byte that isn't UTF-8, then a line.
pub fn sections(alloc: Global, bytes: &[u8]) -> Result<Vec<Section>, IniFault>
    ensures read { IfOk result (λ sections. sections_of bytes.now ≡ Ok sections.items) }
    ensures fault { IfErr result (λ fault. IsFault fault (sections_of bytes.now)) }
{
    if bytes.len() > TEXT_LIMIT {
        return Err(IniFault::TooLong);
    }
    match str::from_utf8(bytes) {
        Ok(text) => sections_of_text(alloc, text),
        Err(fault) => Err(IniFault::NotUtf8(fault.valid_up_to())),
    }
}

fn sections_of_text(alloc: Global, text: &str) -> Result<Vec<Section>, IniFault>
    requires { length text.now ≤ text_limit }
    ensures read { IfOk result (λ sections. sections_of text.now ≡ Ok sections.items) }
    ensures fault { IfErr result (λ fault. IsFault fault (sections_of text.now)) }
{
    match read_lines(alloc, text) {
        Ok(reading) => Ok(reading.into_sections(alloc)?),
        Err(fault) => Err(fault),
    }
}

/// Reads the lines in turn.
fn read_lines(alloc: Global, text: &str) -> Result<SectionReader, IniFault>
    requires { length text.now ≤ text_limit }
    ensures read { IfOk result
        (λ reading. after_lines 1 (lines_of text.now) nothing_read ≡ Ok reading) }
    ensures fault { IfErr result
        (λ fault. IsFault fault (after_lines 1 (lines_of text.now) nothing_read)) }
{
    let mut reading = SectionReader::new(alloc);
    let mut number = 1;
    let mut left = text;
    while let Some(cut) = cuts::cut_at_feed(left) {
        match reading.read(alloc, number, cuts::without_return(cut.0)) {
            Ok(()) => {}
            Err(fault) => return Err(fault),
        }
        number += 1;
        left = cut.1;
    }
    match reading.read(alloc, number, left) {
        Ok(()) => Ok(reading),
        Err(fault) => Err(fault),
    }
}
