//! The second reading of a configuration: as Supervisor 4.2.5 reads it.
ghost use Rattle.std.specs.Prelude.{◌≡◌, ◌≤◌, ◌<◌, ◌+◌, ◌^◌, Ok, Err, OnOk, IfOk, IfErr, length};
ghost use Rattle.std.specs.Prelude.{chars, map};
ghost use Rattle.std.specs.List.{slice_split};
ghost use Rattle.std.specs.Str.Lossy.{utf8_valid_len};
ghost use Rattle.sv_moving.specs.Lines.{is_feed, lines_of};
ghost use Rattle.sv_moving.specs.Reading.{begun, after_lines};
ghost use Rattle.sv_moving.specs.There.{ended, text_read, texts_read, read_there, IsRefusal};

use crate::cuts;
use crate::reader::Reader;
use crate::refusal::Refusal;
use crate::sections::Sections;
use std::alloc::{AllocError, Global};
use std::str;
use sv_base::Bytes;

/// The sections of a configuration as Supervisor 4.2.5 reads them with Python 3.11, from its texts: the main one, and
/// then those that it includes, in the order in which they are read. Or the first refusal.
pub fn read_there(alloc: Global, texts: &[Bytes]) -> Result<Sections, Refusal>
    ensures read { IfOk result (λ sections. read_there texts.now ≡ Ok sections) }
    ensures refusal { IfErr result (λ refusal. IsRefusal refusal (read_there texts.now)) }
{
    // The length bounds the numbers of the texts.
    let _count = texts.len();
    let mut sections = Sections::new(alloc);
    let mut number = 0;
    let mut left = texts;
    while let [text, rest @ ..] = left {
        sections = text_read(alloc, number, text.as_slice(), sections)?;
        number += 1;
        left = rest;
    }
    Ok(sections)
}

/// The sections after the text of this number, behind the texts that gave these sections.
fn text_read(
    alloc: Global,
    number: usize,
    bytes: &[u8],
    sections: Sections,
) -> Result<Sections, Refusal>
    ensures read { IfOk result (λ next. text_read number bytes.now sections ≡ Ok next) }
    ensures refusal { IfErr result
        (λ refusal. IsRefusal refusal (text_read number bytes.now sections)) }
{
    match str::from_utf8(bytes) {
        Ok(text) => valid_read(alloc, number, text, sections),
        Err(fault) => Err(Refusal::NotUtf8(number, fault.valid_up_to())),
    }
}

fn valid_read(
    alloc: Global,
    number: usize,
    text: &str,
    sections: Sections,
) -> Result<Sections, Refusal>
    ensures read { IfOk result (λ next. text_read number text.now sections ≡ Ok next) }
    ensures refusal { IfErr result
        (λ refusal. IsRefusal refusal (text_read number text.now sections)) }
{
    let mut reader = Reader::begin(alloc, number, sections);
    read_text(alloc, text, &mut reader)?;
    end(reader)
}

/// The end of a text.
fn end(reader: Reader) -> Result<Sections, Refusal>
    ensures read { IfOk result (λ next. ended reader.headless reader ≡ Ok next) }
    ensures refusal { IfErr result
        (λ refusal. IsRefusal refusal (ended reader.headless reader)) }
{
    let Reader {
        sections,
        spot,
        headless,
        faulty,
        ..
    } = reader;
    match headless {
        Some(line) => Err(Refusal::NoHeader(spot.text, line)),
        None if faulty.as_slice().is_empty() => Ok(sections),
        None => Err(Refusal::BadLines(spot.text, faulty)),
    }
}

/// Reads the lines of a text in turn.
fn read_text(alloc: Global, text: &str, reader: &mut Reader) -> Result<(), AllocError>
    requires lines { reader.old.spot.line ≡ 0 }
    requires blanks { reader.old.blanks ≡ 0 }
    ensures { OnOk result (reader.new ≡ after_lines reader.old (lines_of (chars text.now))) }
{
    let characters = cuts::fed(alloc, text)?;
    read_lines(alloc, characters.as_slice(), reader)
}

/// Reads lines in turn, which end with line feeds.
fn read_lines(alloc: Global, text: &[char], reader: &mut Reader) -> Result<(), AllocError>
    requires lines { reader.old.spot.line ≡ 0 }
    requires blanks { reader.old.blanks ≡ 0 }
    ensures { OnOk result (reader.new ≡ after_lines reader.old (slice_split is_feed text.now)) }
{
    // The length bounds the numbers that count the lines.
    let _length = text.len();
    let mut left = text;
    while let Some(cut) = cuts::cut_at_feed(left) {
        reader.read(alloc, cut.0)?;
        left = cut.1;
    }
    reader.read(alloc, left)?;
    Ok(())
}
