//! Reading names that rise.
ghost use Rattle.std.specs.Prelude.{◌≡◌, ◌-◌, None, length, slice_get};
ghost use Rattle.sv_journal.specs.Reading.{Gives};
ghost use Rattle.sv_journal.specs.ReadingLines.{names_line_at};
ghost use Rattle.sv_journal.specs.Names.{above_from, spaced_name_at, names_at};
ghost use Rattle.sv_letters.specs.declared.letters.Awaits.{Awaits};

use crate::number::number;
use crate::stop::Stop;
use crate::text_byte::TextByte;
use crate::token::{spelled_behind, text_of, token};
use crate::word::{end, word};
use std::alloc::Global;
use sv_base::text::Text;
use sv_letters::{Awaits, Letters};
use sv_out::input::Input;
use sv_out::rising::RisingNames;

/// Reads the bytes of a text that stands above this one. Where it can't, the first byte that sets it below is the bad one.
#[tactic(auto, using(crate::proofs::ReadingNames::stops_at, crate::proofs::ReadingNames::stops_last))]
fn spelled_above<'a>(
    alloc: Global,
    below: &[u8],
    bytes: &'a [u8],
) -> Result<(Vec<u8>, &'a [u8]), Stop>
    ensures { Gives (λ x. (x.0.items, x.1.now)) result
        (above_from below.now Awaits.Character bytes.now) }
{
    let mut value = Vec::new(alloc);
    let mut awaits = Awaits::Character;
    let mut left = below;
    let mut rest = bytes;
    while let [same, more @ ..] = left {
        let (next, after) = TextByte {
            least: *same,
            awaits,
        }
        .read(rest)?;
        value.push(next)?;
        awaits = awaits.after(Letters::OfText, next);
        rest = after;
        if next != *same {
            return spelled_behind(value, Letters::OfText, awaits, rest);
        }
        left = more;
    }
    let (next, after) = TextByte { least: 0, awaits }.read(rest)?;
    value.push(next)?;
    spelled_behind(
        value,
        Letters::OfText,
        awaits.after(Letters::OfText, next),
        after,
    )
}

/// Reads the token of a text that stands above this one.
#[tactic(auto, using(crate::proofs::ReadingNames::above_utf8))]
fn text_above<'a>(alloc: Global, below: &Text, bytes: &'a [u8]) -> Result<(Text, &'a [u8]), Stop>
    ensures { Gives (λ x. (x.0, x.1.now)) result
        (above_from below.now Awaits.Character bytes.now) }
{
    match spelled_above(alloc, below.as_str().as_bytes(), bytes) {
        Ok((value, rest)) => Ok((text_of(value), rest)),
        Err(stop) => Err(stop),
    }
}

/// Reads a name after a space that stands above the last of these, if there is one.
fn name<'a>(alloc: Global, names: &[Text], bytes: &'a [u8]) -> Result<(Text, &'a [u8]), Stop>
    ensures { Gives (λ x. (x.0, x.1.now)) result
        (spaced_name_at (slice_get names.now (length names.now - 1)) bytes.now) }
{
    let rest = word(b" ", bytes)?;
    match names.last() {
        Some(last) => text_above(alloc, last, rest),
        None => token(alloc, Letters::OfText, rest),
    }
}

/// Reads so many names that rise, each after a space.
#[tactic(auto, using(crate::proofs::ReadingNames::names_none, crate::proofs::ReadingNames::names_stop))]
fn names_of(alloc: Global, count: u64, bytes: &[u8]) -> Result<(Vec<Text>, &[u8]), Stop>
    ensures { Gives (λ x. (x.0.items, x.1.now)) result (names_at None count bytes.now) }
{
    let mut names = Vec::new(alloc);
    let mut rest = bytes;
    let mut left = count;
    while left > 0 {
        match name(alloc, names.as_slice(), rest) {
            Ok((next, after)) => {
                names.push(next)?;
                rest = after;
            }
            Err(stop) => return Err(stop),
        }
        left -= 1;
    }
    Ok((names, rest))
}

/// Reads how many names there are, and each of them, which end the line.
#[tactic(auto, unfolding(crate::specs::ReadingLines::names_line_at), using(crate::proofs::ReadingNames::names_rise))]
pub fn names(alloc: Global, bytes: &[u8]) -> Result<Input, Stop>
    ensures { Gives (λ x. x) result (names_line_at bytes.now) }
{
    let (count, rest) = number(0, u64::MAX, bytes)?;
    match names_of(alloc, count, rest) {
        Ok((names, rest)) => Ok(end(Input::Names(RisingNames::new(names).unwrap()), rest)?),
        Err(stop) => Err(stop),
    }
}
