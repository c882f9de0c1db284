//! The pairs NAME=VALUE of a text.
ghost use Rattle.std.specs.Prelude.{◌≡◌, Ok, IfOk, IfErr};
ghost use Rattle.std.specs.Str.{chars};
ghost use Rattle.sv_expand.specs.PairCuts.{HasPairs, IsFirstBad};
ghost use Rattle.sv_expand.specs.Pairs.{pairs_of, after_all, at_start, IsFault};

use crate::fault::PairFault;
use crate::pairing::PairReader;
use std::alloc::Global;
use sv_base::text::Text;

/// The pairs of a text: NAME=VALUE parted by commas, each in the order of the text. White space round a
/// pair is dropped, and the last one may be empty. A name is of letters, digits and `_`; a value is
/// quoted whole or bare.
pub fn pairs(alloc: Global, text: &str) -> Result<Vec<(Text, Text)>, PairFault>
    ensures pairs { IfOk result (λ pairs. pairs_of text.now ≡ Ok pairs.items) }
    ensures fault { IfErr result (λ fault. IsFault fault (pairs_of text.now)) }
    ensures cut { IfOk result (λ pairs. HasPairs text.now pairs.items) }
    ensures first_bad { IfErr result (λ fault. IsFirstBad text.now fault) }
{
    read_text(alloc, text)
}

fn read_text(alloc: Global, text: &str) -> Result<Vec<(Text, Text)>, PairFault>
    ensures pairs { IfOk result (λ pairs. pairs_of text.now ≡ Ok pairs.items) }
    ensures fault { IfErr result (λ fault. IsFault fault (pairs_of text.now)) }
{
    match read_all(alloc, text) {
        Ok(reading) => reading.close(),
        Err(fault) => Err(fault),
    }
}

fn read_all(alloc: Global, text: &str) -> Result<PairReader, PairFault>
    ensures read { IfOk result (λ reading. after_all 0 (chars text.now) at_start ≡ Ok reading) }
    ensures fault { IfErr result (λ fault. IsFault fault (after_all 0 (chars text.now) at_start)) }
{
    let mut reading = PairReader::new(alloc);
    for (at, c) in text.char_indices() {
        match reading.read(alloc, at, c) {
            Ok(()) => {}
            Err(fault) => return Err(fault),
        }
    }
    Ok(reading)
}
