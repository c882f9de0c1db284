//! The list of exit codes of a program line.
ghost use Rattle.std.specs.Prelude.{None};
ghost use Rattle.sv_journal.specs.Reading.{Gives, codes_from};

use crate::code_list::ExitCodes;
use crate::number::number;
use crate::stop::Stop;
use std::alloc::Global;
use sv_base::items::Items;

/// Reads exit codes, at least one, with commas between them.
#[tactic(auto, using(crate::proofs::Codes::codes_number_ok, crate::proofs::Codes::codes_number_bad, crate::proofs::Codes::codes_more))]
pub fn exit_codes(alloc: Global, bytes: &[u8]) -> Result<(ExitCodes, &[u8]), Stop>
    ensures { Gives (λ x. (x.0, x.1.now)) result (codes_from None bytes.now) }
{
    let mut codes = Items::new(alloc);
    let (mut code, mut rest) = number(0, 255, bytes)?;
    while let [separator, after @ ..] = rest {
        if *separator != b',' {
            break;
        }
        codes.push(code as u8)?;
        (code, rest) = number(0, 255, after)?;
    }
    codes.push(code as u8)?;
    Ok((ExitCodes::new(codes).unwrap(), rest))
}
