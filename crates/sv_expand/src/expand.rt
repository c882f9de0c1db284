//! The expansion of a text.
ghost use Rattle.std.specs.Prelude.{◌≡◌, Ok, IfOk, IfErr};
ghost use Rattle.std.specs.Str.{chars};
ghost use Rattle.sv_expand.specs.Cuts.{Expands, IsLeftmost};
ghost use Rattle.sv_expand.specs.Expansion.{expansion_of, after_all, at_start, IsFault};

use crate::expanding::Expander;
use crate::fault::ExpandFault;
use crate::names::Names;
use std::alloc::Global;
use sv_base::text::Text;

/// The expansion of a text. `%%` is a percent sign; `%(NAME)s` is the value of a name; `%(NAME)d`,
/// `%(NAME)Nd` and `%(NAME)0Nd` print its number to the right in N places, from 1 to 9, with spaces or
/// zeros. A text with several faults has the leftmost.
pub fn expand(alloc: Global, text: &str, names: &Names) -> Result<Text, ExpandFault>
    ensures text { IfOk result (λ expanded. expansion_of names.now text.now ≡ Ok expanded) }
    ensures fault { IfErr result (λ fault. IsFault fault (expansion_of names.now text.now)) }
    ensures cut { IfOk result (λ expanded. Expands names.now text.now expanded) }
    ensures leftmost { IfErr result (λ fault. IsLeftmost names.now text.now fault) }
{
    read_text(alloc, text, names)
}

fn read_text(alloc: Global, text: &str, names: &Names) -> Result<Text, ExpandFault>
    ensures text { IfOk result (λ expanded. expansion_of names.now text.now ≡ Ok expanded) }
    ensures fault { IfErr result (λ fault. IsFault fault (expansion_of names.now text.now)) }
{
    match read_all(alloc, text, names) {
        Ok(reading) => reading.close(),
        Err(fault) => Err(fault),
    }
}

fn read_all(alloc: Global, text: &str, names: &Names) -> Result<Expander, ExpandFault>
    ensures read { let all = after_all names.now 0 (chars text.now) at_start in
        IfOk result (λ reading. all ≡ Ok reading) }
    ensures fault { let all = after_all names.now 0 (chars text.now) at_start in
        IfErr result (λ fault. IsFault fault all) }
{
    let mut reading = Expander::new(alloc);
    for (at, c) in text.char_indices() {
        match reading.read(alloc, names, at, c) {
            Ok(()) => {}
            Err(fault) => return Err(fault),
        }
    }
    Ok(reading)
}
