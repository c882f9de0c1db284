//! The words of a command.
ghost use Rattle.std.specs.Prelude.{◌≡◌, IfOk, Some, None, Err};
ghost use Rattle.std.specs.Str.{chars};
ghost use Rattle.sv_expand.specs.declared.fault.WordFault.TheVariants.{OpenQuote};
ghost use Rattle.sv_expand.specs.WordCuts.{HasWords, HasOpenQuote};
ghost use Rattle.sv_expand.specs.Words.{words_of, after_all, at_start};

use crate::fault::WordFault;
use crate::split::WordSplitter;
use std::alloc::{AllocError, Global};
use sv_base::text::Text;

/// The words of a command. Spaces, tabs and line feeds part them; quotes and a backslash keep such
/// characters.
pub fn words(alloc: Global, text: &str) -> Result<Vec<Text>, WordFault>
    ensures words { IfOk result (λ words. words_of text.now ≡ Some words.items) }
    ensures fault { result ≡ Err OpenQuote → words_of text.now ≡ None }
    ensures cut { IfOk result (λ words. HasWords text.now words.items) }
    ensures unclosed { result ≡ Err OpenQuote → HasOpenQuote text.now }
{
    read_text(alloc, text)
}

fn read_text(alloc: Global, text: &str) -> Result<Vec<Text>, WordFault>
    ensures words { IfOk result (λ words. words_of text.now ≡ Some words.items) }
    ensures fault { result ≡ Err OpenQuote → words_of text.now ≡ None }
{
    read_all(alloc, text)?.close()
}

fn read_all(alloc: Global, text: &str) -> Result<WordSplitter, AllocError>
    ensures { IfOk result (λ reading. reading ≡ after_all (chars text.now) at_start) }
{
    let mut reading = WordSplitter::new(alloc);
    for c in text.chars() {
        reading.read(alloc, c)?;
    }
    Ok(reading)
}
