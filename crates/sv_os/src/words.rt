//! The words that a program is called with.
ghost use Rattle.std.specs.Prelude.{◌≡◌, ◌∷◌, [], IfOk, IsErr, codes, drop, map, string_bytes};
ghost use Rattle.std.specs.Vec.Iter.{into_iter_items};

use std::alloc::{AllocError, Global};
use std::env;
use std::io::ErrorKind;
use sv_base::Text;

/// The words after the program's name, in their order.
pub fn words_of(alloc: Global, arguments: env::Args<Global>) -> Result<Vec<Text>, AllocError>
    ensures { IfOk result (λ words.
        words.items ≡ map string_bytes (drop 1 (into_iter_items arguments))) }
{
    let mut words = Vec::new(alloc);
    let mut arguments = arguments;
    let _name = arguments.next();
    for argument in arguments {
        words.push(Text::from_string(argument))?;
    }
    Ok(words)
}

/// The words where those of the call can't be read: not being UTF-8, they are refused as a call for help is, unless memory
/// was.
pub fn words_untold(alloc: Global, kind: ErrorKind) -> Result<Vec<Text>, AllocError>
    ensures words { IfOk result (λ words. words.items ≡ codes "-h" ∷ []) }
    ensures memory { kind ≡ ErrorKind.OutOfMemory → IsErr result }
{
    match kind {
        ErrorKind::OutOfMemory => Err(AllocError),
        _ => {
            let mut words = Vec::new(alloc);
            words.push(Text::fixed("-h"))?;
            Ok(words)
        }
    }
}
