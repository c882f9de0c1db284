//! The bytes of a log as a text that XML allows.
ghost use Rattle.std.specs.Prelude.{◌≡◌, ◌≤◌, IfOk, length};
ghost use Rattle.sv_xmlcall.specs.Characters.{log_text, character_length};

use crate::content::text_of;
use std::alloc::{AllocError, Global};
use sv_base::text::Text;
use sv_letters::{Awaits, Letters};

/// How many bytes the character has with which these bytes begin, if XML allows it, or else 0.
fn character_length(bytes: &[u8]) -> usize
    ensures { result ≡ character_length bytes.now }
{
    let mut awaits = Awaits::Character;
    let mut length = 0;
    let mut rest = bytes;
    while let [byte, after @ ..] = rest {
        if !awaits.allows(Letters::OfXml, *byte) {
            return 0;
        }
        awaits = awaits.after(Letters::OfXml, *byte);
        length += 1;
        if awaits == Awaits::Character {
            return length;
        }
        rest = after;
    }
    0
}

/// Bytes of a log as a text: each valid character of UTF-8 that XML allows is kept, and any other byte becomes `?`.
pub fn text_of_log(alloc: Global, bytes: &[u8]) -> Result<Text, AllocError>
    ensures { IfOk result (λ text. text ≡ log_text bytes.now) }
{
    let mut text = Vec::new(alloc);
    let mut left = 0;
    let mut rest = bytes;
    while let [byte, after @ ..] = rest {
        if left == 0 {
            left = character_length(rest);
        }
        if left > 0 {
            text.push(*byte)?;
            left -= 1;
        } else {
            text.push(b'?')?;
        }
        rest = after;
    }
    Ok(text_of(text))
}
