//! White space and tags.
ghost use Rattle.std.specs.Prelude.{◌≡◌, ◌<◌, ◌≤◌, ◌∷◌, [], IfOk, length};
ghost use Rattle.sv_xmlcall.specs.Atoms.{skip_white, close_at, tag_behind, closing_at};
ghost use Rattle.sv_xmlcall.specs.Reading.{shut_at};
ghost use Rattle.sv_xmlcall.specs.Spelled.{is_white};
ghost use Rattle.sv_xmlcall.specs.Outcome.{GivesAlways};

use crate::tag::{Tag, next_tag};
use sv_letters::BadByte;

/// Whether this is white space.
pub fn is_white(byte: u8) -> bool
    ensures { result ≡ is_white byte }
{
    byte == b' ' || byte == b'\t' || byte == b'\r' || byte == b'\n'
}

/// What follows the white space.
pub fn skip_white(bytes: &[u8]) -> &[u8]
    ensures value { result.now ≡ skip_white bytes.now }
    ensures shorter { length result.now ≤ length bytes.now }
{
    let mut rest = bytes;
    while let [byte, after @ ..] = rest {
        if !is_white(*byte) {
            break;
        }
        rest = after;
    }
    rest
}

/// Reads white space and one of these tags.
pub fn tag_behind<'a>(tags: &[Tag], bytes: &'a [u8]) -> Result<(Tag, &'a [u8]), BadByte>
    ensures value { GivesAlways (λ x. (x.0, x.1.now)) result (tag_behind tags.now bytes.now) }
    ensures shorter { IfOk result (λ x. length x.1.now < length bytes.now) }
{
    next_tag(tags, skip_white(bytes))
}

/// Reads the end of a closing tag.
pub fn close(bytes: &[u8]) -> Result<&[u8], BadByte>
    ensures value { GivesAlways (λ rest. rest.now) result (close_at bytes.now) }
    ensures shorter { IfOk result (λ rest. length rest.now < length bytes.now) }
{
    match skip_white(bytes) {
        [b'>', rest @ ..] => Ok(rest),
        rest => Err(BadByte(rest.len())),
    }
}

/// Reads white space and this closing tag.
pub fn closing<'a>(tag: Tag, bytes: &'a [u8]) -> Result<&'a [u8], BadByte>
    ensures value { GivesAlways (λ rest. rest.now) result (closing_at (tag ∷ []) bytes.now) }
    ensures shorter { IfOk result (λ rest. length rest.now < length bytes.now) }
{
    let (_, rest) = tag_behind(&[tag], bytes)?;
    close(rest)
}

/// Reads this closing tag.
#[tactic(auto, unfolding(crate::specs::Reading::shut_at))]
pub fn shut<'a>(tag: Tag, bytes: &'a [u8]) -> Result<&'a [u8], BadByte>
    ensures value { GivesAlways (λ rest. rest.now) result (shut_at tag bytes.now) }
    ensures shorter { IfOk result (λ rest. length rest.now < length bytes.now) }
{
    let (_, rest) = next_tag(&[tag], bytes)?;
    close(rest)
}
