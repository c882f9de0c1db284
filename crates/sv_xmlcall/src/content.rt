//! The text between two tags.
ghost use Rattle.std.specs.Prelude.{◌≡◌, ◌++◌, ◌<◌, ◌≤◌, [], length, true, false, Bool, IfOk};
ghost use Rattle.std.specs.Prelude.{IfSome, OnOk, IsUtf8, IsTrue};
ghost use Rattle.sv_letters.specs.Letters.{is_allowed, are_letters};
ghost use Rattle.std.specs.Char.{encode_utf8};
ghost use Rattle.std.specs.Option.{option_map};
ghost use Rattle.sv_letters.specs.declared.letters.Letters.TheVariants.{OfXml};
ghost use Rattle.sv_letters.specs.declared.letters.Awaits.{Awaits};
ghost use Rattle.sv_xmlcall.specs.Machine.{is_digit, digit_value};
ghost use Rattle.sv_xmlcall.specs.Outcome.{Gives, GivesAlways};
ghost use Rattle.sv_xmlcall.specs.Simple.{run_at, behind_at, wide_run, awaits_behind, behind_wide};
ghost use Rattle.sv_xmlcall.specs.Reading.{numeral_at, numbered_at, entity_at, piece_at, text_at};
ghost use Rattle.sv_xmlcall.specs.Reading.{content_at, method_at};

use crate::atoms::shut;
use crate::simple::push_run;
use crate::stop::Stop;
use crate::tag::{Tag, next_tag};
use std::alloc::{AllocError, Global};
use sv_base::text::Text;
use sv_letters::{Awaits, BadByte, Letters};

/// The greatest number of a character.
const LAST: u32 = 1_114_111;

/// Whether XML allows the character of this number (XML 1.0, production 2).
fn is_allowed(number: u32) -> bool
    ensures { result ≡ is_allowed number }
{
    number == 9
        || number == 10
        || number == 13
        || 32 <= number && number <= 55_295
        || 57_344 <= number && number <= 65_533
        || 65_536 <= number && number <= LAST
}

fn is_digit(hex: bool, byte: u8) -> bool
    ensures { result ≡ is_digit hex byte }
{
    byte.is_ascii_digit() || hex && (b'A' <= byte && byte <= b'F' || b'a' <= byte && byte <= b'f')
}

fn digit_value(byte: u8) -> u8
    requires { (hex : Bool) × IsTrue (is_digit hex byte) }
    ensures { result ≡ digit_value byte }
{
    if byte <= b'9' {
        byte - b'0'
    } else if byte <= b'F' {
        byte - 55
    } else {
        byte - 87
    }
}

/// Reads the number of an entity and its semicolon, and gives the character.
fn numeral(hex: bool, bytes: &[u8]) -> Result<(char, &[u8]), BadByte>
    ensures value { GivesAlways (λ x. (x.0, x.1.now)) result (numeral_at hex false 0 bytes.now) }
    ensures shorter { IfOk result (λ x. length x.1.now < length bytes.now) }
{
    let mut number: u32 = 0;
    let mut seen = false;
    let mut rest = bytes;
    while let [byte, after @ ..] = rest {
        if is_digit(hex, *byte) {
            let more = number * (if hex { 16 } else { 10 }) + u32::from(digit_value(*byte));
            if more > LAST {
                return Err(BadByte(rest.len()));
            }
            number = more;
            seen = true;
            rest = after;
        } else if *byte == b';' && seen && is_allowed(number) {
            return match char::from_u32(number) {
                Some(character) => Ok((character, after)),
                None => Err(BadByte(rest.len())),
            };
        } else {
            return Err(BadByte(rest.len()));
        }
    }
    Err(BadByte(0))
}

/// Reads what follows the `&#` of an entity.
fn numbered(bytes: &[u8]) -> Result<(char, &[u8]), BadByte>
    ensures value { GivesAlways (λ x. (x.0, x.1.now)) result (numbered_at bytes.now) }
    ensures shorter { IfOk result (λ x. length x.1.now < length bytes.now) }
{
    match bytes {
        [b'x', rest @ ..] => numeral(true, rest),
        _ => numeral(false, bytes),
    }
}

/// Reads an entity, and gives its character.
#[tactic(auto, unfolding(crate::specs::Reading::entity_at))]
fn entity(bytes: &[u8]) -> Result<(char, &[u8]), BadByte>
    ensures value { GivesAlways (λ x. (x.0, x.1.now)) result (entity_at bytes.now) }
    ensures shorter { IfOk result (λ x. length x.1.now < length bytes.now) }
{
    let (tag, rest) = next_tag(
        &[
            Tag::Ampersand,
            Tag::Less,
            Tag::Greater,
            Tag::Quote,
            Tag::Apostrophe,
            Tag::Numbered,
        ],
        bytes,
    )?;
    match tag {
        Tag::Ampersand => Ok(('&', rest)),
        Tag::Less => Ok(('<', rest)),
        Tag::Greater => Ok(('>', rest)),
        Tag::Quote => Ok(('"', rest)),
        Tag::Apostrophe => Ok(('\'', rest)),
        _ => numbered(rest),
    }
}

/// Reads a character or an entity, adds it to those that were kept, and gives what may come then and what follows; at
/// the `<` that ends the text it gives none.
#[inline(always)]
#[tactic(auto, unfolding(crate::specs::Reading::piece_at))]
fn piece<'a>(
    kept: &mut Vec<u8>,
    awaits: Awaits,
    bytes: &'a [u8],
) -> Result<Option<(Awaits, &'a [u8])>, Stop>
    ensures value { Gives (λ o. (kept.new.items, option_map (λ x. (x.0, x.1.now)) o)) result
        (piece_at kept.old.items awaits bytes.now) }
    ensures shorter { IfOk result (λ o. IfSome o (λ x. length x.1.now < length bytes.now)) }
{
    match bytes {
        [] => Err(Stop::At(0)),
        [b'<', ..] if awaits == Awaits::Character => Ok(None),
        [b'&', ..] if awaits == Awaits::Character => {
            let (character, rest) = entity(bytes)?;
            put_character(kept, character)?;
            Ok(Some((Awaits::Character, rest)))
        }
        [byte, rest @ ..]
            if *byte != b'<' && *byte != b'&' && awaits.allows(Letters::OfXml, *byte) => {
            kept.push(*byte)?;
            Ok(Some((awaits.after(Letters::OfXml, *byte), rest)))
        }
        _ => Err(Stop::At(bytes.len())),
    }
}

/// Adds the run of simple bytes with which these begin, where a character may come, to those that were kept, and gives
/// what is after it.
fn run<'a>(kept: &mut Vec<u8>, awaits: Awaits, bytes: &'a [u8]) -> Result<&'a [u8], AllocError>
    ensures run { OnOk result (kept.new.items ≡ kept.old.items ++ run_at awaits bytes.now) }
    ensures behind { IfOk result (λ rest. rest.now ≡ behind_at awaits bytes.now) }
    ensures shorter { IfOk result (λ rest. length rest.now ≤ length bytes.now) }
{
    match awaits {
        Awaits::Character => push_run(kept, bytes),
        Awaits::Private | Awaits::Continuation { .. } => Ok(bytes),
    }
}

/// What may come after the bytes of wider characters with which these begin, and what is after them.
fn behind_wide(awaits: Awaits, bytes: &[u8]) -> (Awaits, &[u8])
    ensures next { result.0 ≡ awaits_behind awaits bytes.now }
    ensures behind { result.1.now ≡ behind_wide awaits bytes.now }
    ensures shorter { length result.1.now ≤ length bytes.now }
{
    let mut next = awaits;
    let mut rest = bytes;
    while let [byte, after @ ..] = rest {
        if *byte < 128 || !next.allows(Letters::OfXml, *byte) {
            break;
        }
        next = next.after(Letters::OfXml, *byte);
        rest = after;
    }
    (next, rest)
}

/// Adds the bytes of wider characters with which these begin to those that were kept, and gives what may come then and
/// what is after them.
#[tactic(auto, using(crate::proofs::SimpleLaws::wide_taken))]
fn wide<'a>(
    kept: &mut Vec<u8>,
    awaits: Awaits,
    bytes: &'a [u8],
) -> Result<(Awaits, &'a [u8]), AllocError>
    ensures run { OnOk result (kept.new.items ≡ kept.old.items ++ wide_run awaits bytes.now) }
    ensures next { IfOk result (λ x. x.0 ≡ awaits_behind awaits bytes.now) }
    ensures behind { IfOk result (λ x. x.1.now ≡ behind_wide awaits bytes.now) }
    ensures shorter { IfOk result (λ x. length x.1.now ≤ length bytes.now) }
{
    let (next, rest) = behind_wide(awaits, bytes);
    kept.extend_from_slice(&bytes[..bytes.len() - rest.len()])?;
    Ok((next, rest))
}

/// Reads characters up to the `<` that ends the text, and gives them after those that were kept.
#[tactic(auto, using(crate::proofs::SimpleLaws::ran, crate::proofs::SimpleLaws::ran_open, crate::proofs::SimpleLaws::ran_wide, crate::proofs::SimpleLaws::ran_wide_open, crate::proofs::Texts::reaches_begin_at, crate::proofs::Texts::reaches_more, crate::proofs::Texts::reaches_end, crate::proofs::Texts::reaches_bad, crate::proofs::Texts::piece_open, crate::proofs::Texts::whole_utf8))]
pub fn characters<'a>(alloc: Global, kept: &[u8], bytes: &'a [u8]) -> Result<(Text, &'a [u8]), Stop>
    requires { IsTrue (are_letters OfXml Awaits.Character kept.now) }
    ensures value { Gives (λ x. (x.0, x.1.now)) result (text_at kept.now bytes.now) }
    ensures shorter { IfOk result (λ x. length x.1.now ≤ length bytes.now) }
{
    let mut value = Vec::from_slice(alloc, kept)?;
    let mut awaits = Awaits::Character;
    let mut rest = bytes;
    loop {
        let behind_run = run(&mut value, awaits, rest)?;
        let (then, behind_wide) = wide(&mut value, awaits, behind_run)?;
        match piece(&mut value, then, behind_wide) {
            Ok(Some((next, behind))) => {
                awaits = next;
                rest = behind;
            }
            Ok(None) => return Ok((text_of(value), behind_wide)),
            Err(stop) => return Err(stop),
        }
    }
}

fn put_character(out: &mut Vec<u8>, character: char) -> Result<(), AllocError>
    ensures { OnOk result (out.new.items ≡ out.old.items ++ encode_utf8 character) }
{
    let mut buffer = [0; 4];
    out.extend_from_slice(character.encode_utf8(&mut buffer).as_bytes())
}

/// The text of these bytes, which are UTF-8.
pub fn text_of(bytes: Vec<u8>) -> Text
    requires { IsUtf8 bytes.items }
    ensures { result ≡ bytes.items }
{
    Text::from_string(unsafe { String::from_utf8_unchecked(bytes) })
}

/// Reads a text and its closing tag.
#[tactic(auto, unfolding(crate::specs::Reading::content_at))]
pub fn content(alloc: Global, end: Tag, bytes: &[u8]) -> Result<(Text, &[u8]), Stop>
    ensures value { Gives (λ x. (x.0, x.1.now)) result (content_at end bytes.now) }
    ensures shorter { IfOk result (λ x. length x.1.now < length bytes.now) }
{
    let (text, rest) = characters(alloc, b"", bytes)?;
    let rest = shut(end, rest)?;
    Ok((text, rest))
}

/// Reads the name of a method after its opening tag, and the closing tag.
#[tactic(auto, unfolding(crate::specs::Reading::method_at))]
pub fn method_name(alloc: Global, bytes: &[u8]) -> Result<(Text, &[u8]), Stop>
    ensures value { Gives (λ x. (x.0, x.1.now)) result (method_at bytes.now) }
    ensures shorter { IfOk result (λ x. length x.1.now < length bytes.now) }
{
    let (method, rest) = characters(alloc, b"", bytes)?;
    if method.as_str().as_bytes().is_empty() {
        return Err(Stop::At(rest.len()));
    }
    let rest = shut(Tag::EndMethodName, rest)?;
    Ok((method, rest))
}
