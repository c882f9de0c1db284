//! A key of a section: its value is expanded and then read; where the key isn't set its default stands.

ghost use Rattle.std.specs.Prelude.{◌≡◌, IfOk, IfErr, List, ℕ, Option, Ok};
ghost use Rattle.sv_keys.specs.Judged.{bad_expansion, bad_value, IsFault};
ghost use Rattle.sv_keys.specs.declared.judged.Unread.TheVariants.{Faulty};
ghost use Rattle.sv_keys.specs.Rows.{expanded, value_at, row, needed};

use crate::judged::{Cause, Judged, KeyFault, Unread, or_bad};
use crate::key::Key;
use std::alloc::{AllocError, Global};
use sv_base::text::Text;
use sv_expand::expand::expand;
use sv_expand::fault::ExpandFault;
use sv_expand::names::{Names, text_of};

/// How the values of a key are read.
pub trait Reading {
    type Value: Drop;

    ghost value_of: { List ℕ → Option Self.Value };

    /// The value that a text stands for, or `None` where it stands for none.
    fn read(alloc: Global, text: Text) -> Result<Option<Self::Value>, AllocError>
        ensures { IfOk result (λ value. value ≡ value_of text) };
}

#[tactic(auto, unfolding(crate::specs::Rows::expanded))]
fn expanded(alloc: Global, key: Key, text: &str, names: &Names) -> Judged<Text>
    ensures value { IfOk result (λ value. expanded names.now key text.now ≡ Ok value) }
    ensures fault { IfErr result (λ fault. IsFault fault (expanded names.now key text.now)) }
{
    match expand(alloc, text, names) {
        Ok(text) => Ok(text),
        Err(ExpandFault::OutOfMemory) => Err(Unread::OutOfMemory),
        Err(ExpandFault::Unknown(_)) => Err(no_expansion(key)),
        Err(ExpandFault::BadForm(_)) => Err(no_expansion(key)),
    }
}

fn no_expansion(key: Key) -> Unread
    ensures { result ≡ Faulty (bad_expansion key) }
{
    Unread::Faulty(KeyFault {
        key,
        cause: Cause::Expand,
    })
}

/// The expanded value of a key, where it is set.
#[tactic(auto, unfolding(crate::specs::Rows::value_at))]
pub fn value_at(
    alloc: Global,
    key: Key,
    keys: &[(Text, Text)],
    names: &Names,
) -> Judged<Option<Text>>
    ensures value { IfOk result (λ value. value_at key keys.now names.now ≡ Ok value) }
    ensures fault { IfErr result (λ fault. IsFault fault (value_at key keys.now names.now)) }
{
    match text_of(keys, key.name()) {
        Some(text) => match expanded(alloc, key, text, names) {
            Ok(text) => Ok(Some(text)),
            Err(fault) => Err(fault),
        },
        None => Ok(None),
    }
}

/// The value of a key, or its default where it isn't set.
#[tactic(auto, unfolding(crate::specs::Rows::row))]
pub fn row<R: Reading>(
    alloc: Global,
    key: Key,
    default: R::Value,
    keys: &[(Text, Text)],
    names: &Names,
) -> Judged<R::Value>
    ensures value { IfOk result (λ value.
        row key R.value_of default keys.now names.now ≡ Ok value) }
    ensures fault { IfErr result (λ fault.
        IsFault fault (row key R.value_of default keys.now names.now)) }
{
    match value_at(alloc, key, keys, names) {
        Ok(Some(text)) => or_bad(key, R::read(alloc, text)?),
        Ok(None) => Ok(default),
        Err(fault) => Err(fault),
    }
}

/// The value of a key that has no default: a section that lacks it is refused before its keys are read.
#[tactic(auto, unfolding(crate::specs::Rows::needed))]
pub fn needed<R: Reading>(
    alloc: Global,
    key: Key,
    keys: &[(Text, Text)],
    names: &Names,
) -> Judged<R::Value>
    ensures value { IfOk result (λ value. needed key R.value_of keys.now names.now ≡ Ok value) }
    ensures fault { IfErr result (λ fault.
        IsFault fault (needed key R.value_of keys.now names.now)) }
{
    match value_at(alloc, key, keys, names) {
        Ok(Some(text)) => or_bad(key, R::read(alloc, text)?),
        Ok(None) => or_bad(key, None),
        Err(fault) => Err(fault),
    }
}
