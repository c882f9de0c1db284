//! The words of a line.
ghost use Rattle.std.specs.Prelude.{◌≡◌, ◌<◌, ◌++◌, ◌∷◌, [], IfOk, IfSome, OnOk, filter, length};
ghost use Rattle.std.specs.Str.{IsUtf8};
ghost use Rattle.std.specs.Option.{option_map};
ghost use Rattle.sv_ctl.specs.Talk.Conversation.{is_quit, is_some_text, joined, words_in, words_of};
ghost use Rattle.sv_ctl.specs.Talk.Cuts.{parted};

use std::alloc::{AllocError, Global};
use sv_base::{Items, Text};

/// The words of a line, parted by spaces; none where it isn't UTF-8.
pub(crate) fn words_in(alloc: Global, line: &[u8]) -> Result<Option<Items<Text>>, AllocError>
    ensures { IfOk result (λ words. words ≡ words_in line.now) }
{
    match str::from_utf8(line) {
        Ok(text) => Ok(Some(words_of(alloc, text)?)),
        Err(_) => Ok(None),
    }
}

#[tactic(auto, using(crate::proofs::TalkLemmas::WordLists::first_word, crate::proofs::TalkLemmas::WordLists::last_word))]
fn words_of(alloc: Global, line: &str) -> Result<Items<Text>, AllocError>
    ensures { IfOk result (λ words. words ≡ words_of line.now) }
{
    let mut words = Items::new(alloc);
    let mut left = line;
    while let Some(cut) = parted(left) {
        add_word(alloc, &mut words, cut.0)?;
        left = cut.1;
    }
    add_word(alloc, &mut words, left)?;
    Ok(words)
}

/// What stands before and after the first space.
fn parted(text: &str) -> Option<(&str, &str)>
    ensures cut { option_map (λ parts. (parts.0.now, parts.1.now)) result ≡ parted text.now }
    ensures text { IfSome result (λ parts. IsUtf8 parts.1.now) }
    ensures shorter { IfSome result (λ parts. length parts.1.now < length text.now) }
{
    text.split_once(' ')
}

/// Adds a word, unless it is empty.
fn add_word(alloc: Global, words: &mut Items<Text>, word: &str) -> Result<(), AllocError>
    ensures { OnOk result (words.new ≡ words.old ++ filter is_some_text (word.now ∷ [])) }
{
    if word.is_empty() {
        return Ok(());
    }
    words.push(Text::from_str(alloc, word)?)
}

/// Whether the line is the one word `quit` or `exit`.
pub(crate) fn is_quit(words: &[Text]) -> bool
    ensures { result ≡ is_quit words.now }
{
    match words {
        [word] => word.as_str() == "quit" || word.as_str() == "exit",
        _ => false,
    }
}

/// Words with a space between each two.
pub(crate) fn joined(alloc: Global, words: &[Text]) -> Result<Vec<u8>, AllocError>
    ensures { IfOk result (λ text. text.items ≡ joined words.now) }
{
    let mut text = Vec::new(alloc);
    let mut left = words;
    while let [word, rest @ ..] = left {
        text.extend_from_slice(word.as_str().as_bytes())?;
        if !rest.is_empty() {
            text.push(b' ')?;
        }
        left = rest;
    }
    Ok(text)
}
