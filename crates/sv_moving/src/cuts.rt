//! The ways to cut a text into lines, and a line at a bracket or a separator.
ghost use Rattle.std.specs.Prelude.{◌≡◌, ◌<◌, ◌+◌, ◌++◌, ◌&&◌, IfSome, IfOk, OnOk, List, ℕ, false};
ghost use Rattle.std.specs.Prelude.{chars, length, take, drop};
ghost use Rattle.std.specs.List.{position, suffix_len};
ghost use Rattle.std.specs.Option.{option_map};
ghost use Rattle.sv_moving.specs.Lines.{is_feed, fed_one, fed, is_separator, is_inside};
ghost use Rattle.sv_moving.specs.Lines.{opens_bracket, name_in, section_name, cut_at, is_empty};

use std::alloc::{AllocError, Global};

/// The characters of a text, with a line feed at each end of a line. CR, LF, and CR with LF behind it are ends.
pub fn fed(alloc: Global, text: &str) -> Result<Vec<char>, AllocError>
    ensures { IfOk result (λ out. out.items ≡ fed false (chars text.now)) }
{
    let characters = characters_of(alloc, text)?;
    with_feeds(alloc, characters.as_slice())
}

fn characters_of(alloc: Global, text: &str) -> Result<Vec<char>, AllocError>
    ensures { IfOk result (λ characters. characters.items ≡ chars text.now) }
{
    text.chars().collect(alloc)
}

fn with_feeds(alloc: Global, characters: &[char]) -> Result<Vec<char>, AllocError>
    ensures { IfOk result (λ out. out.items ≡ fed false characters.now) }
{
    let mut out = Vec::new(alloc);
    let mut behind = false;
    let mut left = characters;
    while let [c, rest @ ..] = left {
        put_fed(&mut out, behind, *c)?;
        behind = *c == '\r';
        left = rest;
    }
    Ok(out)
}

/// Adds what a character becomes, where a CR stands before it or not.
fn put_fed(out: &mut Vec<char>, behind: bool, c: char) -> Result<(), AllocError>
    ensures { OnOk result (out.new.items ≡ out.old.items ++ fed_one behind c) }
{
    if c == '\r' {
        out.push('\n')?;
        Ok(())
    } else if is_second(behind, c) {
        Ok(())
    } else {
        out.push(c)?;
        Ok(())
    }
}

/// Whether this is the second character of an end.
fn is_second(behind: bool, c: char) -> bool
    ensures { result ≡ behind && is_feed c }
{
    behind && c == '\n'
}

/// What stands before the first line feed, and what after it.
pub fn cut_at_feed(text: &[char]) -> Option<(&[char], &[char])>
    ensures cut { option_map (λ x. (x.0.now, x.1.now)) result ≡ cut_at is_feed text.now }
    ensures shorter { IfSome result (λ x. length x.1.now < length text.now) }
{
    cut_round(text, first_feed(text))
}

fn first_feed(text: &[char]) -> Option<usize>
    ensures { result ≡ position is_feed text.now }
{
    text.iter().position(|c| *c == '\n')
}

/// What stands before the first `=` or `:`, and what after it.
pub fn cut_at_separator(content: &[char]) -> Option<(&[char], &[char])>
    ensures { option_map (λ x. (x.0.now, x.1.now)) result ≡ cut_at is_separator content.now }
{
    cut_round(content, first_separator(content))
}

fn first_separator(content: &[char]) -> Option<usize>
    ensures { result ≡ position is_separator content.now }
{
    content.iter().position(|c| *c == '=' || *c == ':')
}

/// What stands before this place, and what after it.
fn cut_round(text: &[char], at: Option<usize>) -> Option<(&[char], &[char])>
    requires { IfSome at (λ i. i < length text.now) }
    ensures cut { option_map (λ x. (x.0.now, x.1.now)) result
        ≡ option_map {U = List ℕ × List ℕ} (λ i. (take i text.now, drop (i + 1) text.now)) at }
    ensures shorter { IfSome result (λ x. length x.1.now < length text.now) }
{
    match at {
        Some(at) => Some((text.split_at(at).0, text.split_at(at + 1).1)),
        None => None,
    }
}

/// The name of the section that a line of this content opens.
pub fn section_name(content: &[char]) -> Option<&[char]>
    ensures { option_map (λ x. x.now) result ≡ section_name content.now }
{
    if opens_bracket(content) {
        name_in(content.split_at(1).1)
    } else {
        None
    }
}

fn opens_bracket(content: &[char]) -> bool
    ensures { result ≡ opens_bracket content.now }
{
    match content {
        [first, ..] => *first == '[',
        [] => false,
    }
}

/// What stands before the last closing bracket, where that isn't empty.
fn name_in(inside: &[char]) -> Option<&[char]>
    ensures { option_map (λ x. x.now) result ≡ name_in inside.now }
{
    let end = inside.len() - outside(inside);
    let size = end.saturating_sub(1);
    if size > 0 {
        Some(inside.split_at(size).0)
    } else {
        None
    }
}

/// Whether there is no character.
pub fn is_empty(content: &[char]) -> bool
    ensures { result ≡ is_empty content.now }
{
    match content {
        [] => true,
        [_, ..] => false,
    }
}

/// How many characters stand behind the last closing bracket.
fn outside(inside: &[char]) -> usize
    ensures { result ≡ suffix_len is_inside inside.now }
{
    inside.iter().rev().take_while(|c| **c != ']').count()
}
