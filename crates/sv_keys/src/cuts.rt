//! How values are cut into parts.

ghost use Rattle.std.specs.Prelude.{◌≡◌, ◌++◌, ◌<◌, ◌≤◌, ◌+◌, ◌-◌, IfOk, IfSome, OnOk, List, []};
ghost use Rattle.std.specs.Prelude.{◌∷◌, ℕ, length, map, filter};
ghost use Rattle.std.specs.List.{prefix_len, suffix_len, slice_split, flat_map};
ghost use Rattle.std.specs.Option.{option_map};
ghost use Rattle.std.specs.Str.{IsUtf8};
ghost use Rattle.sv_keys.specs.Cuts.{is_white, is_comma, is_space, is_feed, is_no_colon};
ghost use Rattle.sv_keys.specs.Cuts.{is_some_text, trimmed, without_indent, cut_at, parts_of};
ghost use Rattle.sv_keys.specs.Cuts.{lines_in, gaps_in, before_last_colon, behind_last_colon};

use std::alloc::{AllocError, Global};
use sv_base::items::Items;
use sv_base::text::Text;

/// A space, a tab, CR or a line feed.
fn is_white(byte: u8) -> bool
    ensures { result ≡ is_white byte }
{
    byte == b' ' || byte == b'\t' || byte == b'\r' || byte == b'\n'
}

/// The text without the white space round it.
pub fn trimmed(text: &str) -> &str
    ensures { result.now ≡ trimmed text.now }
{
    let text = without_indent(text);
    text.split_at(text.len() - tail(text.as_bytes())).0
}

fn without_indent(text: &str) -> &str
    ensures { result.now ≡ without_indent text.now }
{
    text.split_at(indent(text.as_bytes())).1
}

fn indent(bytes: &[u8]) -> usize
    ensures { result ≡ prefix_len is_white bytes.now }
{
    bytes.iter().take_while(|byte| is_white(**byte)).count()
}

fn tail(bytes: &[u8]) -> usize
    ensures { result ≡ suffix_len is_white bytes.now }
{
    bytes
        .iter()
        .rev()
        .take_while(|byte| is_white(**byte))
        .count()
}

fn cut_at_comma(text: &str) -> Option<(&str, &str)>
    ensures cut { option_map (λ x. (x.0.now, x.1.now)) result ≡ cut_at is_comma text.now }
    ensures text { IfSome result (λ x. IsUtf8 x.1.now) }
    ensures shorter { IfSome result (λ x. length x.1.now < length text.now) }
{
    text.split_once(',')
}

fn cut_at_space(text: &str) -> Option<(&str, &str)>
    ensures cut { option_map (λ x. (x.0.now, x.1.now)) result ≡ cut_at is_space text.now }
    ensures text { IfSome result (λ x. IsUtf8 x.1.now) }
    ensures shorter { IfSome result (λ x. length x.1.now < length text.now) }
{
    text.split_once(' ')
}

fn cut_at_feed(text: &str) -> Option<(&str, &str)>
    ensures cut { option_map (λ x. (x.0.now, x.1.now)) result ≡ cut_at is_feed text.now }
    ensures text { IfSome result (λ x. IsUtf8 x.1.now) }
    ensures shorter { IfSome result (λ x. length x.1.now < length text.now) }
{
    text.split_once('\n')
}

/// The parts of a list with commas, without the white space round them.
#[tactic(auto, using(crate::proofs::Parts::parts_cut, crate::proofs::Parts::parts_uncut))]
pub fn parts_of(alloc: Global, text: &str) -> Result<Items<Text>, AllocError>
    ensures { IfOk result (λ parts. parts ≡ parts_of text.now) }
{
    let mut parts = Items::new(alloc);
    let mut left = text;
    while let Some(cut) = cut_at_comma(left) {
        parts.push(Text::from_str(alloc, trimmed(cut.0))?)?;
        left = cut.1;
    }
    parts.push(Text::from_str(alloc, trimmed(left))?)?;
    Ok(parts)
}

/// The parts of a text that spaces and line feeds part.
#[tactic(auto, using(crate::proofs::Parts::gaps_cut, crate::proofs::Parts::gaps_uncut))]
pub fn gaps_in(alloc: Global, text: &str) -> Result<Items<Text>, AllocError>
    ensures { IfOk result (λ parts. parts ≡ gaps_in text.now) }
{
    let mut parts = Items::new(alloc);
    let mut left = text;
    while let Some(cut) = cut_at_space(left) {
        add_lines(alloc, &mut parts, cut.0)?;
        left = cut.1;
    }
    add_lines(alloc, &mut parts, left)?;
    Ok(parts)
}

#[tactic(auto, using(crate::proofs::Parts::lines_cut, crate::proofs::Parts::lines_uncut))]
fn add_lines(alloc: Global, parts: &mut Items<Text>, text: &str) -> Result<(), AllocError>
    ensures { OnOk result (parts.new ≡ parts.old ++ lines_in text.now) }
{
    let mut left = text;
    while let Some(cut) = cut_at_feed(left) {
        add_line(alloc, parts, cut.0)?;
        left = cut.1;
    }
    add_line(alloc, parts, left)
}

fn add_line(alloc: Global, parts: &mut Items<Text>, line: &str) -> Result<(), AllocError>
    ensures { OnOk result (parts.new ≡ parts.old ++ filter is_some_text (line.now ∷ [])) }
{
    if !line.is_empty() {
        parts.push(Text::from_str(alloc, line)?)?;
    }
    Ok(())
}

/// What stands before the last colon; nothing where there is none.
pub fn before_last_colon(text: &str) -> &str
    ensures { result.now ≡ before_last_colon text.now }
{
    text.split_at(first_part(text.as_bytes())).0
}

fn first_part(bytes: &[u8]) -> usize
    ensures { result ≡ length bytes.now - suffix_len is_no_colon bytes.now - 1 }
{
    (bytes.len() - last_part(bytes)).saturating_sub(1)
}

/// What stands after the last colon; everything where there is none.
pub fn behind_last_colon(text: &[u8]) -> &[u8]
    ensures { result.now ≡ behind_last_colon text.now }
{
    &text[text.len() - last_part(text)..]
}

#[tactic(auto, using(crate::proofs::Boundaries::last_part_within))]
fn last_part(bytes: &[u8]) -> usize
    ensures value { result ≡ suffix_len is_no_colon bytes.now }
    ensures within { result ≤ length bytes.now }
{
    bytes.iter().rev().take_while(|byte| **byte != b':').count()
}
