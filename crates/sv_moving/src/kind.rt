//! What kind of line a line is.
ghost use Rattle.std.specs.Prelude.{◌≡◌, ◌&&◌, nat_lt};
ghost use Rattle.sv_moving.specs.Kinds.{seen};
ghost use Rattle.sv_moving.specs.Lines.{kind_of, kind_with, opens_or_sets, section_name};
ghost use Rattle.sv_moving.specs.Lines.{key_and_value, cut_at, is_separator};
ghost use Rattle.sv_moving.specs.Spaces.{indent_of};

use crate::{comments, cuts, spaces};

/// What a line of a configuration text is.
#[derive(Drop)]
pub enum LineKind<'a> {
    Blank,
    Comment,
    /// A further line of the value of the key in hand.
    Further(&'a [char]),
    /// The name of a section.
    Opens(&'a [char]),
    /// A key, not yet in lower case, and its value.
    Sets(&'a [char], &'a [char]),
    /// A value without a key.
    Keyless,
    /// None of these.
    Faulty,
}

/// What a line is, where a key is in hand or not, and its line is indented by this depth.
pub fn kind_of(going: bool, depth: usize, line: &[char]) -> LineKind<'_>
    ensures { seen result ≡ kind_of going depth line.now }
{
    let commented = comments::comment_in(line).is_some();
    let deeper = is_deeper(going, depth, line);
    kind_with(commented, deeper, comments::content_of(line))
}

/// Whether a key is in hand, and the line is indented deeper than the key's.
fn is_deeper(going: bool, depth: usize, line: &[char]) -> bool
    ensures { result ≡ going && nat_lt depth (indent_of line.now) }
{
    going && depth < spaces::indent_of(line)
}

/// What a line with this content is, behind which a comment stands or not.
fn kind_with(commented: bool, deeper: bool, content: &[char]) -> LineKind<'_>
    ensures { seen result ≡ kind_with commented deeper content.now }
{
    if cuts::is_empty(content) {
        if commented {
            LineKind::Comment
        } else {
            LineKind::Blank
        }
    } else if deeper {
        LineKind::Further(content)
    } else {
        opens_or_sets(content)
    }
}

/// A section where the line has its name, and else a key with its value.
fn opens_or_sets(content: &[char]) -> LineKind<'_>
    ensures { seen result ≡ opens_or_sets (section_name content.now) content.now }
{
    match cuts::section_name(content) {
        Some(name) => LineKind::Opens(name),
        None => key_and_value(content),
    }
}

fn key_and_value(content: &[char]) -> LineKind<'_>
    ensures { seen result ≡ key_and_value (cut_at is_separator content.now) }
{
    match cuts::cut_at_separator(content) {
        Some((key, value)) => {
            let key = spaces::trimmed(key);
            if cuts::is_empty(key) {
                LineKind::Keyless
            } else {
                LineKind::Sets(key, spaces::trimmed(value))
            }
        }
        None => LineKind::Faulty,
    }
}
