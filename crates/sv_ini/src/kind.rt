//! What kind of line a line is.

ghost use Rattle.std.specs.Prelude.{◌≡◌};
ghost use Rattle.std.specs.Option.{option_map};
ghost use Rattle.sv_ini.specs.Lines.{kind_of, section_name, is_end, is_semicolon, is_comment_mark};
ghost use Rattle.sv_ini.specs.Lines.{begins_with, key_and_value, name_between, is_bracket, cut_at};
ghost use Rattle.sv_ini.specs.Lines.{is_separator, without_indent};
ghost use Rattle.sv_ini.specs.Kinds.{seen};

use crate::cuts;

/// What a line of a configuration text is.
#[derive(Drop)]
pub enum LineKind<'a> {
    Blank,
    Comment,
    /// A further line of the value that is going on.
    Further(&'a str),
    /// The name of a section.
    Opens(&'a str),
    /// A key, not yet in lower case, and its value.
    Sets(&'a str, &'a str),
    Bad,
}

/// What a line is, where a value is going on or not.
pub fn kind_of(going: bool, line: &str) -> LineKind<'_>
    ensures { seen result ≡ kind_of going line.now }
{
    let content = cuts::without_indent(line);
    if content.is_empty() {
        LineKind::Blank
    } else if is_comment(content) {
        LineKind::Comment
    } else if going && cuts::is_indented(line) {
        LineKind::Further(cuts::value_in(line))
    } else {
        match section_name(content) {
            Some(name) => LineKind::Opens(name),
            None => key_and_value(content),
        }
    }
}

fn is_comment(content: &str) -> bool
    ensures { result ≡ begins_with is_comment_mark content.now }
{
    match content.as_bytes() {
        [first, ..] => *first == b';' || *first == b'#',
        [] => false,
    }
}

/// The name of a section, where the line is one.
fn section_name(content: &str) -> Option<&str>
    ensures { option_map (λ x. x.now) result ≡ section_name content.now }
{
    match cuts::behind_bracket(content) {
        Some(inside) => name_before_bracket(inside),
        None => None,
    }
}

fn name_before_bracket(inside: &str) -> Option<&str>
    ensures { option_map (λ x. x.now) result ≡ name_between (cut_at is_bracket inside.now) }
{
    match cuts::cut_at_bracket(inside) {
        Some((name, behind)) if !name.is_empty() && is_end(behind) => Some(name),
        _ => None,
    }
}

/// Whether only spaces, tabs or a comment stand here.
fn is_end(text: &str) -> bool
    ensures { result ≡ is_end text.now }
{
    match cuts::without_indent(text).as_bytes() {
        [first, ..] => *first == b';',
        [] => true,
    }
}

/// The key and the value of a line, where it has them.
fn key_and_value(content: &str) -> LineKind<'_>
    ensures { seen result ≡ key_and_value (cut_at is_separator content.now) }
{
    match cuts::cut_at_separator(content) {
        Some((key, value)) => {
            let key = cuts::trimmed(key);
            if key.is_empty() {
                LineKind::Bad
            } else {
                LineKind::Sets(key, cuts::value_in(value))
            }
        }
        None => LineKind::Bad,
    }
}
