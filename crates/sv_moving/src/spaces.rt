//! White space as Python 3.11 sees it, and lines without it.
ghost use Rattle.std.specs.Prelude.{◌≡◌};
ghost use Rattle.std.specs.List.{prefix_len, suffix_len};
ghost use Rattle.sv_moving.specs.Spaces.{is_ascii_space, is_wide_space, is_space};
ghost use Rattle.sv_moving.specs.Spaces.{indent_of, without_indent, trimmed};

/// Whether this is one of Python's 29 characters of white space.
pub fn is_space(c: char) -> bool
    ensures { result ≡ is_space c }
{
    is_ascii_space(c) || is_wide_space(c)
}

fn is_ascii_space(c: char) -> bool
    ensures { result ≡ is_ascii_space c }
{
    ('\t' <= c && c <= '\r') || ('\x1c' <= c && c <= ' ')
}

fn is_wide_space(c: char) -> bool
    ensures { result ≡ is_wide_space c }
{
    c == '\u{85}'
        || c == '\u{a0}'
        || c == '\u{1680}'
        || ('\u{2000}' <= c && c <= '\u{200a}')
        || c == '\u{2028}'
        || c == '\u{2029}'
        || c == '\u{202f}'
        || c == '\u{205f}'
        || c == '\u{3000}'
}

/// How many characters of white space the line begins with; a tab counts as one.
pub fn indent_of(line: &[char]) -> usize
    ensures { result ≡ indent_of line.now }
{
    line.iter().take_while(|c| is_space(**c)).count()
}

fn tail_of(line: &[char]) -> usize
    ensures { result ≡ suffix_len is_space line.now }
{
    line.iter().rev().take_while(|c| is_space(**c)).count()
}

/// The line without the white space round it.
pub fn trimmed(line: &[char]) -> &[char]
    ensures { result.now ≡ trimmed line.now }
{
    let line = without_indent(line);
    line.split_at(line.len() - tail_of(line)).0
}

fn without_indent(line: &[char]) -> &[char]
    ensures { result.now ≡ without_indent line.now }
{
    line.split_at(indent_of(line)).1
}
