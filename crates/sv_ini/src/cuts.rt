//! The ways to cut a line: at a byte, at its indent, at a comment.

ghost use Rattle.std.specs.Prelude.{◌≡◌, ◌<◌, ◌+◌, ◌-◌, IfSome, List, ℕ, length, take, drop};
ghost use Rattle.std.specs.Prelude.{slice_index};
ghost use Rattle.std.specs.List.{position, prefix_len, suffix_len};
ghost use Rattle.std.specs.Option.{option_map};
ghost use Rattle.std.specs.Str.{IsUtf8};
ghost use Rattle.sv_ini.specs.Lines.{is_blank, is_feed, is_opening, is_bracket, behind_bracket};
ghost use Rattle.sv_ini.specs.Lines.{is_separator, is_semicolon, is_empty, begins_with};
ghost use Rattle.sv_ini.specs.Lines.{without_indent, without_tail, trimmed, cut_at, without_return};
ghost use Rattle.sv_ini.specs.Lines.{comment_at, value_in};

/// A space or a tab.
pub fn is_blank(byte: u8) -> bool
    ensures { result ≡ is_blank byte }
{
    byte == b' ' || byte == b'\t'
}

/// Whether the text begins with a space or a tab.
pub fn is_indented(text: &str) -> bool
    ensures { result ≡ begins_with is_blank text.now }
{
    match text.as_bytes() {
        [first, ..] => is_blank(*first),
        [] => false,
    }
}

/// The text without the spaces and tabs that it begins with.
pub fn without_indent(text: &str) -> &str
    ensures { result.now ≡ without_indent text.now }
{
    text.split_at(indent(text.as_bytes())).1
}

fn indent(bytes: &[u8]) -> usize
    ensures { result ≡ prefix_len is_blank bytes.now }
{
    bytes.iter().take_while(|byte| is_blank(**byte)).count()
}

/// The text without the spaces and tabs round it.
pub fn trimmed(text: &str) -> &str
    ensures { result.now ≡ trimmed text.now }
{
    let text = without_indent(text);
    text.split_at(text.len() - tail(text.as_bytes())).0
}

fn tail(bytes: &[u8]) -> usize
    ensures { result ≡ suffix_len is_blank bytes.now }
{
    bytes
        .iter()
        .rev()
        .take_while(|byte| is_blank(**byte))
        .count()
}

/// What stands after an opening bracket, where the text begins with one.
pub fn behind_bracket(text: &str) -> Option<&str>
    ensures { option_map (λ x. x.now) result ≡ behind_bracket text.now }
{
    if begins_with_bracket(text.as_bytes()) {
        Some(text.split_at(1).1)
    } else {
        None
    }
}

fn begins_with_bracket(bytes: &[u8]) -> bool
    ensures { result ≡ begins_with is_opening bytes.now }
{
    match bytes {
        [first, ..] => *first == b'[',
        [] => false,
    }
}

/// What stands before the first line feed, and what after it.
pub fn cut_at_feed(text: &str) -> Option<(&str, &str)>
    ensures cut { option_map (λ x. (x.0.now, x.1.now)) result ≡ cut_at is_feed text.now }
    ensures text { IfSome result (λ x. IsUtf8 x.1.now) }
    ensures shorter { IfSome result (λ x. length x.1.now < length text.now) }
{
    cut_round(text, first_feed(text.as_bytes()))
}

fn first_feed(bytes: &[u8]) -> Option<usize>
    ensures { result ≡ position is_feed bytes.now }
{
    bytes.iter().position(|byte| *byte == b'\n')
}

/// What stands before the first closing bracket, and what after it.
pub fn cut_at_bracket(text: &str) -> Option<(&str, &str)>
    ensures { option_map (λ x. (x.0.now, x.1.now)) result ≡ cut_at is_bracket text.now }
{
    cut_round(text, first_bracket(text.as_bytes()))
}

fn first_bracket(bytes: &[u8]) -> Option<usize>
    ensures { result ≡ position is_bracket bytes.now }
{
    bytes.iter().position(|byte| *byte == b']')
}

/// What stands before the first `=` or `:`, and what after it.
pub fn cut_at_separator(text: &str) -> Option<(&str, &str)>
    ensures { option_map (λ x. (x.0.now, x.1.now)) result ≡ cut_at is_separator text.now }
{
    cut_round(text, first_separator(text.as_bytes()))
}

fn first_separator(bytes: &[u8]) -> Option<usize>
    ensures { result ≡ position is_separator bytes.now }
{
    bytes.iter().position(|byte| *byte == b'=' || *byte == b':')
}

/// What stands before an ASCII byte, and what after it.
fn cut_round(text: &str, at: Option<usize>) -> Option<(&str, &str)>
    requires { IfSome at (λ i. (i < length text.now) × (slice_index text.now i < 128)) }
    ensures cut { option_map (λ x. (x.0.now, x.1.now)) result
        ≡ option_map {U = List ℕ × List ℕ} (λ i. (take i text.now, drop (i + 1) text.now)) at }
    ensures text { IfSome result (λ x. IsUtf8 x.1.now) }
    ensures shorter { IfSome result (λ x. length x.1.now < length text.now) }
{
    match at {
        Some(at) => Some((text.split_at(at).0, text.split_at(at + 1).1)),
        None => None,
    }
}

/// The line without the CR that belongs to its end.
pub fn without_return(line: &str) -> &str
    ensures { result.now ≡ without_return line.now }
{
    match line.as_bytes() {
        [.., last] if *last == b'\r' => line.split_at(line.len() - 1).0,
        _ => line,
    }
}

/// The value in the rest of a line: without a comment, and trimmed.
pub fn value_in(text: &str) -> &str
    ensures { result.now ≡ value_in text.now }
{
    trimmed(text.split_at(comment_at(text.as_bytes())).0)
}

/// Where the comment in a value begins, with a space or tab and a semicolon; without one, the length.
fn comment_at(bytes: &[u8]) -> usize
    ensures { result ≡ comment_at bytes.now }
{
    let mut left = bytes;
    while let [first, rest @ ..] = left {
        if is_blank(*first) && begins_comment(rest) {
            break;
        }
        left = rest;
    }
    bytes.len() - left.len()
}

fn begins_comment(bytes: &[u8]) -> bool
    ensures { result ≡ begins_with is_semicolon bytes.now }
{
    match bytes {
        [first, ..] => *first == b';',
        [] => false,
    }
}
