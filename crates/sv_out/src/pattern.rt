//! Whether a file's name matches a pattern with `*` and `?`.
ghost use Rattle.std.specs.Prelude.{◌≡◌, ◌≤◌, drop, length};
ghost use Rattle.std.specs.List.{prefix_len};
ghost use Rattle.sv_out.specs.Patterns.{matches, is_further};

/// Whether the name matches the pattern, in which `*` is any run without `/` and `?` one character but `/`. Both are
/// UTF-8. A pattern with many `*` may take long.
#[tactic(auto, using(crate::proofs::Runs::behind_empty))]
pub fn matches(pattern: &[u8], name: &[u8]) -> bool
    ensures { result ≡ matches pattern.now name.now }
{
    let Some((wanted, rest)) = pattern.split_first() else {
        return name.is_empty();
    };
    if *wanted == b'*' {
        let mut tail = name;
        while !matches(rest, tail) {
            match tail {
                [byte, after @ ..] if *byte != b'/' => tail = after,
                _ => return false,
            }
        }
        return true;
    }
    match name {
        [byte, after @ ..] if *wanted == b'?' => {
            *byte != b'/' && matches(rest, behind_character(after))
        }
        [byte, after @ ..] => byte == wanted && matches(rest, after),
        [] => false,
    }
}

/// What follows the further bytes of a character.
fn behind_character(bytes: &[u8]) -> &[u8]
    ensures { result.now ≡ drop (prefix_len is_further bytes.now) bytes.now }
{
    let count = further_count(bytes);
    &bytes[count..]
}

/// How many further bytes of a character begin these bytes.
fn further_count(bytes: &[u8]) -> usize
    ensures value { result ≡ prefix_len is_further bytes.now }
    ensures bound { result ≤ length bytes.now }
{
    bytes.iter().take_while(|byte| is_further(**byte)).count()
}

/// Whether this byte is a further byte of a character of several bytes.
fn is_further(byte: u8) -> bool
    ensures { result ≡ is_further byte }
{
    128 <= byte && byte < 192
}
