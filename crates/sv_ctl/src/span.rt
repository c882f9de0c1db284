//! Where the options of the client's words end.
ghost use Rattle.std.specs.Prelude.{◌≡◌, ◌≤◌, false, length};
ghost use Rattle.sv_ctl.specs.Span.{command_in, options_in, options_size, is_option};
ghost use Rattle.sv_ctl.specs.Span.{takes_value};

use sv_base::Text;

/// The words of the options, and after them those of the command. An option is a word that begins with `-`; the word
/// after `-c`, `-s`, `-u` or `-p` belongs to it.
pub fn parted(words: &[Text]) -> (&[Text], &[Text])
    ensures options { result.0.now ≡ options_in words.now }
    ensures command { result.1.now ≡ command_in words.now }
{
    words.split_at(options_size(words))
}

/// How many words belong to the options.
fn options_size(words: &[Text]) -> usize
    ensures size { result ≡ options_size false words.now }
    ensures within { result ≤ length words.now }
{
    let mut size = 0;
    let mut is_value = false;
    let mut left = words;
    while let [word, rest @ ..] = left {
        if !is_value && !is_option(word.as_str().as_bytes()) {
            return size;
        }
        is_value = !is_value && takes_value(word.as_str());
        size += 1;
        left = rest;
    }
    size
}

/// Whether the word begins with a dash.
fn is_option(word: &[u8]) -> bool
    ensures { result ≡ is_option word.now }
{
    match word {
        [first, ..] => *first == b'-',
        [] => false,
    }
}

/// Whether the word after this one is its value.
fn takes_value(word: &str) -> bool
    ensures { result ≡ takes_value word.now }
{
    word == "-c" || word == "-s" || word == "-u" || word == "-p"
}
