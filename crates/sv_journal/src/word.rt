//! The words of a line and its end.
ghost use Rattle.std.specs.Prelude.{◌≡◌, List, ℕ};
ghost use Rattle.sv_journal.specs.Reading.{GivesAlways, word_at, keyword_at, end_at};

use sv_letters::BadByte;

/// Reads this word, and gives what follows it.
pub fn word<'a>(wanted: &[u8], bytes: &'a [u8]) -> Result<&'a [u8], BadByte>
    ensures { GivesAlways (λ rest. rest.now) result (word_at wanted.now bytes.now) }
{
    let mut left = wanted;
    let mut rest = bytes;
    while let [next, more @ ..] = left {
        match rest {
            [byte, after @ ..] if *byte == *next => rest = after,
            _ => return Err(BadByte(rest.len())),
        }
        left = more;
    }
    Ok(rest)
}

/// The line ends here, with this value.
pub fn end<T: Drop>(value: T, bytes: &[u8]) -> Result<T, BadByte>
    ensures { GivesAlways (λ x. x) result (end_at value bytes.now) }
{
    if bytes.is_empty() {
        Ok(value)
    } else {
        Err(BadByte(bytes.len()))
    }
}

/// What a journal spells by one of some fixed words, of which none begins another.
pub trait Spelled: Copy {
    ghost spelling_of: { Self → List ℕ };

    /// The word.
    fn spelling(&self) -> &'static str
        ensures { result.now ≡ spelling_of self.now };
}

/// Reads one of these words. Where none stands here, the bad byte is the first that goes on with none of them.
pub fn keyword<'a, W: Spelled>(words: &[W], bytes: &'a [u8]) -> Result<(W, &'a [u8]), BadByte>
    ensures value { GivesAlways (λ x. (x.0, x.1.now)) result
        (keyword_at W.spelling_of words.now bytes.now) }
{
    let mut least = bytes.len();
    let mut left = words;
    while let [next, more @ ..] = left {
        match word(next.spelling().as_bytes(), bytes) {
            Ok(rest) => return Ok((*next, rest)),
            Err(BadByte(bad)) => least = least.min(bad),
        }
        left = more;
    }
    Err(BadByte(least))
}
