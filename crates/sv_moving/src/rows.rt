//! Keys and values that mean something else here, although both readings read them alike.
ghost use Rattle.std.specs.Prelude.{◌≡◌, nat_eq};
ghost use Rattle.std.specs.List.{list_any, starts_with};
ghost use Rattle.std.specs.Str.{bytes_eq, str_to_ascii_lowercase};

use crate::meaning::Meaning;

/// Which values a row speaks of.
#[derive(Clone, Copy)]
pub enum Test {
    Always,
    /// One of these values.
    Is(&'static [&'static str]),
    /// None of these values.
    IsNot(&'static [&'static str]),
    /// One of these words, in any case of letters.
    Says(&'static [&'static str]),
    /// None of these words, in any case of letters.
    SaysNot(&'static [&'static str]),
    /// A value that begins so.
    Begins(&'static str),
}

/// A row of the table: which keys of which sections, which values, and what is told.
#[derive(Clone, Copy)]
pub struct Row {
    /// How the names of the sections begin.
    pub titles: &'static [&'static str],
    /// The key; the empty text for the section itself.
    pub key: &'static str,
    pub test: Test,
    /// What it means here, and what to write instead.
    pub says: &'static str,
}

impl Row {
    ghost use Rattle.sv_moving.specs.Rows.{applies};

    /// Whether the row speaks of this.
    pub fn applies(&self, meaning: &Meaning) -> bool
        ensures { result ≡ applies self.now meaning.now }
    {
        begins_with_one(meaning.section.as_str(), self.titles)
            && meaning.key.as_str() == self.key
            && passes(self.test, meaning.value.as_str())
    }
}

ghost use Rattle.sv_moving.specs.Rows.{passes};

/// Whether a value passes a test.
fn passes(test: Test, value: &str) -> bool
    ensures { result ≡ passes test value.now }
{
    match test {
        Test::Always => true,
        Test::Is(words) => is_one_of(value, words),
        Test::IsNot(words) => !is_one_of(value, words),
        Test::Says(words) => says_one_of(value, words),
        Test::SaysNot(words) => !says_one_of(value, words),
        Test::Begins(word) => begins_with(value, word),
    }
}

fn is_one_of(value: &str, words: &[&str]) -> bool
    ensures { result ≡ list_any (λ word. bytes_eq word.now value.now) words.now }
{
    words.iter().any(|word| *word == value)
}

fn says_one_of(value: &str, words: &[&str]) -> bool
    ensures { result ≡ list_any (λ word. bytes_eq (str_to_ascii_lowercase value.now)
        (str_to_ascii_lowercase word.now)) words.now }
{
    words.iter().any(|word| value.eq_ignore_ascii_case(word))
}

fn begins_with_one(section: &str, titles: &[&str]) -> bool
    ensures { result ≡ list_any (λ title. starts_with nat_eq section.now title.now) titles.now }
{
    titles.iter().any(|title| begins_with(section, title))
}

fn begins_with(text: &str, word: &str) -> bool
    ensures { result ≡ starts_with nat_eq text.now word.now }
{
    text.as_bytes().starts_with(word.as_bytes())
}
