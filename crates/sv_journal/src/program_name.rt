//! Names of programs.
ghost use Rattle.std.specs.Prelude.{◌≡◌, ◌↔◌, ◌<◌, true, length, chars, IsSome, IfSome, IsTrue};
ghost use Rattle.std.specs.List.{list_all};
ghost use Rattle.sv_journal.specs.ProgramNames.{IsName};
ghost use Rattle.sv_letters.specs.Letters.{is_name_letter};

use std::marker::Model;
use sv_base::text::Text;

/// The name of a program: a text that isn't empty, without space, control character, colon, slash and asterisk.
#[derive(Drop)]
pub struct ProgramName {
    text: Text,
}

impl Model for ProgramName {
    ghost use Rattle.std.specs.Prelude.{List, ℕ};
    ghost use Rattle.sv_journal.specs.ProgramNames.{IsName};

    ghost Value = { List ℕ };

    ghost view = { λ n. n.text };

    ghost invariant = { λ n. IsName n.text };
}

impl ProgramName {
    /// This name, or `None` exactly where the text isn't one.
    pub fn new(text: Text) -> Option<ProgramName>
        ensures valid { IsSome result ↔ IsName text }
        ensures value { IfSome result (λ name. name ≡ text) }
    {
        if is_name(text.as_str()) {
            Some(ProgramName { text })
        } else {
            None
        }
    }

    /// The name as a text.
    pub fn as_text(&self) -> &Text
        ensures value { result.now ≡ self.now }
        ensures name { IsName result.now }
    {
        &self.text
    }

    /// Gives the name as a text.
    pub fn into_text(self) -> Text
        ensures { result ≡ self }
    {
        let ProgramName { text } = self;
        text
    }
}

fn is_name(text: &str) -> bool
    ensures { IsTrue result ↔ IsName text.now }
{
    !text.is_empty() && have_letters(text)
}

/// Whether each character is one of a name.
fn have_letters(text: &str) -> bool
    ensures { result ≡ list_all is_name_letter (chars text.now) }
{
    text.chars().all(|letter| is_letter(letter))
}

/// Whether a name may have this character.
fn is_letter(letter: char) -> bool
    ensures { result ≡ is_name_letter letter }
{
    let number = letter as u32;
    32 < number
        && !(127 <= number && number <= 159)
        && letter != ':'
        && letter != '/'
        && letter != '*'
}
