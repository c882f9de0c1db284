//! What may be a name, and the titles of sections.

ghost use Rattle.std.specs.Prelude.{◌≡◌};
ghost use Rattle.std.specs.List.{list_all};
ghost use Rattle.std.specs.Option.{option_map};
ghost use Rattle.std.specs.Str.{chars};
ghost use Rattle.sv_keys.specs.Cuts.{cut_at, is_colon};
ghost use Rattle.sv_keys.specs.ProgramNames.{is_name, titled};
ghost use Rattle.sv_letters.specs.Letters.{is_name_letter};

fn is_name_letter(c: char) -> bool
    ensures { result ≡ is_name_letter c }
{
    let number = c as u32;
    32 < number && !(127 <= number && number <= 159) && c != ':' && c != '/' && c != '*'
}

fn are_name_letters(text: &str) -> bool
    ensures { result ≡ list_all is_name_letter (chars text.now) }
{
    text.chars().all(|c| is_name_letter(c))
}

/// Whether a text may be the name of a program, a group or a process.
pub fn is_name(text: &str) -> bool
    ensures { result ≡ is_name text.now }
{
    !text.is_empty() && are_name_letters(text)
}

/// What stands after this word and a colon in the title of a section.
pub fn titled<'a>(word: &str, title: &'a str) -> Option<&'a str>
    ensures { option_map (λ x. x.now) result ≡ titled word.now title.now }
{
    match cut_at_colon(title) {
        Some(parts) if parts.0 == word => Some(parts.1),
        _ => None,
    }
}

fn cut_at_colon(text: &str) -> Option<(&str, &str)>
    ensures { option_map (λ x. (x.0.now, x.1.now)) result ≡ cut_at is_colon text.now }
{
    text.split_once(':')
}
