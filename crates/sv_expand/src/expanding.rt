//! A text with expansions, read character by character.
ghost use Rattle.std.specs.Prelude.{◌≡◌, ◌≤◌, ◌-◌, Ok, OnOk, IfOk, IfErr, string_bytes};
ghost use Rattle.sv_expand.specs.Values.{filled, to_the_right};
ghost use Rattle.sv_expand.specs.Expansion.{is_width, text_told, number_told};
ghost use Rattle.sv_expand.specs.declared.fault.ExpandFault.TheVariants.{OutOfMemory};

use crate::fault::ExpandFault;
use crate::names::{Names, number_of};
use std::alloc::{AllocError, Global};
use std::marker::Model;
use std::mem;
use sv_base::text::Text;

/// Where in a text the next character stands.
#[derive(Clone, Copy)]
pub enum ExpansionProgress {
    /// Outside forms, or at an end.
    Plain,
    /// After a percent sign.
    Percent,
    /// In a name.
    Name,
    /// After a name.
    AfterName,
    /// After a name and a zero.
    Zero,
    /// After a name and a number of places, which are filled with spaces or zeros.
    Wide(char, usize),
}

/// What was read of a text so far.
#[derive(Drop)]
pub struct Expander {
    told: String,
    name: String,
    /// Where the form begins that is going on.
    start: usize,
    place: ExpansionProgress,
}

impl Model for Expander {
    ghost use Rattle.std.specs.Prelude.{string_bytes};
    ghost use Rattle.sv_expand.specs.Expansion.{Reached};

    ghost Value = { Reached };

    ghost view = { λ r. record {
      told = string_bytes r.told;
      name = string_bytes r.name;
      start = r.start;
      place = r.place;
    } };
}

impl Expander {
    ghost use Rattle.sv_expand.specs.Expansion.{Reached, at_start, after, moved, begun};
    ghost use Rattle.sv_expand.specs.Expansion.{behind_percent, behind_name, with_char, with_name};
    ghost use Rattle.sv_expand.specs.Expansion.{with_value, closed, IsFault};

    /// Before the first character.
    pub fn new(alloc: Global) -> Expander
        ensures { result ≡ at_start }
    {
        Expander {
            told: String::new(alloc),
            name: String::new(alloc),
            start: 0,
            place: ExpansionProgress::Plain,
        }
    }

    /// Reads one more character, which stands at this place. After a fault the reading is of no further
    /// use.
    pub fn read(
        &mut self,
        alloc: Global,
        names: &Names,
        at: usize,
        c: char,
    ) -> Result<(), ExpandFault>
        ensures read { OnOk result (after names.now at c self.old ≡ Ok self.new) }
        ensures fault { IfErr result (λ fault. IsFault fault (after names.now at c self.old)) }
    {
        match self.place {
            ExpansionProgress::Plain if c == '%' => self.begin(alloc, at),
            ExpansionProgress::Plain => self.add(c),
            ExpansionProgress::Percent => self.read_percent(c),
            ExpansionProgress::Name if c == ')' => self.go(ExpansionProgress::AfterName),
            ExpansionProgress::Name => self.add_name(c),
            ExpansionProgress::AfterName => self.read_after_name(alloc, names, c),
            ExpansionProgress::Zero if is_width(c) => self.go(ExpansionProgress::Wide(
                '0',
                width_of(c),
            )),
            ExpansionProgress::Zero => Err(ExpandFault::BadForm(self.start)),
            ExpansionProgress::Wide(filler, width) if c == 'd' => self.add_number(
                alloc, names, filler, width,
            ),
            ExpansionProgress::Wide(..) => Err(ExpandFault::BadForm(self.start)),
        }
    }

    fn go(&mut self, place: ExpansionProgress) -> Result<(), ExpandFault>
        ensures read { OnOk result (self.new ≡ moved place self.old) }
        ensures fault { IfErr result (λ fault. fault ≡ OutOfMemory) }
    {
        self.place = place;
        Ok(())
    }

    fn begin(&mut self, alloc: Global, at: usize) -> Result<(), ExpandFault>
        ensures read { OnOk result (self.new ≡ begun at self.old) }
        ensures fault { IfErr result (λ fault. fault ≡ OutOfMemory) }
    {
        self.name = String::new(alloc);
        self.start = at;
        self.place = ExpansionProgress::Percent;
        Ok(())
    }

    fn add(&mut self, c: char) -> Result<(), ExpandFault>
        ensures read { OnOk result (self.new ≡ with_char c self.old) }
        ensures fault { IfErr result (λ fault. fault ≡ OutOfMemory) }
    {
        self.told.push(c)?;
        self.place = ExpansionProgress::Plain;
        Ok(())
    }

    fn add_name(&mut self, c: char) -> Result<(), ExpandFault>
        ensures read { OnOk result (self.new ≡ with_name c self.old) }
        ensures fault { IfErr result (λ fault. fault ≡ OutOfMemory) }
    {
        self.name.push(c)?;
        Ok(())
    }

    fn read_percent(&mut self, c: char) -> Result<(), ExpandFault>
        ensures read { OnOk result (behind_percent c self.old ≡ Ok self.new) }
        ensures fault { IfErr result (λ fault. IsFault fault (behind_percent c self.old)) }
    {
        match c {
            '%' => self.add('%'),
            '(' => self.go(ExpansionProgress::Name),
            _ => Err(ExpandFault::BadForm(self.start)),
        }
    }

    fn read_after_name(&mut self, alloc: Global, names: &Names, c: char) -> Result<(), ExpandFault>
        ensures read { OnOk result (behind_name names.now c self.old ≡ Ok self.new) }
        ensures fault { IfErr result (λ fault. IsFault fault (behind_name names.now c self.old)) }
    {
        match c {
            's' => self.add_text(alloc, names),
            'd' => self.add_number(alloc, names, ' ', 0),
            '0' => self.go(ExpansionProgress::Zero),
            _ if is_width(c) => self.go(ExpansionProgress::Wide(' ', width_of(c))),
            _ => Err(ExpandFault::BadForm(self.start)),
        }
    }

    fn add_text(&mut self, alloc: Global, names: &Names) -> Result<(), ExpandFault>
        ensures read { let told = text_told names.now self.old.name in
            OnOk result (with_value told self.old ≡ Ok self.new) }
        ensures fault { let told = text_told names.now self.old.name in
            IfErr result (λ fault. IsFault fault (with_value told self.old)) }
    {
        let value = text_told(alloc, names, self.name.as_str())?;
        self.add_value(alloc, value)
    }

    fn add_number(
        &mut self,
        alloc: Global,
        names: &Names,
        filler: char,
        width: usize,
    ) -> Result<(), ExpandFault>
        ensures read { let told = number_told names.now filler width self.old.name in
            OnOk result (with_value told self.old ≡ Ok self.new) }
        ensures fault { let told = number_told names.now filler width self.old.name in
            IfErr result (λ fault. IsFault fault (with_value told self.old)) }
    {
        let value = number_told(alloc, names, filler, width, self.name.as_str())?;
        self.add_value(alloc, value)
    }

    fn add_value(&mut self, alloc: Global, value: Option<Text>) -> Result<(), ExpandFault>
        ensures read { OnOk result (with_value value self.old ≡ Ok self.new) }
        ensures fault { IfErr result (λ fault. IsFault fault (with_value value self.old)) }
    {
        match value {
            Some(value) => {
                self.told.push_str(value.as_str())?;
                self.place = ExpansionProgress::Plain;
                Ok(())
            }
            None => {
                let name = mem::replace(&mut self.name, String::new(alloc));
                Err(ExpandFault::Unknown(Text::from_string(name)))
            }
        }
    }

    /// The expansion, where the text ends here.
    pub fn close(self) -> Result<Text, ExpandFault>
        ensures { result ≡ closed self }
    {
        let Expander {
            told,
            start,
            place,
            ..
        } = self;
        match place {
            ExpansionProgress::Plain => Ok(Text::from_string(told)),
            _ => Err(ExpandFault::BadForm(start)),
        }
    }
}

/// The value of a name.
fn text_told(alloc: Global, names: &Names, name: &str) -> Result<Option<Text>, AllocError>
    ensures { IfOk result (λ value. value ≡ text_told names.now name.now) }
{
    match (
        names.pairs.text_of(name),
        number_of(names.numbers.as_slice(), name),
    ) {
        (Some(text), _) => Ok(Some(Text::from_str(alloc, text)?)),
        (None, Some(number)) => Ok(Some(Text::from_string(format!(in alloc; "{number}")?))),
        (None, None) => Ok(None),
    }
}

/// The number of a name, printed to the right in so many places.
fn number_told(
    alloc: Global,
    names: &Names,
    filler: char,
    width: usize,
    name: &str,
) -> Result<Option<Text>, AllocError>
    ensures { IfOk result (λ value. value ≡ number_told names.now filler width name.now) }
{
    match (
        names.pairs.text_of(name),
        number_of(names.numbers.as_slice(), name),
    ) {
        (None, Some(number)) => Ok(Some(to_the_right(alloc, filler, width, number)?)),
        _ => Ok(None),
    }
}

fn to_the_right(alloc: Global, filler: char, width: usize, number: u64) -> Result<Text, AllocError>
    ensures { IfOk result (λ text. text ≡ to_the_right filler width number) }
{
    let digits = format!(in alloc; "{number}")?;
    let mut text = filled(alloc, width.saturating_sub(digits.as_str().len()), filler)?;
    text.push_str(digits.as_str())?;
    Ok(Text::from_string(text))
}

/// The filler so many times.
fn filled(alloc: Global, count: usize, filler: char) -> Result<String, AllocError>
    ensures { IfOk result (λ text. string_bytes text ≡ filled count filler) }
{
    let mut text = String::new(alloc);
    let mut missing = count;
    while missing > 0 {
        text.push(filler)?;
        missing -= 1;
    }
    Ok(text)
}

/// Whether the character is a number of places, from 1 to 9.
fn is_width(c: char) -> bool
    ensures { result ≡ is_width c }
{
    matches!(c, '1'..='9')
}

fn width_of(c: char) -> usize
    requires { 49 ≤ c }
    ensures { result ≡ c - 48 }
{
    c as usize - 48
}
