//! What was read of a text so far.
ghost use Rattle.std.specs.Prelude.{◌≡◌, ◌≤◌, ◌<◌, ◌+◌, ◌^◌, [], Some, OnOk, IfOk, encode_utf8_all};
ghost use Rattle.sv_moving.specs.Lines.{kind_of};

use crate::keys::{Entry, Spot};
use crate::kind::{LineKind, kind_of};
use crate::sections::Sections;
use crate::spaces;
use crate::value::{Value, text_of};
use std::alloc::{AllocError, Global};
use sv_base::{Items, Text};

/// What was read of a text so far, behind the texts before it.
#[derive(Drop)]
pub struct Reader {
    pub sections: Sections,
    /// The place of the section that is open in this text.
    pub current: Option<usize>,
    /// The place of the key in hand, whose value may go on.
    pub going: Option<usize>,
    /// How many characters the line of the key in hand is indented by.
    pub depth: usize,
    /// How many blank lines stand behind the last line of the value.
    pub blanks: usize,
    /// The last line that was read.
    pub spot: Spot,
    /// A line before any section, which ends the reading.
    pub headless: Option<usize>,
    /// The other faulty lines.
    pub faulty: Items<usize>,
}

impl Reader {
    ghost use Rattle.std.specs.StrCase.Lower.{str_to_lowercase};
    ghost use Rattle.sv_moving.specs.Reading.{begun, counted, gone_on, opened, set_at, set_in};
    ghost use Rattle.sv_moving.specs.Reading.{key_kept, faulted, keyless, after_kind, after_line};
    ghost use Rattle.sv_moving.specs.Kinds.{seen};

    /// Before the first line of the text of this number.
    pub fn begin(alloc: Global, text: usize, sections: Sections) -> Reader
        ensures { result ≡ begun text sections }
    {
        Reader {
            sections,
            current: None,
            going: None,
            depth: 0,
            blanks: 0,
            spot: Spot { text, line: 0 },
            headless: None,
            faulty: Items::new(alloc),
        }
    }

    /// Reads one more line. After want of memory the reading is of no further use.
    pub fn read(&mut self, alloc: Global, line: &[char]) -> Result<(), AllocError>
        requires lines { self.old.spot.line + 1 < 2 ^ 64 }
        requires blanks { self.old.blanks + 1 < 2 ^ 64 }
        ensures read { OnOk result (self.new ≡ after_line self.old line.now) }
        ensures lines { OnOk result (self.new.spot.line ≤ self.old.spot.line + 1) }
        ensures blanks { OnOk result (self.new.blanks ≤ self.old.blanks + 1) }
    {
        if self.headless.is_some() {
            return Ok(());
        }
        self.spot.line += 1;
        let kind = kind_of(self.going.is_some(), self.depth, line);
        self.take(alloc, kind, spaces::indent_of(line))
    }

    /// Takes in a line of this kind and this indentation.
    fn take(&mut self, alloc: Global, kind: LineKind<'_>, indent: usize) -> Result<(), AllocError>
        requires { self.old.blanks + 1 < 2 ^ 64 }
        ensures read { OnOk result (self.new ≡ after_kind (seen kind.entry) indent self.old) }
        ensures spot { OnOk result (self.new.spot ≡ self.old.spot) }
        ensures blanks { OnOk result (self.new.blanks ≤ self.old.blanks + 1) }
    {
        match kind {
            LineKind::Blank => self.blanks += 1,
            LineKind::Comment => {}
            LineKind::Further(line) => self.go_on(line)?,
            LineKind::Opens(name) => {
                self.depth = indent;
                self.open_section(alloc, name)?;
            }
            LineKind::Sets(key, value) => {
                self.depth = indent;
                self.set(alloc, key, value)?;
            }
            LineKind::Keyless => {
                self.depth = indent;
                self.fault()?;
                self.going = None;
            }
            LineKind::Faulty => {
                self.depth = indent;
                self.fault()?;
            }
        }
        Ok(())
    }

    fn go_on(&mut self, line: &[char]) -> Result<(), AllocError>
        ensures read { OnOk result
            (self.new ≡ gone_on self.old.current self.old.going line.now self.old) }
        ensures spot { OnOk result (self.new.spot ≡ self.old.spot) }
        ensures blanks { OnOk result (self.new.blanks ≤ self.old.blanks) }
    {
        if let (Some(place), Some(key)) = (self.current, self.going) {
            self.sections.go_on(place, key, self.blanks, line)?;
            self.blanks = 0;
        }
        Ok(())
    }

    fn open_section(&mut self, alloc: Global, name: &[char]) -> Result<(), AllocError>
        ensures read { OnOk result (self.new ≡ opened name.now self.old) }
        ensures spot { OnOk result (self.new.spot ≡ self.old.spot) }
        ensures blanks { OnOk result (self.new.blanks ≤ self.old.blanks) }
    {
        let name = Text::from_string(text_of(alloc, name)?);
        self.current = Some(self.sections.add(alloc, name, self.spot)?);
        self.going = None;
        Ok(())
    }

    fn set(&mut self, alloc: Global, key: &[char], value: &[char]) -> Result<(), AllocError>
        ensures read { OnOk result
            (self.new ≡ set_in self.old.current (key_kept key.now) value.now self.old) }
        ensures spot { OnOk result (self.new.spot ≡ self.old.spot) }
        ensures blanks { OnOk result (self.new.blanks ≤ self.old.blanks) }
    {
        match self.current {
            Some(place) => {
                let entry = Entry {
                    key: key_kept(alloc, key)?,
                    value: Value::new(alloc, value)?,
                    spot: self.spot,
                };
                self.going = Some(self.sections.set(place, entry)?);
                self.blanks = 0;
            }
            None => self.headless = Some(self.spot.line),
        }
        Ok(())
    }

    fn fault(&mut self) -> Result<(), AllocError>
        ensures read { OnOk result (self.new ≡ faulted self.old.current self.old) }
        ensures spot { OnOk result (self.new.spot ≡ self.old.spot) }
        ensures blanks { OnOk result (self.new.blanks ≤ self.old.blanks) }
    {
        match self.current {
            Some(_) => self.faulty.push(self.spot.line)?,
            None => self.headless = Some(self.spot.line),
        }
        Ok(())
    }
}

ghost use Rattle.sv_moving.specs.Reading.{key_kept};

/// The key in lower case.
pub fn key_kept(alloc: Global, key: &[char]) -> Result<Text, AllocError>
    ensures { IfOk result (λ text. text ≡ key_kept key.now) }
{
    let key = text_of(alloc, key)?;
    Ok(Text::from_string(key.as_str().to_lowercase(alloc)?))
}
