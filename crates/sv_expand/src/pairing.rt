//! A list of pairs, read character by character.
ghost use Rattle.std.specs.Prelude.{◌≡◌, Ok, OnOk, IfOk, IfErr, string_bytes};
ghost use Rattle.sv_expand.specs.Pairs.{is_white, is_name_char};
ghost use Rattle.sv_expand.specs.declared.fault.PairFault.TheVariants.{OutOfMemory};
ghost use Rattle.sv_expand.specs.declared.pairing.PairsProgress.TheVariants.{Before, Name};

use crate::fault::PairFault;
use std::alloc::{AllocError, Global};
use std::marker::Model;
use std::mem;
use sv_base::text::Text;

/// Where in a text the next character stands.
#[derive(Clone, Copy)]
pub enum PairsProgress {
    /// Before a pair, or at an end.
    Before,
    /// In a name.
    Name,
    /// Right after the `=`.
    Equals,
    /// After the `=` and white space.
    BeforeValue,
    /// In a bare value.
    Bare,
    /// In single quotes.
    Single,
    /// In double quotes.
    Double,
    /// After a quoted value.
    Closed,
}

/// What was read of a list of pairs so far.
#[derive(Drop)]
pub struct PairReader {
    pairs: Vec<(Text, Text)>,
    name: String,
    value: String,
    /// White space in a bare value, which may be its end.
    gap: String,
    /// Where the pair begins that is going on.
    start: usize,
    place: PairsProgress,
}

impl Model for PairReader {
    ghost use Rattle.std.specs.Prelude.{string_bytes};
    ghost use Rattle.sv_expand.specs.Pairs.{Reached};

    ghost Value = { Reached };

    ghost view = { λ r. record {
      pairs = r.pairs.items;
      name = string_bytes r.name;
      value = string_bytes r.value;
      gap = string_bytes r.gap;
      start = r.start;
      place = r.place;
    } };
}

impl PairReader {
    ghost use Rattle.sv_expand.specs.Pairs.{Reached, at_start, after, after_at, moved, begun};
    ghost use Rattle.sv_expand.specs.Pairs.{with_name, with_quoted, with_gap, with_bare, ended};
    ghost use Rattle.sv_expand.specs.Pairs.{in_bare, closed, IsFault};

    /// Before the first character.
    pub fn new(alloc: Global) -> PairReader
        ensures { result ≡ at_start }
    {
        PairReader {
            pairs: Vec::new(alloc),
            name: String::new(alloc),
            value: String::new(alloc),
            gap: String::new(alloc),
            start: 0,
            place: PairsProgress::Before,
        }
    }

    /// Reads one more character, which stands at this place. After a fault the reading is of no further
    /// use.
    pub fn read(&mut self, alloc: Global, at: usize, c: char) -> Result<(), PairFault>
        ensures read { OnOk result (after at c self.old ≡ Ok self.new) }
        ensures fault { IfErr result (λ fault. IsFault fault (after at c self.old)) }
    {
        match self.place {
            PairsProgress::Before => self.read_before(alloc, at, c),
            PairsProgress::Name => self.read_name(c),
            PairsProgress::Equals if c == '"' => self.go(PairsProgress::Double),
            PairsProgress::Equals if c == '\'' => self.go(PairsProgress::Single),
            PairsProgress::Equals if is_white(c) => self.go(PairsProgress::BeforeValue),
            PairsProgress::BeforeValue if is_white(c) => Ok(()),
            PairsProgress::Bare if is_white(c) => self.add_gap(c),
            PairsProgress::Equals | PairsProgress::BeforeValue | PairsProgress::Bare =>
                self.read_bare(alloc, c),
            PairsProgress::Single if c == '\'' => self.go(PairsProgress::Closed),
            PairsProgress::Double if c == '"' => self.go(PairsProgress::Closed),
            PairsProgress::Single | PairsProgress::Double => self.add_quoted(c),
            PairsProgress::Closed if is_white(c) => Ok(()),
            PairsProgress::Closed if c == ',' => self.end_pair(alloc),
            PairsProgress::Closed => Err(PairFault::BadPair(self.start)),
        }
    }

    fn go(&mut self, place: PairsProgress) -> Result<(), PairFault>
        ensures read { OnOk result (self.new ≡ moved place self.old) }
        ensures fault { IfErr result (λ fault. fault ≡ OutOfMemory) }
    {
        self.place = place;
        Ok(())
    }

    fn read_before(&mut self, alloc: Global, at: usize, c: char) -> Result<(), PairFault>
        ensures read { OnOk result (after_at Before at c self.old ≡ Ok self.new) }
        ensures fault { IfErr result (λ fault. IsFault fault (after_at Before at c self.old)) }
    {
        if is_white(c) {
            Ok(())
        } else if is_name_char(c) {
            self.begin(alloc, at, c)
        } else {
            Err(PairFault::BadPair(at))
        }
    }

    fn begin(&mut self, alloc: Global, at: usize, c: char) -> Result<(), PairFault>
        ensures read { OnOk result (self.new ≡ begun at c self.old) }
        ensures fault { IfErr result (λ fault. fault ≡ OutOfMemory) }
    {
        self.name = String::new(alloc);
        self.name.push(c)?;
        self.value = String::new(alloc);
        self.gap = String::new(alloc);
        self.start = at;
        self.place = PairsProgress::Name;
        Ok(())
    }

    fn read_name(&mut self, c: char) -> Result<(), PairFault>
        ensures read { OnOk result (after_at Name 0 c self.old ≡ Ok self.new) }
        ensures fault { IfErr result (λ fault. IsFault fault (after_at Name 0 c self.old)) }
    {
        if c == '=' {
            self.go(PairsProgress::Equals)
        } else if is_name_char(c) {
            self.name.push(c)?;
            Ok(())
        } else {
            Err(PairFault::BadPair(self.start))
        }
    }

    fn read_bare(&mut self, alloc: Global, c: char) -> Result<(), PairFault>
        ensures read { OnOk result (in_bare c self.old ≡ Ok self.new) }
        ensures fault { IfErr result (λ fault. IsFault fault (in_bare c self.old)) }
    {
        match c {
            ',' => self.end_pair(alloc),
            '"' | '\'' => Err(PairFault::BadPair(self.start)),
            _ => self.add_bare(alloc, c),
        }
    }

    fn add_quoted(&mut self, c: char) -> Result<(), PairFault>
        ensures read { OnOk result (self.new ≡ with_quoted c self.old) }
        ensures fault { IfErr result (λ fault. fault ≡ OutOfMemory) }
    {
        self.value.push(c)?;
        Ok(())
    }

    fn add_gap(&mut self, c: char) -> Result<(), PairFault>
        ensures read { OnOk result (self.new ≡ with_gap c self.old) }
        ensures fault { IfErr result (λ fault. fault ≡ OutOfMemory) }
    {
        self.gap.push(c)?;
        Ok(())
    }

    fn add_bare(&mut self, alloc: Global, c: char) -> Result<(), PairFault>
        ensures read { OnOk result (self.new ≡ with_bare c self.old) }
        ensures fault { IfErr result (λ fault. fault ≡ OutOfMemory) }
    {
        let gap = mem::replace(&mut self.gap, String::new(alloc));
        self.value.push_str(gap.as_str())?;
        self.value.push(c)?;
        self.place = PairsProgress::Bare;
        Ok(())
    }

    fn end_pair(&mut self, alloc: Global) -> Result<(), PairFault>
        ensures read { OnOk result (self.new ≡ ended self.old) }
        ensures fault { IfErr result (λ fault. fault ≡ OutOfMemory) }
    {
        let name = mem::replace(&mut self.name, String::new(alloc));
        let value = mem::replace(&mut self.value, String::new(alloc));
        self.pairs
            .push((Text::from_string(name), Text::from_string(value)))?;
        self.gap = String::new(alloc);
        self.place = PairsProgress::Before;
        Ok(())
    }

    /// The pairs, where the text ends here.
    pub fn close(self) -> Result<Vec<(Text, Text)>, PairFault>
        ensures read { IfOk result (λ pairs. closed self ≡ Ok pairs.items) }
        ensures fault { IfErr result (λ fault. IsFault fault (closed self)) }
    {
        let PairReader {
            mut pairs,
            name,
            value,
            start,
            place,
            ..
        } = self;
        match place {
            PairsProgress::Before => Ok(pairs),
            PairsProgress::Name | PairsProgress::Single | PairsProgress::Double => Err(
                PairFault::BadPair(start),
            ),
            PairsProgress::Equals
            | PairsProgress::BeforeValue
            | PairsProgress::Bare
            | PairsProgress::Closed => {
                pairs.push((Text::from_string(name), Text::from_string(value)))?;
                Ok(pairs)
            }
        }
    }
}

/// Whether the character is white space round a pair: a space, a tab, CR or a line feed.
fn is_white(c: char) -> bool
    ensures { result ≡ is_white c }
{
    matches!(c, ' ' | '\t' | '\r' | '\n')
}

/// Whether the character may stand in a name: a letter, a digit or `_`.
fn is_name_char(c: char) -> bool
    ensures { result ≡ is_name_char c }
{
    matches!(c, 'a'..='z' | 'A'..='Z' | '0'..='9' | '_')
}
