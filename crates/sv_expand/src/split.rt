//! A command, read character by character.
ghost use Rattle.std.specs.Prelude.{◌≡◌, OnOk, IfOk, Some, None, Err};
ghost use Rattle.sv_expand.specs.Words.{parts_words};
ghost use Rattle.sv_expand.specs.declared.fault.WordFault.TheVariants.{OpenQuote};

use crate::fault::WordFault;
use std::alloc::{AllocError, Global};
use std::marker::Model;
use std::mem;
use sv_base::text::Text;

/// Where in a text the next character stands.
#[derive(Clone, Copy)]
pub enum WordsProgress {
    /// Between two words, or at an end.
    Between,
    /// In a word, outside quotes.
    Bare,
    /// After a backslash outside quotes.
    Kept,
    /// In single quotes.
    Single,
    /// In double quotes.
    Double,
    /// After a backslash in double quotes.
    DoubleKept,
}

/// What was read of a command so far.
#[derive(Drop)]
pub struct WordSplitter {
    words: Vec<Text>,
    word: String,
    place: WordsProgress,
}

impl Model for WordSplitter {
    ghost use Rattle.std.specs.Prelude.{string_bytes};
    ghost use Rattle.sv_expand.specs.Words.{Reached};

    ghost Value = { Reached };

    ghost view = { λ r. record {
      words = r.words.items;
      word = string_bytes r.word;
      place = r.place;
    } };
}

impl WordSplitter {
    ghost use Rattle.sv_expand.specs.Words.{Reached, at_start, after, outside, with_char};
    ghost use Rattle.sv_expand.specs.Words.{kept_in_quotes, ended, closed, parts_words};

    /// Before the first character.
    pub fn new(alloc: Global) -> WordSplitter
        ensures { result ≡ at_start }
    {
        WordSplitter {
            words: Vec::new(alloc),
            word: String::new(alloc),
            place: WordsProgress::Between,
        }
    }

    /// Reads one more character. Out of memory leaves a reading that is of no further use.
    pub fn read(&mut self, alloc: Global, c: char) -> Result<(), AllocError>
        ensures { OnOk result (self.new ≡ after c self.old) }
    {
        match self.place {
            WordsProgress::Between if parts_words(c) => Ok(()),
            WordsProgress::Bare if parts_words(c) => self.end_word(alloc),
            WordsProgress::Between | WordsProgress::Bare => self.read_outside(c),
            WordsProgress::Kept => self.add(WordsProgress::Bare, c),
            WordsProgress::Single if c == '\'' => self.go(WordsProgress::Bare),
            WordsProgress::Single => self.add(WordsProgress::Single, c),
            WordsProgress::Double if c == '"' => self.go(WordsProgress::Bare),
            WordsProgress::Double if c == '\\' => self.go(WordsProgress::DoubleKept),
            WordsProgress::Double => self.add(WordsProgress::Double, c),
            WordsProgress::DoubleKept => self.read_kept(c),
        }
    }

    fn go(&mut self, place: WordsProgress) -> Result<(), AllocError>
        ensures { OnOk result (self.new ≡ record self.old { place = place }) }
    {
        self.place = place;
        Ok(())
    }

    fn add(&mut self, place: WordsProgress, c: char) -> Result<(), AllocError>
        ensures { OnOk result (self.new ≡ with_char place c self.old) }
    {
        self.word.push(c)?;
        self.place = place;
        Ok(())
    }

    fn end_word(&mut self, alloc: Global) -> Result<(), AllocError>
        ensures { OnOk result (self.new ≡ ended self.old) }
    {
        let word = mem::replace(&mut self.word, String::new(alloc));
        self.words.push(Text::from_string(word))?;
        self.place = WordsProgress::Between;
        Ok(())
    }

    fn read_outside(&mut self, c: char) -> Result<(), AllocError>
        ensures { OnOk result (self.new ≡ outside c self.old) }
    {
        match c {
            '\'' => self.go(WordsProgress::Single),
            '"' => self.go(WordsProgress::Double),
            '\\' => self.go(WordsProgress::Kept),
            _ => self.add(WordsProgress::Bare, c),
        }
    }

    fn read_kept(&mut self, c: char) -> Result<(), AllocError>
        ensures { OnOk result (self.new ≡ kept_in_quotes c self.old) }
    {
        if c != '"' && c != '\\' {
            self.add(WordsProgress::Double, '\\')?;
        }
        self.add(WordsProgress::Double, c)
    }

    /// The words, where the text ends here; none in quotes or after a backslash.
    pub fn close(self) -> Result<Vec<Text>, WordFault>
        ensures words { IfOk result (λ words. closed self ≡ Some words.items) }
        ensures fault { result ≡ Err OpenQuote → closed self ≡ None }
    {
        let WordSplitter {
            mut words,
            word,
            place,
        } = self;
        match place {
            WordsProgress::Between => Ok(words),
            WordsProgress::Bare => {
                words.push(Text::from_string(word))?;
                Ok(words)
            }
            _ => Err(WordFault::OpenQuote),
        }
    }
}

/// Whether the character parts words: a space, a tab or a line feed.
fn parts_words(c: char) -> bool
    ensures { result ≡ parts_words c }
{
    matches!(c, ' ' | '\t' | '\n')
}
