//! The value of a key, line by line.
ghost use Rattle.std.specs.Prelude.{◌≡◌, ◌+◌, ◌++◌, IfOk, OnOk, string_bytes, encode_utf8_all};
ghost use Rattle.std.specs.Prelude.{replicate};
ghost use Rattle.sv_moving.specs.Keys.{longer};

use std::alloc::{AllocError, Global};
use std::marker::Model;

/// A value that may still go on.
#[derive(Drop)]
pub struct Value {
    text: String,
}

impl Model for Value {
    ghost use Rattle.std.specs.Prelude.{List, ℕ, string_bytes};

    ghost Value = { List ℕ };

    ghost view = { λ v. string_bytes v.text };
}

impl Value {
    /// A value of one line.
    pub fn new(alloc: Global, line: &[char]) -> Result<Value, AllocError>
        ensures { IfOk result (λ value. value ≡ encode_utf8_all line.now) }
    {
        Ok(Value {
            text: text_of(alloc, line)?,
        })
    }

    /// Adds a further line, behind this many blank ones.
    pub fn go_on(&mut self, blanks: usize, line: &[char]) -> Result<(), AllocError>
        ensures { OnOk result (self.new ≡ longer blanks (encode_utf8_all line.now) self.old) }
    {
        put_feeds(&mut self.text, blanks)?;
        self.text.push('\n')?;
        put(&mut self.text, line)?;
        Ok(())
    }

    /// The value.
    pub fn as_str(&self) -> &str
        ensures { result.now ≡ self.now }
    {
        self.text.as_str()
    }
}

/// These characters as a text.
pub fn text_of(alloc: Global, characters: &[char]) -> Result<String, AllocError>
    ensures { IfOk result (λ text. string_bytes text ≡ encode_utf8_all characters.now) }
{
    let mut text = String::new(alloc);
    put(&mut text, characters)?;
    Ok(text)
}

fn put(text: &mut String, characters: &[char]) -> Result<(), AllocError>
    ensures { OnOk result
        (string_bytes text.new ≡ string_bytes text.old ++ encode_utf8_all characters.now) }
{
    let mut left = characters;
    while let [c, rest @ ..] = left {
        text.push(*c)?;
        left = rest;
    }
    Ok(())
}

/// Adds this many line feeds.
fn put_feeds(text: &mut String, count: usize) -> Result<(), AllocError>
    ensures { OnOk result (string_bytes text.new ≡ string_bytes text.old ++ replicate count 10) }
{
    for feed in 0..count {
        let _feed = feed;
        text.push('\n')?;
    }
    Ok(())
}
