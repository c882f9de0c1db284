//! The value of a key, line by line.

ghost use Rattle.std.specs.Prelude.{◌≡◌, ◌++◌, ◌∷◌, IfOk, OnOk};

use std::alloc::{AllocError, Global};
use std::marker::Model;
use sv_base::text::Text;

/// A value that may still go on.
#[derive(Drop)]
pub struct Value {
    text: String,
}

impl Model for Value {
    ghost use Rattle.std.specs.Prelude.{List, ℕ, string_bytes};

    ghost Value = { List ℕ };

    ghost view = { λ v. string_bytes v.text };
}

impl Value {
    /// A value of one line.
    pub fn new(alloc: Global, line: &str) -> Result<Value, AllocError>
        ensures { IfOk result (λ value. value ≡ line.now) }
    {
        Ok(Value {
            text: String::from_str(alloc, line)?,
        })
    }

    /// Adds a further line, after a line feed.
    pub fn go_on(&mut self, line: &str) -> Result<(), AllocError>
        ensures { OnOk result (self.new ≡ self.old ++ 10 ∷ line.now) }
    {
        self.text.push('\n')?;
        self.text.push_str(line)?;
        Ok(())
    }

    /// The whole value as a text.
    pub fn into_text(self) -> Text
        ensures { result ≡ self }
    {
        let Value { text } = self;
        Text::from_string(text)
    }
}
