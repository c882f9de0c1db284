//! A text that is being written.

use std::alloc::{AllocError, Global};

/// A text that is being written, line by line.
#[derive(Drop)]
pub struct Draft {
    text: String,
    /// The comments and blank lines behind the last line of a value, which may still go on.
    waiting: String,
    /// The comments among them.
    comments: String,
}

impl Draft {
    /// A text without lines.
    pub fn new(alloc: Global) -> Draft {
        Draft {
            text: String::new(alloc),
            waiting: String::new(alloc),
            comments: String::new(alloc),
        }
    }

    /// Keeps a blank line back until what follows is known.
    pub fn blank(&mut self) -> Result<(), AllocError> {
        self.waiting.push('\n')
    }

    /// Keeps a comment back until what follows is known.
    pub fn comment(&mut self, line: &str) -> Result<(), AllocError> {
        put_line(&mut self.waiting, "", line)?;
        put_line(&mut self.comments, "", line)
    }

    /// Writes the comments and blank lines that were kept back.
    pub fn settle(&mut self) -> Result<(), AllocError> {
        self.text.push_str(self.waiting.as_str())?;
        self.comments.clear();
        self.waiting.clear();
        Ok(())
    }

    /// Writes the comments that were kept back, without the blank lines among them, which would end a value.
    pub fn settle_inside(&mut self) -> Result<(), AllocError> {
        self.text.push_str(self.comments.as_str())?;
        self.comments.clear();
        self.waiting.clear();
        Ok(())
    }

    /// Writes a line of these two parts.
    pub fn line(&mut self, head: &str, tail: &str) -> Result<(), AllocError> {
        put_line(&mut self.text, head, tail)
    }

    /// Writes a comment for who has to look at the next line.
    pub fn look(&mut self, says: &str) -> Result<(), AllocError> {
        put_line(&mut self.text, "; sv_check: ", says)
    }

    /// The text that was written.
    pub fn into_text(self) -> String {
        let Draft { text, .. } = self;
        text
    }
}

/// Adds a line of these two parts.
fn put_line(text: &mut String, head: &str, tail: &str) -> Result<(), AllocError> {
    text.push_str(head)?;
    text.push_str(tail)?;
    text.push('\n')
}
