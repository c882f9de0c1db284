//! The cases of the input: how each is given, and its lines.

use std::alloc::{AllocError, Global};

/// How a case is given.
#[derive(Clone, Copy, PartialEq, Eq)]
pub(crate) enum Form {
    /// A journal, and what its replay gives.
    Journal,
    /// The same, where the journal's last line has no line feed.
    Unended,
    /// The same, where the journal's one piece at moment 0 is cut at each place in turn.
    Cut,
    /// A script, which says as well what is written.
    Script,
}

/// A case, as far as its lines were read.
pub(crate) struct Case {
    pub(crate) form: Form,
    pub(crate) name: String,
    /// The lines of the journal, or of the script.
    pub(crate) lines: String,
    /// The status that is wanted, and the text.
    pub(crate) status: u8,
    pub(crate) wanted: String,
    is_given: bool,
}

impl Drop for Case {
    fn drop(self) {
        let Self {
            form: _,
            name: _,
            lines: _,
            status: _,
            wanted: _,
            is_given: _,
        } = self;
    }
}

/// How the case is given that a line begins, and its name.
pub(crate) fn begun(line: &str) -> Option<(Form, &str)> {
    if line.starts_with("== gives ") {
        return None;
    }
    if let Some(name) = line.strip_prefix("== ") {
        return Some((Form::Journal, name));
    }
    if let Some(name) = line.strip_prefix("=- ") {
        return Some((Form::Unended, name));
    }
    if let Some(name) = line.strip_prefix("=c ") {
        return Some((Form::Cut, name));
    }
    line.strip_prefix("=s ").map(|name| (Form::Script, name))
}

/// A status by its digit.
fn status_of(digit: &str) -> u8 {
    match digit {
        "0" => 0,
        "1" => 1,
        "2" => 2,
        "3" => 3,
        "4" => 4,
        "5" => 5,
        "6" => 6,
        "7" => 7,
        "8" => 8,
        _ => 255,
    }
}

/// Puts a line behind a text.
pub(crate) fn put_line(text: &mut String, line: &str) -> Result<(), AllocError> {
    text.push_str(line)?;
    text.push('\n')
}

impl Case {
    /// A case of which no line was read.
    pub(crate) fn new(alloc: Global, form: Form, name: &str) -> Result<Case, AllocError> {
        Ok(Case {
            form,
            name: String::from_str(alloc, name)?,
            lines: String::new(alloc),
            status: 0,
            wanted: String::new(alloc),
            is_given: false,
        })
    }

    /// Takes one more line.
    pub(crate) fn take(&mut self, line: &str) -> Result<(), AllocError> {
        if let Some(digit) = line.strip_prefix("== gives ") {
            self.is_given = true;
            self.status = status_of(digit);
            Ok(())
        } else if self.is_given {
            put_line(&mut self.wanted, line)
        } else {
            put_line(&mut self.lines, line)
        }
    }
}
