//! What holds for programs whose own section says nothing.

use std::alloc::{AllocError, Global};
use std::collections::BTreeSet;
use sv_base::Text;

/// The daemon's own settings for its programs; each text is empty where there is no such setting.
pub struct ProgramRules {
    /// Who a program without a user runs as, by name or number.
    pub user: Text,
    /// The mask of rights of a program that has none, in octal digits.
    pub umask: Text,
    /// The directory of a program that has none.
    pub directory: Text,
    /// The programs whose standard error goes where their standard output goes, by group and name.
    pub joined: BTreeSet<(Text, Text)>,
}

impl Drop for ProgramRules {
    fn drop(self) {
        let Self {
            user: _,
            umask: _,
            directory: _,
            joined: _,
        } = self;
    }
}

impl ProgramRules {
    /// No settings.
    pub fn new(alloc: Global) -> ProgramRules {
        ProgramRules {
            user: Text::fixed(""),
            umask: Text::fixed(""),
            directory: Text::fixed(""),
            joined: BTreeSet::new(alloc),
        }
    }

    /// Joins the two streams of each of these programs, by group and name.
    pub fn join(&mut self, programs: Vec<(Text, Text)>) -> Result<(), AllocError> {
        for program in programs {
            self.joined.insert(program)?;
        }
        Ok(())
    }

    /// Whether the two streams of this program are one.
    pub(crate) fn joins(&self, group: &Text, name: &Text) -> bool {
        self.joined
            .iter()
            .any(|(of, member)| of == group && member == name)
    }
}

/// The program's own setting, or the daemon's where it has none.
pub(crate) fn own_or<'a>(own: &'a Text, rule: &'a Text) -> &'a str {
    if own.as_str().is_empty() {
        rule.as_str()
    } else {
        own.as_str()
    }
}
