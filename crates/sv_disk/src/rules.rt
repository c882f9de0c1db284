//! What the daemon's shelf is told of the logs.

use std::collections::BTreeSet;
use sv_base::Text;
use sv_standard::Outlet;

/// What the daemon's shelf is told of the logs.
pub struct LogRules<R> {
    /// The main log's file.
    pub main: Option<Text>,
    /// The files whose names the daemon made up (`AUTO`): for their owner alone, and never behind a link.
    pub automatic: BTreeSet<Text>,
    /// The mask of the rights of files that are made; none is that of the process.
    pub umask: Option<u32>,
    /// The daemon's number: `/proc/NUMBER/fd/1` is its standard output too.
    pub pid: u32,
    /// Standard output, for logs of that name.
    pub out: Outlet<R>,
    /// Standard error, for logs of that name.
    pub err: Outlet<R>,
    /// Where the pieces of the main log go as well, as they do in the foreground; unused where the main log is itself one
    /// of the daemon's own streams.
    pub echo: Option<Outlet<R>>,
    /// Whether the journal is on standard output: logs of that name go to standard error then.
    pub journal_on_out: bool,
}

impl<R: Drop> Drop for LogRules<R> {
    fn drop(self) {
        let Self {
            main: _,
            automatic: _,
            umask: _,
            pid: _,
            out: _,
            err: _,
            echo: _,
            journal_on_out: _,
        } = self;
    }
}

impl<R> LogRules<R> {
    /// Whether a name is that of the main log.
    pub(crate) fn is_main(&self, name: &str) -> bool {
        self.main.as_ref().is_some_and(|main| main.as_str() == name)
    }

    /// Whether the daemon made up this name.
    pub(crate) fn is_automatic(&self, name: &str) -> bool {
        self.automatic.iter().any(|text| text.as_str() == name)
    }
}
