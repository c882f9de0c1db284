//! One call of a command, and how its answer is shown.
use crate::act::Act;
use sv_base::{Items, Text};
use sv_xmlcall::Call;

/// How the value of an answer is shown.
#[derive(Drop)]
pub enum Show {
    /// `true`: the line that it was done.
    Done(Act),
    /// A status array: a line for each row.
    Rows(Act),
    /// The array of all processes: a line for each that the names find, or for all where there are no names.
    Table(Items<Text>),
    /// A text, as it stands.
    Log,
    /// A text, on a line.
    Version,
    /// A number, on a line.
    Number,
    /// The struct of a process: its process number, on a line.
    Pid,
    /// `true`: the line that the daemon shuts down.
    ShutDown,
}

/// How the answer of a call is shown.
#[derive(Drop)]
pub struct Line {
    /// What the call names, as the command gives it.
    pub name: Option<Text>,
    pub show: Show,
    /// Whether a fault counts for the command's status.
    pub counts: bool,
}

/// One call of a command, and how its answer is shown.
#[derive(Drop)]
pub struct Step {
    pub call: Call,
    pub line: Line,
}
