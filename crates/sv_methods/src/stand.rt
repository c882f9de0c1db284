//! What a method may look at.

use sv_base::config::Config;
use sv_base::state::Mood;
use sv_base::text::Text;
use sv_child::child::Child;
use sv_groups::Roster;

/// What a method may look at. All of it is borrowed.
#[derive(Clone, Copy)]
pub struct Stand<'a> {
    pub mood: Mood,
    /// The daemon's own process number.
    pub pid: u32,
    pub config: &'a Config,
    pub roster: &'a Roster,
    /// The children of all processes, in start order.
    pub children: &'a [Child],
    /// Of each child, whether the stdin of its present run was closed by a failed write.
    pub closed: &'a [bool],
    /// The known sizes of log files, in bytes; a file that isn't there has the size 0.
    pub sizes: &'a [(Text, u64)],
}
