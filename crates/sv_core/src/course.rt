//! The plan and the mood of the daemon.
use sv_base::state::Mood;

/// What the daemon is about: its mood, what it said of itself, and how far its groups are stopped.
#[derive(Clone, Copy)]
pub struct Course {
    pub mood: Mood,
    /// Whether it said that it runs.
    pub announced: bool,
    /// The first so many groups of the start order are still to be stopped when the daemon ends.
    pub left: usize,
    /// Whether the last of these was told to stop.
    pub is_told: bool,
    /// Whether the halt was given.
    pub halted: bool,
}
