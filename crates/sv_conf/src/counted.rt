//! The processes of a section in a group, counted.

use sv_base::spec::GroupSpec;

/// The processes of a section in a group, judged and counted.
#[derive(Drop)]
pub struct Counted {
    /// The place of the section that makes the group.
    pub place: usize,
    /// The group; it has its processes only where one of their names stands twice.
    pub group: GroupSpec,
    /// How many processes there are.
    pub count: usize,
    /// Whether they want a number in their name.
    pub needs: bool,
}
