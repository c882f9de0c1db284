//! The mark by which clauses tell the ends of one board from those of another.

use crate::role::Role;
use crate::rule::Rule;
use crate::shown::Shown;
use left_right::reader::Factory;

/// What each end of one board has in common. The writer keeps it; tickets and readers keep what clauses see of it.
#[derive(Drop)]
pub struct Home {
    pub(crate) from: Factory<Shown, Role, Rule>,
}
