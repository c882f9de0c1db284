//! The rule of a lane, under which its channel is made.

use crate::role::Role;
use crossbeam_channel::protocol::Protocol;

/// The rule of a lane.
pub struct Rule;

impl<T> Protocol<T, Role<T>> for Rule {
    ghost use Rattle.sv_lane.specs.declared.role.Role.TheVariants.{Opening};
    ghost use Rattle.sv_lane.specs.LaneRule.{LaneRule};

    ghost holds = { LaneRule };

    ghost first = { Opening };
}
