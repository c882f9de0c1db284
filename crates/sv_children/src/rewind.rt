//! Rewinding of all children, in one walk over the groups and their processes.
ghost use Rattle.std.specs.Prelude.{◌≡◌, ◌+◌, ◌≤◌, ◌∷◌, [], length};
ghost use Rattle.sv_base.specs.Limits.{process_limit};
ghost use Rattle.sv_children.specs.Rewound.{all_rewound, rewound_from};
ghost use Rattle.sv_groups.specs.StartOrder.{processes};

use sv_base::moment::Moment;
use sv_base::spec::{GroupSpec, Spec};
use sv_child::child::Child;

/// Rewinds the child of a place, if one is there.
fn rewind_one(spec: &Spec, place: usize, children: &mut [Child], at: Moment)
    ensures { children.new ≡ rewound_from at (spec.now ∷ []) place children.old }
{
    if place < children.len() {
        children[place].rewind(spec, at);
    }
}

/// Rewinds the children of these processes, of which the first one's is in this place.
fn rewind_members(members: &[Spec], first: usize, children: &mut [Child], at: Moment)
    requires { first + length members.now ≤ process_limit }
    ensures { children.new ≡ rewound_from at members.now first children.old }
{
    let mut next = first;
    let mut left = members;
    while let [member, rest @ ..] = left {
        rewind_one(member, next, children, at);
        next += 1;
        left = rest;
    }
}

/// Rewinds each child to this moment.
pub(crate) fn rewind_all(groups: &[GroupSpec], children: &mut [Child], at: Moment)
    requires { length (processes groups.now) ≤ process_limit }
    ensures { children.new ≡ all_rewound at (processes groups.now) children.old }
{
    let mut next = 0;
    let mut left = groups;
    while let [group, rest @ ..] = left {
        let members = group.members.as_slice();
        rewind_members(members, next, children, at);
        next += members.len();
        left = rest;
    }
}
