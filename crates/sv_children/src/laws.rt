//! Laws of one child's steps.
ghost use Rattle.sv_children.specs.Reported.{EachStepIsAWalk};
ghost use Rattle.sv_children.specs.Wake.{OnlyTheAwakeMove, RewindingSettles, SettledStay};

/// What the step of one child reports leads each child along the diagram of states, from where it was to where it is:
/// no report of one child can be taken for that of another.
pub fn each_step_is_a_walk()
    ensures { EachStepIsAWalk }
{}

/// As time passes, only a child whose moment to wake has come can take a step: for each other the table says nothing.
pub fn only_the_awake_move()
    ensures { OnlyTheAwakeMove }
{}

/// A settled child is what it was once it is rewound, at that moment and at each later one; and each child is settled once it
/// is rewound.
pub fn settled_stay()
    ensures stay { SettledStay }
    ensures rewinding { RewindingSettles }
{}
