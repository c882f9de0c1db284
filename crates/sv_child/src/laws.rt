//! Laws over all lives of a child.
ghost use Rattle.std.specs.Prelude.{List};
ghost use Rattle.sv_base.specs.declared.spec.Spec.{Spec};
ghost use Rattle.sv_child.specs.Diagram.{IsWalk};
ghost use Rattle.sv_child.specs.Life.{Happening, child_after, edges_of};
ghost use Rattle.sv_child.specs.Moves.{new_child};
ghost use Rattle.sv_child.specs.WorkedLives.{ClockGoesBack, FatalWithoutRetries};
ghost use Rattle.sv_child.specs.WorkedLives.{KillAtEachDeadline, StartsStaysUpAndExits};
ghost use Rattle.sv_child.specs.WorkedLives.{StopInBackoff, ThreeRetriesThenFatal, UpAtOnce};

/// Whatever befalls a child, with the clock forward or back, its edges are a walk through the diagram of states:
/// the first leads from STOPPED, each further one from where the one before ended, the last to where it is.
pub fn each_life_is_a_walk()
    ensures { (spec : Spec) (happenings : List Happening)
        → IsWalk new_child.state (edges_of spec new_child happenings)
        (child_after spec new_child happenings).state }
{}

/// Lives that were worked out by hand go by the child table as they should.
pub fn worked_lives()
    ensures starts_stays_up_and_exits { (spec : Spec) → StartsStaysUpAndExits spec }
    ensures fatal_without_retries { (spec : Spec) → FatalWithoutRetries spec }
    ensures three_retries_then_fatal { (spec : Spec) → ThreeRetriesThenFatal spec }
    ensures up_at_once { (spec : Spec) → UpAtOnce spec }
    ensures clock_goes_back { (spec : Spec) → ClockGoesBack spec }
    ensures stop_in_backoff { (spec : Spec) → StopInBackoff spec }
    ensures kill_at_each_deadline { (spec : Spec) → KillAtEachDeadline spec }
{}
