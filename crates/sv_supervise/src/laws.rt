//! Laws of what `supervise` speaks of.
ghost use Rattle.std.specs.Prelude.{◌≡◌, ◌<◌, ◌^◌, List, ℕ, Option, Some, length};
ghost use Rattle.sv_base.specs.declared.config.Host.{Host};
ghost use Rattle.sv_core.specs.MachineState.{Model};
ghost use Rattle.sv_out.specs.Files.{Files};
ghost use Rattle.sv_out.specs.declared.input.Input.{Input};
ghost use Rattle.sv_supervise.specs.Completeness.{EndsInHalt, IsAccepted, LeadsToHalt};
ghost use Rattle.sv_supervise.specs.SameDeeds.{GiveTheSame};
ghost use Rattle.sv_supervise.specs.Supervising.{Reads, machine_of};

/// The deeds of inputs that `supervise` speaks of are those that the laws of the machine speak of, and so is the state after
/// them. So what the laws say of the deeds of all lists of inputs holds of the orders that the daemon hands over.
pub fn deeds_are_the_machine_s()
    ensures { (m : Model) (inputs : List Input) → GiveTheSame m inputs }
{}

/// Words and files that say what the daemon begins with are accepted; and inputs that bring the halt of the machine that begins
/// so lead to it, in whatever way the files are read.
pub fn what_is_read_is_accepted()
    ensures accepted { (words : List (List ℕ)) (host : Host) (files : Files) →
        Reads words host files → IsAccepted words host files }
    ensures leads { (words : List (List ℕ)) (host : Host) (files : Files)
        (reads : Reads words host files) (left : Option (List Input)) (inputs : List Input) →
        left ≡ Some inputs → length inputs < 2 ^ 64
        → EndsInHalt (machine_of reads.beginning host) inputs
        → LeadsToHalt words host files left }
{}
