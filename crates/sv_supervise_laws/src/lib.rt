//! A law over the daemon's journal: it says what the daemon did, and a replay of it does the same.
#![tactic(auto)]

ghost use Rattle.std.specs.Prelude.{◌≡◌, ℕ, List, [], Some, true};
ghost use Rattle.std.specs.Io.KnownBytes.{Appends};
ghost use Rattle.sv_base.specs.declared.config.Host.{Host};
ghost use Rattle.sv_supervise.specs.MainLoop.Course.{Whole};
ghost use Rattle.sv_supervise.specs.MainLoop.Telling.{Told};
ghost use Rattle.sv_out.specs.Files.{Files};
ghost use Rattle.sv_out.specs.declared.input.Input.{Input};
ghost use Rattle.sv_supervise.specs.Journal.Lines.{texts_of};
ghost use Rattle.sv_supervise.specs.declared.journal.lines.JournalLines.TheVariants.{Kept};
ghost use Rattle.sv_supervise.specs.Machines.{core_rules};
ghost use Rattle.sv_supervise.specs.Supervising.{Reads, header_of, machine_of};
ghost use Rattle.sv_supervise_laws.specs.Rerun.{IsRerun, IsWithinLimits, daemon_lines, names_rise};

/// A law: where a daemon keeps a journal that was empty, and worked off these inputs, the journal's inputs are these, and a
/// replay that is done with it writes the lines of the orders that were handed over. The lines have to be within the limits of a
/// journal, and the names of the host's environment have to rise.
pub fn a_daemons_journal_is_rerun()
    ensures { (words : List (List ℕ)) (host : Host) (files : Files) (reads : Reads words host files)
        (old mid new : Told) (inputs : List Input)
        → old.journal ≡ Some []
        → Appends old.journal mid.journal (header_of Kept reads.beginning host)
        → Whole core_rules (texts_of Kept) (machine_of reads.beginning host) mid new inputs
        → names_rise host.environment ≡ true
        → IsWithinLimits (daemon_lines reads.beginning host inputs)
        → IsRerun new.journal reads.beginning host inputs }
{}
