//! What holds of every reading.
ghost use Rattle.std.specs.Prelude.{List, ℕ, Ok};
ghost use Rattle.sv_base.specs.declared.config.Host.{Host};
ghost use Rattle.sv_out.specs.Files.{Files};
ghost use Rattle.sv_supervise.specs.Begin.Beginnings.{BeginsWith};
ghost use Rattle.sv_supervise.specs.Begin.OneReading.{IsOnlyReading};
ghost use Rattle.sv_supervise.specs.declared.begin.beginning.Beginning.{Beginning};

/// Files are read in one way: what a pattern lists, and with it the configuration and the sizes of its log files, is the same
/// whenever it is read, and a configuration that is read is refused by no reading.
pub fn files_are_read_in_one_way()
    ensures { (files : Files) (file : List ℕ) (host : Host) (beginning : Beginning) →
        BeginsWith files file host (Ok beginning) → IsOnlyReading files file host beginning }
{}
