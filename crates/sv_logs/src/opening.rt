//! The log files of a configuration, which have known sizes from the beginning on.
ghost use Rattle.std.specs.Prelude.{◌≡◌, OnOk};
ghost use Rattle.sv_logs.specs.Opening.{begins, groups_begin, opening_sizes, processes_begin};

use crate::known::KnownSizes;
use std::alloc::AllocError;
use sv_base::config::Config;
use sv_base::spec::{GroupSpec, LogSpec, Spec};

/// Each log file of the configuration begins.
pub(crate) fn begin_all(config: &Config, sizes: &mut KnownSizes) -> Result<(), AllocError>
    ensures { OnOk result (sizes.new ≡ opening_sizes config.now sizes.old) }
{
    begin(&config.main, sizes)?;
    begin_groups(config.groups.as_slice(), sizes)?;
    Ok(())
}

/// The logs of groups.
fn begin_groups(groups: &[GroupSpec], sizes: &mut KnownSizes) -> Result<(), AllocError>
    ensures { OnOk result (sizes.new ≡ groups_begin groups.now sizes.old) }
{
    for group in groups {
        begin_processes(group.members.as_slice(), sizes)?;
    }
    Ok(())
}

/// Those of processes.
fn begin_processes(specs: &[Spec], sizes: &mut KnownSizes) -> Result<(), AllocError>
    ensures { OnOk result (sizes.new ≡ processes_begin specs.now sizes.old) }
{
    for spec in specs {
        begin(&spec.stdout, sizes)?;
        begin(&spec.stderr, sizes)?;
    }
    Ok(())
}

/// A log's file begins, if it has one.
fn begin(log: &LogSpec, sizes: &mut KnownSizes) -> Result<(), AllocError>
    ensures { OnOk result (sizes.new ≡ begins log.now sizes.old) }
{
    match &log.file {
        None => Ok(()),
        Some(file) => {
            sizes.begin(file)?;
            Ok(())
        }
    }
}
