//! What the parts of the edge are told of a configuration.

use crate::streams::Streams;
use crate::told::Told;
use crate::unbegun::Unbegun;
use std::alloc::{AllocError, Global};
use std::collections::BTreeSet;
use std::rt::Files;
use std::sync::Wait;
use sv_alarms::Times;
use sv_base::{LogSpec, Spec, Text};
use sv_disk::LogRules;
use sv_processes::ProgramRules;
use sv_settings::mode_of;
use sv_sockets::{OpenFault, SocketRules, socket_rules};

/// Where logs of programs go that have no name of their own, where the configuration doesn't say it.
const USUAL_CHILDLOGDIR: &str = "/tmp";

/// The settings of programs. What the launcher applied to the daemon itself isn't applied again.
pub fn program_rules(
    alloc: Global,
    told: &Told,
    launched: bool,
) -> Result<ProgramRules, AllocError> {
    let mut rules = ProgramRules::new(alloc);
    rules.directory = told.settings.directory.clone()?;
    if !launched {
        rules.user = told.settings.user.clone()?;
        rules.umask = told.settings.umask.clone()?;
    }
    rules.join(joined_programs(alloc, told)?)?;
    Ok(rules)
}

/// The programs whose standard error goes where their standard output goes, by group and name.
fn joined_programs(alloc: Global, told: &Told) -> Result<Vec<(Text, Text)>, AllocError> {
    let mut joined = Vec::new(alloc);
    for group in told.config.groups.as_slice() {
        for spec in group.members.as_slice() {
            if spec.redirect_stderr {
                joined.push((spec.group.clone()?, spec.name.clone()?))?;
            }
        }
    }
    Ok(joined)
}

/// The times of the programs.
pub fn times_of(alloc: Global, told: &Told) -> Result<Vec<Times>, AllocError> {
    let mut times = Vec::new(alloc);
    for group in told.config.groups.as_slice() {
        for spec in group.members.as_slice() {
            times.push(Times {
                group: spec.group.clone()?,
                name: spec.name.clone()?,
                start: u64::from(spec.startsecs.get()) * 1_000,
                stop: u64::from(spec.stopwaitsecs.get()) * 1_000,
                pid: None,
            })?;
        }
    }
    Ok(times)
}

/// The rules of the logs, over these streams.
pub fn log_rules<R: Wait + Copy + Drop>(
    alloc: Global,
    told: &Told,
    pid: u32,
    streams: &Streams<R>,
) -> Result<LogRules<R>, AllocError> {
    let echoes = told.foreground && !told.journal && !told.settings.is_silent();
    let echo = if echoes {
        Some(streams.out.another()?)
    } else {
        None
    };
    Ok(LogRules {
        main: match &told.config.main.file {
            Some(file) => Some(file.clone()?),
            None => None,
        },
        automatic: automatic_logs(alloc, told)?,
        umask: mode_of(told.settings.umask.as_str()),
        pid,
        out: streams.out.another()?,
        err: streams.err.another()?,
        echo,
        journal_on_out: told.journal,
    })
}

/// The directory of logs without a name of their own.
pub fn childlogdir(told: &Told) -> &str {
    match told.settings.childlogdir.as_str() {
        "" => USUAL_CHILDLOGDIR,
        directory => directory,
    }
}

/// The names of logs that the configuration made up.
pub fn automatic_logs(alloc: Global, told: &Told) -> Result<BTreeSet<Text>, AllocError> {
    let mut names = BTreeSet::new(alloc);
    for group in told.config.groups.as_slice() {
        for spec in group.members.as_slice() {
            add_automatic(
                alloc,
                childlogdir(told),
                spec,
                "stdout",
                &spec.stdout,
                &mut names,
            )?;
            add_automatic(
                alloc,
                childlogdir(told),
                spec,
                "stderr",
                &spec.stderr,
                &mut names,
            )?;
        }
    }
    Ok(names)
}

/// Adds the log of a program's stream, where its name was made up.
fn add_automatic(
    alloc: Global,
    directory: &str,
    spec: &Spec,
    stream: &str,
    log: &LogSpec,
    names: &mut BTreeSet<Text>,
) -> Result<(), AllocError> {
    let (group, name) = (spec.group.as_str(), spec.name.as_str());
    let made_up = format!(in alloc; "{directory}/{group}-{name}-{stream}.log")?;
    if let Some(file) = &log.file {
        if file.as_str() == made_up.as_str() {
            names.insert(Text::from_string(made_up))?;
        }
    }
    Ok(())
}

/// What the socket's file is to be. Refused where it is to belong to somebody unknown.
pub fn rules_of_socket<R: Files + AllocGlobal>(
    rt: &R,
    alloc: Global,
    told: &Told,
) -> Result<SocketRules, Unbegun> {
    let (chmod, chown) = (told.settings.chmod.as_str(), told.settings.chown.as_str());
    let mode = if chmod.is_empty() {
        None
    } else {
        mode_of(chmod)
    };
    match socket_rules(rt, mode, chown) {
        Ok(rules) => Ok(rules),
        Err(OpenFault::OutOfMemory) => Err(Unbegun::OutOfMemory),
        Err(fault) => {
            let reason = fault.reason(alloc)?;
            let reason = reason.as_str();
            let line = format!(in alloc; "Error: chown={chown} of [unix_http_server]: {reason}\n")?;
            Err(Unbegun::Refused(Text::from_string(line)))
        }
    }
}
