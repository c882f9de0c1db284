//! What the daemon says on standard error when it begins.

use crate::rules::{automatic_logs, childlogdir};
use crate::told::Told;
use std::alloc::{AllocError, Global};
use std::fs;
use std::os::unix::fs::PermissionsExt;
use std::rt::Files;
use std::sync::Wait;
use sv_base::Place;
use sv_standard::Teller;

/// Says which version begins, with which number, configuration and addresses, and what of the configuration has no effect
/// here.
pub fn greet<R: Files + Wait + Copy>(
    rt: &R,
    alloc: Global,
    told: &Told,
    pid: u32,
    launched: bool,
    teller: &Teller<R>,
) -> Result<(), AllocError> {
    let file = told.file.as_str();
    let addresses = addresses_of(alloc, told)?;
    teller.tell(
        alloc,
        format!(in alloc; "supervisord 4: pid {pid}, configuration {file}, {addresses}")?.as_str(),
    );
    if !told.settings.nocleanup.as_str().is_empty() {
        teller.tell(
            alloc,
            "nocleanup: nothing is cleaned up here, so it has no effect",
        );
    }
    if !launched {
        tell_unapplied(alloc, told, teller)?;
    }
    tell_open_directory(rt, alloc, told, teller)
}

/// The addresses at which clients are served.
fn addresses_of(alloc: Global, told: &Told) -> Result<String, AllocError> {
    let mut line = String::new(alloc);
    for server in told.config.servers.as_slice() {
        if !line.is_empty() {
            line.push_str(" and ")?;
        }
        match &server.place {
            Place::Inet(host, port) => {
                let host = host.as_str();
                line.push_str(format!(in alloc; "http://{host}:{port}")?.as_str())?;
            }
            Place::Unix(path) => {
                line.push_str("unix://")?;
                line.push_str(path.as_str())?;
            }
        }
    }
    if line.is_empty() {
        line.push_str("no server")?;
    }
    Ok(line)
}

/// Says which settings only a launcher can apply.
fn tell_unapplied<R: Wait + Copy>(
    alloc: Global,
    told: &Told,
    teller: &Teller<R>,
) -> Result<(), AllocError> {
    let settings = &told.settings;
    let all = [
        ("minfds", &settings.minfds),
        ("minprocs", &settings.minprocs),
        ("pidfile", &settings.pidfile),
    ];
    for (key, value) in all {
        if !value.as_str().is_empty() {
            let value = value.as_str();
            let line = format!(in alloc;
                "{key}={value} has no effect: start the daemon by its launcher"
            )?;
            teller.tell(alloc, line.as_str());
        }
    }
    Ok(())
}

/// Says where logs without a name of their own go to a directory that everybody can write to.
fn tell_open_directory<R: Files + Wait + Copy>(
    rt: &R,
    alloc: Global,
    told: &Told,
    teller: &Teller<R>,
) -> Result<(), AllocError> {
    let directory = childlogdir(told);
    if automatic_logs(alloc, told)?.is_empty() {
        return Ok(());
    }
    if let Ok(found) = fs::metadata(rt, directory) {
        if found.permissions().mode() & 0o002 != 0 {
            let line = format!(in alloc;
                "childlogdir {directory}: everybody can write there; set childlogdir= to a directory of the daemon's own"
            )?;
            teller.tell(alloc, line.as_str());
        }
    }
    Ok(())
}
