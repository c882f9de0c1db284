//! The parts of a daemon, made one after the other before any thread is.

use crate::addresses::{Addresses, Opening, addresses_of};
use crate::greeting::greet;
use crate::rules::{log_rules, program_rules, rules_of_socket, times_of};
use crate::streams::Streams;
use crate::told::Told;
use crate::unbegun::Unbegun;
use crate::users::tell_unknown;
use std::alloc::{AllocError, Global};
use std::fs::File;
use std::net::Net;
use std::process::Processes;
use std::rt::{Clock, Files, Runtime};
use std::sync::Wait;
use sv_alarms::{AlarmedSpawner, Alarms};
use sv_disk::DaemonShelf;
use sv_processes::{Living, OsSpawner};
use sv_sockets::{LinkTable, LinksAtWork, SpareThreads};
use sv_standard::{JournalSink, Teller};

/// What accepts the links of clients, and how many of them are at work.
pub struct Clients<R: Net + Files + Wait + Copy + Drop> {
    pub addresses: Addresses<R>,
    pub work: LinksAtWork,
}

impl<R: Net + Files + Wait + Copy + Drop> Drop for Clients<R> {
    fn drop(self) {
        let Self {
            addresses: _,
            work: _,
        } = self;
    }
}

impl<R: Net + Files + Wait + Copy + Drop> Clients<R> {
    /// Each of its parts.
    pub fn into_parts(self) -> (Addresses<R>, LinksAtWork) {
        let Self { addresses, work } = self;
        (addresses, work)
    }
}

/// What starts programs, those that it started, and when there is a reason to look at them.
pub struct Programs<R: Processes + Wait + Drop> {
    pub spawner: AlarmedSpawner<R>,
    pub living: Living,
    pub alarms: Alarms<R>,
}

impl<R: Processes + Wait + Drop> Drop for Programs<R> {
    fn drop(self) {
        let Self {
            spawner: _,
            living: _,
            alarms: _,
        } = self;
    }
}

impl<R: Processes + Wait + Drop> Programs<R> {
    /// Each of its parts.
    pub fn into_parts(self) -> (AlarmedSpawner<R>, Living, Alarms<R>) {
        let Self {
            spawner,
            living,
            alarms,
        } = self;
        (spawner, living, alarms)
    }
}

/// The parts of a daemon.
pub struct Parts<R: Net + Files + Processes + Wait + Copy + Drop> {
    pub clients: Clients<R>,
    pub programs: Programs<R>,
    pub shelf: DaemonShelf<R>,
    pub journal: JournalSink<R>,
}

impl<R: Net + Files + Processes + Wait + Copy + Drop> Drop for Parts<R> {
    fn drop(self) {
        let Self {
            clients: _,
            programs: _,
            shelf: _,
            journal: _,
        } = self;
    }
}

impl<R: Net + Files + Processes + Wait + Copy + Drop> Parts<R> {
    /// Each of them.
    pub fn into_parts(self) -> (Clients<R>, Programs<R>, DaemonShelf<R>, JournalSink<R>) {
        let Self {
            clients,
            programs,
            shelf,
            journal,
        } = self;
        (clients, programs, shelf, journal)
    }
}

/// What a gate is made of, for jobs of this type.
pub struct GateParts<R, J: Drop> {
    pub work: LinksAtWork,
    pub links: LinkTable,
    pub teller: Teller<R>,
    pub spare: SpareThreads<J>,
}

impl<R: Drop, J: Drop> Drop for GateParts<R, J> {
    fn drop(self) {
        let Self {
            work: _,
            links: _,
            teller: _,
            spare: _,
        } = self;
    }
}

impl<R: Drop, J: Drop> GateParts<R, J> {
    /// Each of them.
    pub fn into_parts(self) -> (LinksAtWork, LinkTable, Teller<R>, SpareThreads<J>) {
        let Self {
            work,
            links,
            teller,
            spare,
        } = self;
        (work, links, teller, spare)
    }
}

/// What the gate of a daemon with these streams is made of.
pub fn gate_parts<R: Clock + Wait + Copy + Drop, J: Drop>(
    rt: &R,
    alloc: Global,
    streams: &Streams<R>,
) -> Result<GateParts<R, J>, AllocError> {
    let Ok(links) = LinkTable::new(rt, alloc) else {
        return Err(AllocError);
    };
    Ok(GateParts {
        work: LinksAtWork::new(alloc)?,
        links,
        teller: streams.teller.another()?,
        spare: SpareThreads::new(alloc)?,
    })
}

/// The parts of the daemon of this number that was told so, beside its gate. A launcher applied its own settings already where
/// it was launched.
pub fn parts_of<
    R: Runtime + Files<File = File> + Net + Processes + Wait + AllocGlobal + Copy + Drop,
    J: Drop,
>(
    rt: R,
    told: &Told,
    pid: u32,
    launched: bool,
    streams: &Streams<R>,
    gate: &GateParts<R, J>,
) -> Result<Parts<R>, Unbegun> {
    let alloc = rt.alloc();
    let clients = clients_of(rt, alloc, told, pid, gate)?;
    greet(&rt, alloc, told, pid, launched, &streams.teller)?;
    tell_unknown(&rt, alloc, told, launched, &streams.teller)?;
    let programs = programs_of(rt, alloc, told, launched, streams)?;
    let shelf = shelf_of(rt, alloc, told, pid, streams)?;
    Ok(Parts {
        clients,
        programs,
        shelf,
        journal: streams.journal(alloc)?,
    })
}

/// The addresses of the configuration, opened.
fn clients_of<R: Files<File = File> + Net + Clock + Wait + AllocGlobal + Copy + Drop, J: Drop>(
    rt: R,
    alloc: Global,
    told: &Told,
    pid: u32,
    gate: &GateParts<R, J>,
) -> Result<Clients<R>, Unbegun> {
    let opening = Opening {
        rt,
        alloc,
        pid,
        rules: rules_of_socket(&rt, alloc, told)?,
        links: gate.links.another()?,
        teller: gate.teller.another()?,
    };
    let work = gate.work.another()?;
    Ok(Clients {
        addresses: addresses_of(&opening, told.config.servers.as_slice())?,
        work,
    })
}

/// What starts the programs of the configuration.
fn programs_of<R: Runtime + Files + Net + Processes + Wait + Copy + Drop>(
    rt: R,
    alloc: Global,
    told: &Told,
    launched: bool,
    streams: &Streams<R>,
) -> Result<Programs<R>, AllocError> {
    let living = Living::new(alloc)?;
    let spawner = OsSpawner::new(
        rt,
        alloc,
        program_rules(alloc, told, launched)?,
        living.another()?,
        Some(streams.teller.another()?),
    )?;
    let Ok((bell, alarms)) = Alarms::new(rt, alloc, times_of(alloc, told)?) else {
        return Err(AllocError);
    };
    Ok(Programs {
        spawner: AlarmedSpawner::new(spawner, bell),
        living,
        alarms,
    })
}

/// The shelf of the logs that the configuration names.
fn shelf_of<R: Files + AllocGlobal + Clock + Wait + Copy + Drop>(
    rt: R,
    alloc: Global,
    told: &Told,
    pid: u32,
    streams: &Streams<R>,
) -> Result<DaemonShelf<R>, AllocError> {
    let rules = log_rules(alloc, told, pid, streams)?;
    DaemonShelf::new(rt, alloc, rules, streams.teller.another()?)
}
