//! The addresses at which the daemon accepts its clients.

use crate::unbegun::Unbegun;
use std::alloc::Global;
use std::fs::File;
use std::net::Net;
use std::rt::{Clock, Files};
use std::sync::Wait;
use sv_base::{Place, ServerSpec, Side};
use sv_sockets::{
    LinkTable, Listener, OpenFault, OsListen, OwnSocket, SocketRules, open_address, opening_line,
};
use sv_standard::Teller;

/// What accepts the links of each side, and the socket's file.
pub struct Addresses<R: Net + Files + Wait + Copy + Drop> {
    pub inet: Option<OsListen<R>>,
    pub unix: Option<OsListen<R>>,
    pub socket: Option<OwnSocket>,
}

impl<R: Net + Files + Wait + Copy + Drop> Drop for Addresses<R> {
    fn drop(self) {
        let Self {
            inet: _,
            unix: _,
            socket: _,
        } = self;
    }
}

impl<R: Net + Files + Wait + Copy + Drop> Addresses<R> {
    /// What accepts the links of the sides inet and unix, and the socket's file.
    pub fn into_parts(self) -> (Option<OsListen<R>>, Option<OsListen<R>>, Option<OwnSocket>) {
        let Self { inet, unix, socket } = self;
        (inet, unix, socket)
    }
}

/// What an address is opened with.
pub struct Opening<R> {
    pub rt: R,
    pub alloc: Global,
    /// The number of this process.
    pub pid: u32,
    pub rules: SocketRules,
    pub links: LinkTable,
    pub teller: Teller<R>,
}

impl<R: Drop> Drop for Opening<R> {
    fn drop(self) {
        let Self {
            rt: _,
            alloc: _,
            pid: _,
            rules: _,
            links: _,
            teller: _,
        } = self;
    }
}

/// Opens the addresses of these servers, at most one of each side. Where one can't be opened none is, and no socket's file is
/// left that this made.
pub fn addresses_of<R: Net + Files<File = File> + Clock + Wait + Copy + Drop>(
    opening: &Opening<R>,
    servers: &[ServerSpec],
) -> Result<Addresses<R>, Unbegun> {
    let mut all = Addresses {
        inet: None,
        unix: None,
        socket: None,
    };
    for server in servers {
        if let Err(unbegun) = add_address(opening, &mut all, &server.place) {
            remove(&opening.rt, all.socket.take());
            return Err(unbegun);
        }
    }
    Ok(all)
}

/// Opens this address and takes it among them.
fn add_address<R: Net + Files<File = File> + Clock + Wait + Copy + Drop>(
    opening: &Opening<R>,
    all: &mut Addresses<R>,
    place: &Place,
) -> Result<(), Unbegun> {
    let opened = open_address(
        &opening.rt,
        opening.alloc,
        place,
        &opening.rules,
        opening.pid,
    );
    match opened {
        Ok((listener, socket)) => {
            if socket.is_some() {
                all.socket = socket;
            }
            add_listener(opening, all, listener)
        }
        Err(OpenFault::OutOfMemory) => Err(Unbegun::OutOfMemory),
        Err(fault) => {
            let reason = fault.reason(opening.alloc)?;
            Err(Unbegun::Refused(opening_line(opening.alloc, place, reason.as_str())?))
        }
    }
}

/// Takes an open address among them.
fn add_listener<R: Net + Files + Clock + Wait + Copy + Drop>(
    opening: &Opening<R>,
    all: &mut Addresses<R>,
    listener: Listener<R::Listener>,
) -> Result<(), Unbegun> {
    let side = listener.side();
    let listen = OsListen::new(
        opening.rt,
        opening.alloc,
        listener,
        opening.links.another()?,
        opening.teller.another()?,
    );
    match side {
        Side::Inet => all.inet = Some(listen),
        Side::Unix => all.unix = Some(listen),
    }
    Ok(())
}

/// Removes the socket's file at the daemon's end, where there is one. What can't be removed stays.
pub fn remove<R: Files>(rt: &R, socket: Option<OwnSocket>) {
    if let Some(socket) = socket {
        socket.remove(rt);
    }
}
