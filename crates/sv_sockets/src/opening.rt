//! Opening an address.

use crate::refused::OpenFault;
use crate::socket_file::{OwnSocket, SocketRules, open_socket};
use std::alloc::Global;
use std::fs::File;
use std::io;
use std::io::ErrorKind;
use std::net::{Net, SocketAddr, TcpListener, ToSocketAddrs};
use std::os::unix::net::UnixListener;
use std::rt::{Clock, Files};
use sv_base::{Place, Side};

/// An open address.
#[derive(Drop)]
pub enum Listener<L> {
    Inet(L),
    Unix(UnixListener),
}

impl<L> Listener<L> {
    /// Its side.
    pub fn side(&self) -> Side {
        match self {
            Listener::Inet(_) => Side::Inet,
            Listener::Unix(_) => Side::Unix,
        }
    }
}

/// Opens an address for the process of this number, and gives the socket's file where it makes one. An address without a
/// host is each address of this machine.
pub fn open_address<R: Net + Files<File = File> + Clock>(
    rt: &R,
    alloc: Global,
    place: &Place,
    rules: &SocketRules,
    pid: u32,
) -> Result<(Listener<R::Listener>, Option<OwnSocket>), OpenFault> {
    match place {
        Place::Inet(host, port) => {
            let host = match host.as_str() {
                "" => "0.0.0.0",
                host => host,
            };
            let listener = inet_listener_at(rt, host, *port)?;
            Ok((Listener::Inet(listener), None))
        }
        Place::Unix(path) => {
            let (listener, socket) = open_socket(rt, alloc, path.as_str(), rules, pid)?;
            Ok((Listener::Unix(listener), Some(socket)))
        }
    }
}

/// Opens the first address of a host, of version 4 of the protocol where it has such a one.
fn inet_listener_at<R: Net>(rt: &R, host: &str, port: u16) -> io::Result<R::Listener> {
    let mut first: Option<SocketAddr> = None;
    for address in (host, port).to_socket_addrs(rt)? {
        if address.is_ipv4() {
            return TcpListener::bind(rt, address);
        }
        first = first.or(Some(address));
    }
    match first {
        Some(address) => TcpListener::bind(rt, address),
        None => Err(io::Error::from(ErrorKind::NotFound)),
    }
}
