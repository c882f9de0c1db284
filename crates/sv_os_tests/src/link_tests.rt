//! Real addresses: what their links are.

use crate::checks::check;
use crate::listen_tests::{is_taken, opening};
use crate::os_tests::{new_directory, path_in, socket_at};
use std::alloc::Global;
use std::fs;
use std::fs::File;
use std::net::{Ipv4Addr, Net, OpenListener, SocketAddr, TcpListener};
use std::os::unix::net::UnixListener;
use std::process::Abort;
use std::rt::{Clock, Files};
use std::sync::Wait;
use std::time::Duration;
use sv_base::{Place, Text};
use sv_out::{Dial, Link};
use sv_outside::Listen;
use sv_sockets::{AcceptedLink, OsDial, OsListen, OwnSocket};

/// A read and a write of a link may wait for a minute.
fn has_limits<R: Net + Wait + Clock + Drop>(rt: &impl Abort, link: &AcceptedLink<R>) {
    let limit = Some(Duration::from_secs(60));
    check(rt, matches!(link.read_limit(), Ok(read) if read == limit));
    check(
        rt,
        matches!(link.write_limit(), Ok(write) if write == limit),
    );
}

/// Four bytes pass from one end to the other.
fn passes<F: Link, T: Link>(rt: &impl Abort, from: &mut F, to: &mut T, bytes: &[u8]) {
    let mut piece = [0u8; 8];
    check(rt, matches!(from.write(bytes), Ok(4)));
    check(rt, matches!(to.read(&mut piece), Ok(4)));
    check(rt, &piece[..4] == bytes);
}

/// A link and its peer pass bytes both ways.
fn pass_both<L: Link, K: Link>(rt: &impl Abort, link: &mut L, peer: &mut K) {
    passes(rt, peer, link, b"ping".as_slice());
    passes(rt, link, peer, b"pong".as_slice());
}

/// A link passes bytes both ways, and tells its end.
fn serves<L: Link, K: Link + Drop>(rt: &impl Abort, link: &mut L, peer: K) {
    let mut peer = peer;
    pass_both(rt, link, &mut peer);
    drop(peer);
    let mut piece = [0u8; 8];
    check(rt, matches!(link.read(&mut piece), Ok(0)));
}

/// The next link is accepted, and serves.
fn accepted_serves<R: Abort + Net + Files + Clock + Wait + Copy, K: Link + Drop>(
    rt: &R,
    listen: &mut OsListen<R>,
    peer: K,
) {
    let mut link = listen.accept().expect(rt, "a link");
    has_limits(rt, &link);
    serves(rt, &mut link, peer);
}

/// The link of a client at this place is accepted, and serves.
fn is_served<R: Abort + Net + Files + Clock + Wait + Copy>(
    rt: &R,
    alloc: Global,
    listen: &mut OsListen<R>,
    place: &Place,
) {
    let peer = OsDial::new(rt).connect(alloc, place).expect(rt, "a client");
    accepted_serves(rt, listen, peer);
}

/// What accepts the links of this address, and the socket's file.
fn opened_at<R: Abort + Net + Files<File = File> + Clock + Wait + Copy>(
    rt: R,
    alloc: Global,
    place: &Place,
) -> (OsListen<R>, Option<OwnSocket>) {
    opening(rt, alloc, place)
        .ok()
        .expect(&rt, "the system does it")
}

/// A port of this machine that is free again, after it was taken.
fn taken_port<R: Abort + Net + Files<File = File> + Clock + Wait + Copy>(
    rt: R,
    alloc: Global,
) -> u16 {
    let free = TcpListener::bind(&rt, SocketAddr::from((Ipv4Addr::LOCALHOST, 0))).expect(
        &rt,
        "the system does it",
    );
    let port = free.local_addr().expect(&rt, "the system does it").port();
    is_taken(rt, alloc, &Place::Inet(Text::fixed("localhost"), port));
    port
}

/// Links are served at this host's port.
fn serves_host<R: Abort + Net + Files<File = File> + Clock + Wait + Copy>(
    rt: R,
    alloc: Global,
    host: &'static str,
    port: u16,
) {
    let (mut listen, _) = opened_at(rt, alloc, &Place::Inet(Text::fixed(host), port));
    is_served(
        &rt,
        alloc,
        &mut listen,
        &Place::Inet(Text::fixed("127.0.0.1"), port),
    );
}

#[test]
fn links_come_over_tcp(rt: HostRuntime) {
    let port = taken_port(rt, rt.alloc());
    for host in ["localhost", "127.0.0.1", ""] {
        serves_host(rt, rt.alloc(), host, port);
    }
}

/// Links are served at this socket's file, which nobody else opens meanwhile.
fn serves_file<R: Abort + Net + Files<File = File> + Clock + Wait + Copy>(
    rt: R,
    alloc: Global,
    path: &str,
) -> Option<OwnSocket> {
    let (mut listen, socket) = opened_at(rt, alloc, &socket_at(&rt, alloc, path));
    is_taken(rt, alloc, &socket_at(&rt, alloc, path));
    is_served(&rt, alloc, &mut listen, &socket_at(&rt, alloc, path));
    socket
}

/// A socket's file at which nobody accepts is replaced, twice, and is removed.
fn is_replaced<R: Abort + Net + Files<File = File> + Clock + Wait + Copy>(
    rt: R,
    alloc: Global,
    path: &str,
) {
    drop(UnixListener::bind(&rt, path).expect(&rt, "the system does it"));
    drop(serves_file(rt, alloc, path));
    let socket = serves_file(rt, alloc, path);
    socket.expect(&rt, "a socket's file").remove(&rt);
    check(
        &rt,
        !fs::exists(&rt, path).expect(&rt, "the system does it"),
    );
}

/// A socket's file in this directory is replaced.
fn is_replaced_in<R: Abort + Net + Files<File = File> + Clock + Wait + Copy>(
    rt: R,
    alloc: Global,
    directory: &str,
) {
    let path = path_in(&rt, alloc, directory, "socket");
    is_replaced(rt, alloc, path.as_str());
}

#[test]
fn links_come_over_a_socket_file(rt: HostRuntime) {
    let directory = new_directory(&rt, "listen").expect(&rt, "a new directory");
    is_replaced_in(rt, rt.alloc(), directory.as_str());
    fs::remove_dir_all(&rt, directory.as_str()).expect(&rt, "the system does it");
}
