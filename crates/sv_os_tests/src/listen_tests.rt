//! Real addresses: which of them are opened.

use crate::checks::{check, same};
use crate::os_tests::{new_directory, path_in, socket_at};
use std::alloc::Global;
use std::fs;
use std::fs::File;
use std::net::Net;
use std::os::unix::fs::symlink;
use std::os::unix::net::UnixListener;
use std::process::Abort;
use std::rt::{Clock, Files};
use std::sync::Wait;
use sv_base::{Place, Text};
use sv_sockets::{
    LinkTable, OpenFault, OsListen, OwnSocket, SocketRules, open_address, opening_line,
};
use sv_standard::{AfterFailure, Outlet, Teller};

/// Makes a file.
fn make_plain<R: Abort + Files>(rt: &R, alloc: Global, directory: &str) {
    let plain = path_in(rt, alloc, directory, "plain");
    fs::write(rt, plain.as_str(), b"kept".as_slice()).expect(rt, "the system does it");
}

/// Makes a folder.
fn make_folder<R: Abort + Files>(rt: &R, alloc: Global, directory: &str) {
    let folder = path_in(rt, alloc, directory, "folder");
    fs::create_dir(rt, folder.as_str()).expect(rt, "the system does it");
}

/// Makes a symbolic link to the file of a socket at which nobody accepts.
fn make_link<R: Abort + Files + Net>(rt: &R, named: &str, link: &str) {
    drop(UnixListener::bind(rt, named).expect(rt, "the system does it"));
    symlink(rt, named, link).expect(rt, "the system does it");
}

/// Makes a file, a folder, and a symbolic link to the file of a socket at which nobody accepts.
fn make_others<R: Abort + Files + Net>(rt: &R, alloc: Global, directory: &str) {
    make_plain(rt, alloc, directory);
    make_folder(rt, alloc, directory);
    let named = path_in(rt, alloc, directory, "named");
    let link = path_in(rt, alloc, directory, "link");
    make_link(rt, named.as_str(), link.as_str());
}

/// No address is opened at this path.
fn is_no_socket<R: Abort + Net + Files<File = File> + Clock + Wait + Copy>(
    rt: R,
    alloc: Global,
    path: &str,
) {
    is_taken(rt, alloc, &socket_at(&rt, alloc, path));
}

/// No address is opened at this name.
fn is_no_address<R: Abort + Net + Files<File = File> + Clock + Wait + Copy>(
    rt: R,
    alloc: Global,
    directory: &str,
    name: &str,
) {
    let path = path_in(&rt, alloc, directory, name);
    is_no_socket(rt, alloc, path.as_str());
}

/// What tells what was lost, to nobody.
pub(crate) fn teller_of<R: Abort + Wait + Copy>(rt: R, alloc: Global) -> Teller<R> {
    let (outlet, end) = Outlet::new(rt, alloc, 4_096, AfterFailure::GoesOn).expect(
        &rt,
        "ample memory",
    );
    drop(end);
    Teller::new(outlet)
}

/// No link is open yet.
pub(crate) fn table_of<R: Abort + Clock>(rt: &R, alloc: Global) -> LinkTable {
    LinkTable::new(rt, alloc).expect(rt, "ample memory")
}

/// What accepts the links of this address, and the socket's file; why it couldn't be opened else.
pub(crate) fn opening<R: Abort + Net + Files<File = File> + Clock + Wait + Copy>(
    rt: R,
    alloc: Global,
    place: &Place,
) -> Result<(OsListen<R>, Option<OwnSocket>), OpenFault> {
    let (listener, socket) = open_address(&rt, alloc, place, &SocketRules::private(), 7)?;
    let links = table_of(&rt, alloc);
    let teller = teller_of(rt, alloc);
    Ok((OsListen::new(rt, alloc, listener, links, teller), socket))
}

/// Something else has this address.
pub(crate) fn is_taken<R: Abort + Net + Files<File = File> + Clock + Wait + Copy>(
    rt: R,
    alloc: Global,
    place: &Place,
) {
    let opened = opening(rt, alloc, place);
    check(
        &rt,
        matches!(&opened, Err(OpenFault::InUse | OpenFault::NoSocket)),
    );
}

/// The file of this path holds what was written to it.
fn holds_kept<R: Abort + Files + AllocGlobal>(rt: &R, path: &str) {
    let kept = fs::read(rt, path).expect(rt, "the system does it");
    check(rt, kept.as_slice() == b"kept".as_slice());
}

/// The file is as it was made.
fn is_kept<R: Abort + Files + AllocGlobal>(rt: &R, directory: &str) {
    let plain = path_in(rt, rt.alloc(), directory, "plain");
    holds_kept(rt, plain.as_str());
}

/// The folder is as it was made.
fn is_folder<R: Abort + Files + AllocGlobal>(rt: &R, directory: &str) {
    let folder = path_in(rt, rt.alloc(), directory, "folder");
    let found = fs::metadata(rt, folder.as_str()).expect(rt, "the system does it");
    check(rt, found.is_dir());
}

/// The link is as it was made.
fn is_link<R: Abort + Files + AllocGlobal>(rt: &R, directory: &str) {
    let link = path_in(rt, rt.alloc(), directory, "link");
    let found = fs::symlink_metadata(rt, link.as_str()).expect(rt, "the system does it");
    check(rt, found.file_type().is_symlink());
}

/// The file, the folder and the link are as they were made.
fn are_left_alone<R: Abort + Files + AllocGlobal>(rt: &R, directory: &str) {
    is_kept(rt, directory);
    is_folder(rt, directory);
    is_link(rt, directory);
}

/// Other files in this directory are left alone.
fn others_are_left<R: Abort + Net + Files<File = File> + Clock + Wait + AllocGlobal + Copy>(
    rt: R,
    directory: &str,
) {
    make_others(&rt, rt.alloc(), directory);
    for name in ["plain", "folder", "link"] {
        is_no_address(rt, rt.alloc(), directory, name);
    }
    are_left_alone(&rt, directory);
}

#[test]
fn other_files_are_left_alone(rt: HostRuntime) {
    let directory = new_directory(&rt, "others").expect(&rt, "a new directory");
    others_are_left(rt, directory.as_str());
    fs::remove_dir_all(&rt, directory.as_str()).expect(&rt, "the system does it");
}

/// A closed address is told so.
fn is_told(rt: &impl Abort, alloc: Global, place: &Place, wanted: &str) {
    let line = opening_line(alloc, place, "in use").expect(rt, "ample memory");
    same(rt, line.as_str(), wanted);
}

#[test]
fn a_closed_address_is_told(rt: HostRuntime) {
    is_told(
        &rt,
        rt.alloc(),
        &Place::Inet(Text::fixed(""), 9_001),
        "Error: cannot open http://:9001: in use\n",
    );
    is_told(
        &rt,
        rt.alloc(),
        &Place::Unix(Text::fixed("/run/s.sock")),
        "Error: cannot open unix:///run/s.sock: in use\n",
    );
}
