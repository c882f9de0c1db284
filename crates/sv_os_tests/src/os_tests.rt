//! The adapters over real files, sockets and streams: the bytes come through, and errors are counted.

use crate::checks::{check, same};
use std::alloc::Global;
use std::io::{ErrorKind, Read, Write};
use std::net::{Ipv4Addr, Net, OpenListener, SocketAddr, TcpListener};
use std::os::unix::net::UnixListener;
use std::process::Abort;
use std::rt::Files;
use std::{env, fs, io, process};
use sv_base::{Place, Text};
use sv_disk::OsShelf;
use sv_os::{ReadSource, WriteSink};
use sv_out::sink::{Sink, write_all};
use sv_out::source::Source;
use sv_out::{Dial, DialFault, Link, Shelf, ShelfFault};
use sv_sockets::OsDial;

/// The path of a new directory of this process alone.
fn new_path(rt: &HostRuntime, name: &str) -> io::Result<String> {
    let above = env::temp_dir(rt)?;
    let above = above.display();
    let pid = process::id(rt.process());
    Ok(format!(in rt.alloc(); "{above}/sv_os_{name}_{pid}")?)
}

/// A new directory of this process alone.
pub(crate) fn new_directory(rt: &HostRuntime, name: &str) -> io::Result<String> {
    let path = new_path(rt, name)?;
    fs::create_dir(rt, path.as_str())?;
    Ok(path)
}

/// The path of a name in a directory.
pub(crate) fn path_in(rt: &impl Abort, alloc: Global, directory: &str, name: &str) -> String {
    format!(in alloc; "{directory}/{name}").expect(rt, "ample memory")
}

/// The address of a socket's path.
pub(crate) fn socket_at(rt: &impl Abort, alloc: Global, path: &str) -> Place {
    Place::Unix(Text::from_str(alloc, path).expect(rt, "ample memory"))
}

#[test]
fn files_come_through(rt: HostRuntime) {
    let directory = new_directory(&rt, "files").expect(&rt, "a new directory");
    come_through_in(rt, rt.alloc(), directory.as_str());
    fs::remove_dir_all(&rt, directory.as_str()).expect(&rt, "the system does it");
}

/// Files come through in this directory.
fn come_through_in<R: Abort + Files + AllocGlobal + Copy>(rt: R, alloc: Global, directory: &str) {
    let first = path_in(&rt, alloc, directory, "a.log");
    let second = path_in(&rt, alloc, directory, "b.log");
    come_through(
        &rt,
        alloc,
        &mut OsShelf::new(rt),
        directory,
        first.as_str(),
        second.as_str(),
    );
}

/// A file comes through, under its first name and then under its second one.
fn come_through<S: Shelf>(
    rt: &impl Abort,
    alloc: Global,
    shelf: &mut S,
    directory: &str,
    first: &str,
    second: &str,
) {
    make_file(rt, alloc, shelf, first);
    read_file(rt, alloc, shelf, first);
    rename_file(rt, alloc, shelf, first, second);
    list_file(rt, alloc, shelf, directory, second);
    empty_file(rt, alloc, shelf, second);
    read_directory(rt, alloc, shelf, directory);
}

/// Makes a file, which wasn't there, in two steps.
fn make_file<S: Shelf>(rt: &impl Abort, alloc: Global, shelf: &mut S, file: &str) {
    check(
        rt,
        matches!(shelf.read(alloc, file), Err(ShelfFault::Missing)),
    );
    shelf
        .append(alloc, file, b"ab")
        .expect(rt, "a file is made");
    shelf.append(alloc, file, b"cde").expect(rt, "a file grows");
}

/// Reads the file, its size and a part of it.
fn read_file<S: Shelf>(rt: &impl Abort, alloc: Global, shelf: &mut S, file: &str) {
    let bytes = shelf.read(alloc, file).expect(rt, "a file is read");
    check(rt, bytes.as_slice() == b"abcde".as_slice());
    read_part(rt, alloc, shelf, file);
}

/// Reads the size of the file, and a part of it.
fn read_part<S: Shelf>(rt: &impl Abort, alloc: Global, shelf: &mut S, file: &str) {
    let size = shelf.size(alloc, file).expect(rt, "a file has a size");
    check(rt, size == 5);
    is_part(rt, alloc, shelf, file, (1, 3), b"bcd");
    is_part(rt, alloc, shelf, file, (3, 4), b"bcde");
    is_part(rt, alloc, shelf, file, (90, 9), b"abcde");
    is_part(rt, alloc, shelf, file, (90, 0), b"");
}

/// This part of the file, where it begins and how long it is, has these bytes.
fn is_part<S: Shelf>(
    rt: &impl Abort,
    alloc: Global,
    shelf: &mut S,
    file: &str,
    part: (u64, u64),
    bytes: &[u8],
) {
    let found = shelf
        .part(alloc, file, part.0, part.1)
        .expect(rt, "a part is read");
    check(rt, found.as_slice() == bytes);
}

/// Renames a file that isn't there, and then one that is.
fn rename_file<S: Shelf>(rt: &impl Abort, alloc: Global, shelf: &mut S, first: &str, second: &str) {
    shelf
        .shift(alloc, second, first)
        .expect(rt, "a missing file isn't renamed");
    shelf
        .shift(alloc, first, second)
        .expect(rt, "a file is renamed");
}

/// The file is the one of a directory that a pattern matches.
fn list_file<S: Shelf>(rt: &impl Abort, alloc: Global, shelf: &mut S, directory: &str, file: &str) {
    let pattern = path_in(rt, alloc, directory, "?.l*");
    is_listed(rt, alloc, shelf, pattern.as_str(), file);
}

/// The file is the one that a pattern matches.
fn is_listed<S: Shelf>(rt: &impl Abort, alloc: Global, shelf: &mut S, pattern: &str, file: &str) {
    let names = shelf.names(alloc, pattern).expect(rt, "names are listed");
    is_only(rt, names.as_slice(), file);
}

/// The names are this one.
fn is_only(rt: &impl Abort, names: &[Text], file: &str) {
    match names {
        [name] => same(rt, name.as_str(), file),
        _ => assert!(rt; false, "one file is there"),
    }
}

/// Makes the file empty.
fn empty_file<S: Shelf>(rt: &impl Abort, alloc: Global, shelf: &mut S, file: &str) {
    shelf.fresh(alloc, file).expect(rt, "a file is made empty");
    let size = shelf
        .size(alloc, file)
        .expect(rt, "an empty file has a size");
    check(rt, size == 0);
}

/// A directory isn't read as a file.
fn read_directory<S: Shelf>(rt: &impl Abort, alloc: Global, shelf: &mut S, directory: &str) {
    check(
        rt,
        matches!(shelf.read(alloc, directory), Err(ShelfFault::Failed)),
    );
}

/// Hears the answer over a link, and its end.
fn hear_pong<L: Link>(rt: &impl Abort, link: &mut L) {
    let mut buffer = [0u8; 8];
    let count = link.read(&mut buffer).expect(rt, "an answer is read");
    check(rt, &buffer[..count] == b"pong".as_slice());
    let count = link.read(&mut buffer).expect(rt, "the end is read");
    check(rt, count == 0);
}

/// Hears the answer over a link, and gives the link back.
fn hear<D: Dial>(rt: &impl Abort, alloc: Global, dial: &mut D, link: D::Link) {
    let mut link = link;
    hear_pong(rt, &mut link);
    dial.close(alloc, link).expect(rt, "a link is given back");
}

/// Sends over a link.
fn send_ping<L: Link>(rt: &impl Abort, link: &mut L) {
    let count = link.write(b"ping").expect(rt, "a request is written");
    check(rt, count == 4);
}

/// Hears what was sent.
fn hear_ping<P: Read>(rt: &impl Abort, peer: &mut P) {
    let mut buffer = [0u8; 4];
    peer.read_exact(&mut buffer)
        .expect(rt, "the system does it");
    check(rt, buffer.as_slice() == b"ping".as_slice());
}

/// Accepts the peer of a link, which hears what is sent over the link, answers and ends.
fn answer_over_tcp<R: Abort + Net, L: Link>(rt: &R, listener: &R::Listener, link: &mut L) {
    let (mut peer, _) = listener.accept().expect(rt, "the system does it");
    send_ping(rt, link);
    hear_ping(rt, &mut peer);
    peer.write_all(b"pong").expect(rt, "the system does it");
}

/// A link to this place.
fn connected<D: Dial>(rt: &impl Abort, alloc: Global, dial: &mut D, place: &Place) -> D::Link {
    dial.connect(alloc, place).expect(rt, "a connection")
}

/// Connects over TCP, and talks both ways.
fn talk_over_tcp<R: Abort + Net, D: Dial>(
    rt: &R,
    alloc: Global,
    dial: &mut D,
    listener: &R::Listener,
) {
    let address = listener.local_addr().expect(rt, "the system does it");
    let place = Place::Inet(Text::fixed(""), address.port());
    let mut link = connected(rt, alloc, dial, &place);
    answer_over_tcp(rt, listener, &mut link);
    hear(rt, alloc, dial, link);
}

/// Accepts a peer, which answers and ends.
fn answer_over_path(rt: &impl Abort, listener: &UnixListener) {
    let (mut peer, _) = listener.accept().expect(rt, "the system does it");
    peer.write_all(b"pong").expect(rt, "the system does it");
}

/// Connects over a socket's path, and hears the peer.
fn talk_over_path<D: Dial>(
    rt: &impl Abort,
    alloc: Global,
    dial: &mut D,
    listener: &UnixListener,
    place: &Place,
) {
    let link = connected(rt, alloc, dial, place);
    answer_over_path(rt, listener);
    hear(rt, alloc, dial, link);
}

/// Listens over TCP; a client talks both ways.
fn listen_over_tcp<R: Abort + Net, D: Dial>(rt: &R, alloc: Global, dial: &mut D) {
    let listener = TcpListener::bind(rt, SocketAddr::from((Ipv4Addr::LOCALHOST, 0))).expect(
        rt,
        "the system does it",
    );
    talk_over_tcp(rt, alloc, dial, &listener);
}

/// Nobody accepts at this address.
fn is_closed<D: Dial>(rt: &impl Abort, alloc: Global, dial: &mut D, place: &Place) {
    check(
        rt,
        matches!(dial.connect(alloc, place), Err(DialFault::Failed)),
    );
}

/// Listens at this path, where nobody did; a client hears the peer.
fn listen_at<R: Abort + Net + Files, D: Dial>(rt: &R, alloc: Global, dial: &mut D, path: &str) {
    let place = socket_at(rt, alloc, path);
    is_closed(rt, alloc, dial, &place);
    let listener = UnixListener::bind(rt, path).expect(rt, "the system does it");
    talk_over_path(rt, alloc, dial, &listener, &place);
}

/// Listens at a path in this directory; a client hears the peer.
fn listen_in<R: Abort + Net + Files, D: Dial>(
    rt: &R,
    alloc: Global,
    dial: &mut D,
    directory: &str,
) {
    let path = path_in(rt, alloc, directory, "socket");
    listen_at(rt, alloc, dial, path.as_str());
}

#[test]
fn connections_come_through(rt: HostRuntime) {
    let mut dial = OsDial::new(&rt);
    listen_over_tcp(&rt, rt.alloc(), &mut dial);
    let directory = new_directory(&rt, "sockets").expect(&rt, "a new directory");
    listen_in(&rt, rt.alloc(), &mut dial, directory.as_str());
    fs::remove_dir_all(&rt, directory.as_str()).expect(&rt, "the system does it");
}

/// A reader whose first calls are interrupted, so many of them.
#[derive(Drop)]
struct Interrupted(u32);

impl Read for Interrupted {
    fn read(&mut self, into: &mut [u8]) -> io::Result<usize> {
        if 0 < self.0 {
            self.0 -= 1;
            return Err(io::Error::from(ErrorKind::Interrupted));
        }
        into.fill(b'x');
        Ok(into.len())
    }
}

#[test]
fn interrupted_calls_are_made_again(rt: HostRuntime) {
    let mut buffer = [0u8; 2];
    for (interrupted, read) in &[(0, true), (999, true), (1_000, false)] {
        let mut source = ReadSource::new(Interrupted(*interrupted));
        check(&rt, matches!(source.read(&mut buffer), Ok(2)) == *read);
    }
}

#[test]
fn streams_come_through(rt: HostRuntime) {
    let mut source = ReadSource::new(b"abc".as_slice());
    let mut buffer = [0u8; 2];
    let count = source.read(&mut buffer).expect(&rt, "a piece is read");
    check(&rt, &buffer[..count] == b"ab".as_slice());
    let mut sink = WriteSink::new(Vec::new(rt.alloc()));
    let count = sink.write(b"xyz").expect(&rt, "a piece is written");
    check(&rt, count == 3);
}

/// A reader of these bytes that gives two at a time at most, and whose every other call is interrupted.
#[derive(Drop)]
struct HaltingReader<'a> {
    left: &'a [u8],
    is_interrupted: bool,
}

impl Read for HaltingReader<'_> {
    fn read(&mut self, into: &mut [u8]) -> io::Result<usize> {
        self.is_interrupted = !self.is_interrupted;
        if self.is_interrupted {
            return Err(io::Error::from(ErrorKind::Interrupted));
        }
        let most = into.len().min(2);
        self.left.read(&mut into[..most])
    }
}

/// A writer that keeps what it took, takes three bytes at a time at most, and whose every other call is interrupted.
#[derive(Drop)]
struct HaltingWriter {
    taken: Vec<u8>,
    is_interrupted: bool,
}

impl Write for HaltingWriter {
    fn write(&mut self, piece: &[u8]) -> io::Result<usize> {
        self.is_interrupted = !self.is_interrupted;
        if self.is_interrupted {
            return Err(io::Error::from(ErrorKind::Interrupted));
        }
        let most = piece.len().min(3);
        self.taken.write(&piece[..most])
    }

    fn flush(&mut self) -> io::Result<()> {
        Ok(())
    }
}

/// Writes what a source gives to a sink, piece by piece, so many of them.
fn copy<S: Source, K: Sink>(rt: &impl Abort, source: &mut S, sink: &mut K, pieces: usize) {
    let mut buffer = [0u8; 7];
    for _ in 0..pieces {
        let count = source.read(&mut buffer).expect(rt, "bytes are read");
        write_all(sink, &buffer[..count]).expect(rt, "bytes are written");
    }
}

#[test]
fn short_and_interrupted_calls_lose_no_byte(rt: HostRuntime) {
    let text = b"each byte comes through, once and in its order".as_slice();
    let mut source = ReadSource::new(HaltingReader {
        left: text,
        is_interrupted: false,
    });
    let mut writer = HaltingWriter {
        taken: Vec::new(rt.alloc()),
        is_interrupted: false,
    };
    copy(
        &rt,
        &mut source,
        &mut WriteSink::new(&mut writer),
        text.len(),
    );
    check(&rt, writer.taken.as_slice() == text);
}
