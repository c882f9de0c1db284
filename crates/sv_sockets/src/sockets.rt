//! Connections over TCP and Unix sockets.
ghost use Rattle.std.specs.Prelude.{◌≡◌, None};
ghost use Rattle.std.specs.Io.{ReadsAtMost, WritesAtMost};

use std::alloc::{AllocError, Global};
use std::io;
use std::io::{ErrorKind, Read, Write};
use std::net::{Net, OpenStream, TcpStream};
use std::os::fd::AsRawFd;
use std::os::unix::net::UnixStream;
use std::time::Duration;
use sv_base::Place;
use sv_os::{read_some, write_some};
use sv_out::failed::Failed;
use sv_out::{Dial, DialFault, Link};

/// The two kinds of sockets.
#[derive(Drop)]
pub(crate) enum Socket<S> {
    Inet(S),
    Unix(UnixStream),
}

impl<S: OpenStream> Socket<S> {
    /// How long a read may wait for the peer; none where it may wait forever.
    pub(crate) fn read_limit(&self) -> io::Result<Option<Duration>> {
        match self {
            Socket::Inet(stream) => stream.read_timeout(),
            Socket::Unix(stream) => stream.read_timeout(),
        }
    }

    /// How long a write may wait for the peer; none where it may wait forever.
    pub(crate) fn write_limit(&self) -> io::Result<Option<Duration>> {
        match self {
            Socket::Inet(stream) => stream.write_timeout(),
            Socket::Unix(stream) => stream.write_timeout(),
        }
    }

    /// Lets a read wait for so long.
    pub(crate) fn set_read_limit(&self, limit: Duration) -> io::Result<()> {
        match self {
            Socket::Inet(stream) => stream.set_read_timeout(Some(limit)),
            Socket::Unix(stream) => stream.set_read_timeout(Some(limit)),
        }
    }

    /// Lets a write wait for so long.
    pub(crate) fn set_write_limit(&self, limit: Duration) -> io::Result<()> {
        match self {
            Socket::Inet(stream) => stream.set_write_timeout(Some(limit)),
            Socket::Unix(stream) => stream.set_write_timeout(Some(limit)),
        }
    }

    /// Lets what is written go out at once.
    pub(crate) fn set_undelayed(&self) -> io::Result<()> {
        match self {
            Socket::Inet(stream) => stream.set_nodelay(true),
            Socket::Unix(_) => Ok(()),
        }
    }
}

impl<S: AsRawFd> Socket<S> {
    /// The number of its descriptor.
    pub(crate) fn descriptor(&self) -> i32 {
        match self {
            Socket::Inet(stream) => stream.as_raw_fd(),
            Socket::Unix(stream) => stream.as_raw_fd(),
        }
    }
}

impl<S: Read + Write> Socket<S> {
    /// Reads once.
    pub(crate) fn take(&mut self, into: &mut [u8]) -> io::Result<usize>
        ensures { ReadsAtMost result into.new }
    {
        match self {
            Socket::Inet(stream) => read_some(stream, into),
            Socket::Unix(stream) => read_some(stream, into),
        }
    }

    /// Writes once.
    pub(crate) fn give(&mut self, piece: &[u8]) -> io::Result<usize>
        ensures { WritesAtMost result piece.now }
    {
        match self {
            Socket::Inet(stream) => write_some(stream, piece),
            Socket::Unix(stream) => write_some(stream, piece),
        }
    }
}

/// A link that a dial made. It counts each error, and each write that takes nothing, as a fault, and tells nothing of the
/// content.
#[derive(Drop)]
pub struct OsLink<S> {
    socket: Socket<S>,
    faults: u64,
}

impl<S: Read + Write> Link for OsLink<S> {
    ghost told = { λ _. None };

    ghost faults = { λ s. s.faults };

    fn read(&mut self, into: &mut [u8]) -> Result<usize, Failed> {
        match self.socket.take(into) {
            Ok(count) => Ok(count),
            Err(_) => {
                self.faults = self.faults.saturating_add(1);
                Err(Failed)
            }
        }
    }

    fn write(&mut self, piece: &[u8]) -> Result<usize, Failed> {
        if piece.is_empty() {
            return Ok(0);
        }
        match self.socket.give(piece) {
            Ok(count) if count > 0 => Ok(count),
            _ => {
                self.faults = self.faults.saturating_add(1);
                Err(Failed)
            }
        }
    }
}

/// A dial over TCP and Unix sockets. It counts each connection that can't be made, and each link with faults that it
/// takes back. A place without a host is this machine.
#[derive(Drop)]
pub struct OsDial<'a, R> {
    net: &'a R,
    faults: u64,
}

impl<'a, R: Net> OsDial<'a, R> {
    /// A dial that has not failed yet.
    pub fn new(net: &'a R) -> OsDial<'a, R>
        ensures { result.faults ≡ 0 }
    {
        OsDial { net, faults: 0 }
    }

    fn open(&self, place: &Place) -> io::Result<Socket<R::Stream>> {
        match place {
            Place::Inet(host, port) => {
                let host = match host.as_str() {
                    "" => "localhost",
                    host => host,
                };
                Ok(Socket::Inet(TcpStream::connect(self.net, (host, *port))?))
            }
            Place::Unix(path) => Ok(Socket::Unix(UnixStream::connect(self.net, path.as_str())?)),
        }
    }
}

impl<R: Net> Dial for OsDial<'_, R> {
    type Link = OsLink<R::Stream>;

    ghost told = { λ _. None };

    ghost faults = { λ s. s.faults };

    fn connect(&mut self, _alloc: Global, place: &Place) -> Result<OsLink<R::Stream>, DialFault> {
        match self.open(place) {
            Ok(socket) => Ok(OsLink { socket, faults: 0 }),
            Err(error) if error.kind() == ErrorKind::OutOfMemory => Err(DialFault::OutOfMemory),
            Err(_) => {
                self.faults = self.faults.saturating_add(1);
                Err(DialFault::Failed)
            }
        }
    }

    fn close(&mut self, _alloc: Global, link: OsLink<R::Stream>) -> Result<(), AllocError> {
        if 0 < link.faults {
            self.faults = self.faults.saturating_add(1);
        }
        Ok(())
    }
}
