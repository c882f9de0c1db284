//! A link that a client made.
ghost use Rattle.std.specs.Prelude.{◌≡◌, None};
ghost use Rattle.std.specs.Io.{ReadsAtMost, WritesAtMost};

use crate::links::Seat;
use crate::sockets::Socket;
use std::io;
use std::io::ErrorKind;
use std::net::Net;
use std::rt::Clock;
use std::sync::Wait;
use std::time::{Duration, Instant};
use sv_out::Link;
use sv_out::failed::Failed;

/// How long a peer may say nothing between its requests, or take nothing of a reply, in seconds.
const PATIENCE: u64 = 60;

/// How long a request may take from its first byte to its last, in seconds.
const REQUEST: u64 = 30;

/// How long either may last where no thread can be made for a further link, in seconds.
const SHORT: u64 = 1;

/// How a reply begins that shows that its request was carried out.
const GOOD: &[u8] = b"HTTP/1.1 200";

/// A link that was accepted, and has a place among those that are open. Its peer may say nothing for 60 seconds; once it has
/// sent a byte since its last reply, the whole request has to come within 30 seconds, however it is parted. Where no thread
/// can be made for a further link, a second has to do for both. It counts each error, and each write that takes nothing, as
/// a fault, and tells nothing of the content.
pub struct AcceptedLink<R: Net + Wait + Drop> {
    rt: R,
    socket: Socket<R::Stream>,
    seat: Seat,
    /// When the first byte since the last reply came.
    begun: Option<Instant>,
    /// Whether a read may wait for less than the patience.
    is_hurried: bool,
    /// Whether nothing was written since the last read.
    is_asked: bool,
    faults: u64,
}

impl<R: Net + Wait + Drop> Drop for AcceptedLink<R> {
    fn drop(self) {
        let Self {
            rt,
            socket,
            seat,
            begun: _,
            is_hurried: _,
            is_asked: _,
            faults: _,
        } = self;
        seat.leave(&rt, socket);
    }
}

impl<R: Net + Wait + Clock + Drop> AcceptedLink<R> {
    /// The link over this socket, which has this place, and has not failed yet.
    pub(crate) fn new(rt: R, socket: Socket<R::Stream>, seat: Seat) -> AcceptedLink<R>
        ensures { result.faults ≡ 0 }
    {
        AcceptedLink {
            rt,
            socket,
            seat,
            begun: None,
            is_hurried: false,
            is_asked: false,
            faults: 0,
        }
    }

    /// Sets the time limits of a link that nothing came over yet.
    pub(crate) fn set_limits(&self) -> io::Result<()> {
        let patience = Duration::from_secs(PATIENCE);
        self.socket.set_read_limit(patience)?;
        self.socket.set_write_limit(patience)?;
        self.socket.set_undelayed()
    }

    /// How long a read may wait for the peer; none where it may wait forever.
    pub fn read_limit(&self) -> io::Result<Option<Duration>> {
        self.socket.read_limit()
    }

    /// How long a write may wait for the peer; none where it may wait forever.
    pub fn write_limit(&self) -> io::Result<Option<Duration>> {
        self.socket.write_limit()
    }

    /// Lets the next read wait for what is left of a request's time, where one was begun, and not for long where threads
    /// are short.
    fn hurry(&mut self) -> io::Result<()>
        ensures { self.new.faults ≡ self.old.faults }
    {
        let is_short = self.seat.is_short();
        let most = Duration::from_secs(if is_short { SHORT } else { REQUEST });
        let left = match self.begun {
            Some(begun) => most.saturating_sub(begun.elapsed(&self.rt)?),
            None if is_short => most,
            None => return Ok(()),
        };
        if left < Duration::from_millis(1) {
            return Err(io::Error::from(ErrorKind::TimedOut));
        }
        self.is_hurried = true;
        self.socket.set_read_limit(left)
    }

    /// Notes that bytes of a request came.
    fn note_request(&mut self)
        ensures { self.new.faults ≡ self.old.faults }
    {
        self.is_asked = true;
        if self.begun.is_none() {
            self.begun = Instant::now(&self.rt).ok();
        }
    }

    fn take(&mut self, into: &mut [u8]) -> io::Result<usize>
        ensures bound { ReadsAtMost result into.new }
        ensures faults { self.new.faults ≡ self.old.faults }
    {
        self.hurry()?;
        self.seat.set_waits(true);
        let answer = self.socket.take(into);
        self.seat.set_waits(false);
        if answer.is_ok() {
            self.note_request();
        }
        answer
    }

    /// Notes that a reply begins with this piece, unless it goes on with it.
    fn note_reply(&mut self, piece: &[u8]) -> io::Result<()>
        ensures { self.new.faults ≡ self.old.faults }
    {
        if !self.is_asked {
            return Ok(());
        }
        self.is_asked = false;
        self.begun = None;
        if piece.starts_with(GOOD) {
            self.seat.set_served(&self.rt);
        }
        if self.is_hurried {
            self.is_hurried = false;
            self.socket.set_read_limit(Duration::from_secs(PATIENCE))?;
        }
        Ok(())
    }

    fn give(&mut self, piece: &[u8]) -> io::Result<usize>
        ensures bound { WritesAtMost result piece.now }
        ensures faults { self.new.faults ≡ self.old.faults }
    {
        self.note_reply(piece)?;
        self.socket.give(piece)
    }
}

impl<R: Net + Wait + Clock + Drop> Link for AcceptedLink<R> {
    ghost told = { λ _. None };

    ghost faults = { λ s. s.faults };

    fn read(&mut self, into: &mut [u8]) -> Result<usize, Failed> {
        match self.take(into) {
            Ok(count) => Ok(count),
            Err(_) => {
                self.faults = self.faults.saturating_add(1);
                Err(Failed)
            }
        }
    }

    fn write(&mut self, piece: &[u8]) -> Result<usize, Failed> {
        if piece.is_empty() {
            return Ok(0);
        }
        match self.give(piece) {
            Ok(count) if count > 0 => Ok(count),
            _ => {
                self.faults = self.faults.saturating_add(1);
                Err(Failed)
            }
        }
    }
}
