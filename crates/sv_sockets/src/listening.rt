//! What accepts connections over TCP and Unix sockets.
ghost use Rattle.std.specs.Prelude.{◌≡◌, None};

use crate::accepted::AcceptedLink;
use crate::links::{LinkTable, Seat};
use crate::opening::Listener;
use crate::sockets::Socket;
use libc::EMFILE;
use std::alloc::Global;
use std::fs::File;
use std::net::{Net, OpenListener};
use std::rt::{Clock, Files};
use std::sync::Wait;
use std::time::{Duration, Instant};
use std::{io, thread};
use sv_base::Side;
use sv_out::failed::Failed;
use sv_outside::Listen;
use sv_standard::Teller;

/// The pause after an error, in milliseconds.
const PAUSE: u64 = 1_000;

/// How often a place is looked for, and the link that is idle for longest asked to go.
const ROUNDS: u32 = 20;

/// How often in each of these rounds it is looked whether that link has gone, a millisecond after each other.
const LOOKS: u32 = 100;

/// How long nothing more is told after a link that was turned away, in seconds.
const SILENCE: u64 = 60;

/// What is opened to have a descriptor in reserve.
const RESERVE: &str = "/dev/null";

/// Accepts the links of one address, at most 64 of both sides together and 60 of one. Where there is no place left the link
/// that has been idle for longest loses its own; where each has something to do for two seconds, the one that came is closed.
/// It holds one descriptor in reserve, so that where the system gives none a link is accepted all the same. It counts each
/// error as a fault, pauses for 1,000 milliseconds after it, and tells nothing.
pub struct OsListen<R: Net + Files + Wait + Copy + Drop> {
    rt: R,
    alloc: Global,
    listener: Listener<R::Listener>,
    links: LinkTable,
    teller: Teller<R>,
    reserve: Option<R::File>,
    told: Option<Instant>,
    faults: u64,
}

impl<R: Net + Files + Wait + Copy + Drop> Drop for OsListen<R> {
    fn drop(self) {
        let Self {
            rt: _,
            alloc: _,
            listener: _,
            links: _,
            teller: _,
            reserve: _,
            told: _,
            faults: _,
        } = self;
    }
}

impl<R: Net + Files + Wait + Clock + Copy + Drop> OsListen<R> {
    /// What accepts the links of this open address, among these links. What is lost is told by `teller`.
    pub fn new(
        rt: R,
        alloc: Global,
        listener: Listener<R::Listener>,
        links: LinkTable,
        teller: Teller<R>,
    ) -> OsListen<R>
        ensures { result.faults ≡ 0 }
    {
        OsListen {
            rt,
            alloc,
            listener,
            links,
            teller,
            reserve: None,
            told: None,
            faults: 0,
        }
    }

    /// The next link; none where it was turned away.
    fn next_link(&mut self) -> io::Result<Option<AcceptedLink<R>>>
        ensures { self.new.faults ≡ self.old.faults }
    {
        if self.reserve.is_none() {
            self.reserve = File::open(&self.rt, RESERVE).ok();
        }
        let socket = self.next_socket()?;
        match self.seat_of(socket.descriptor()) {
            Some(seat) => {
                let link = AcceptedLink::new(self.rt, socket, seat);
                link.set_limits()?;
                Ok(Some(link))
            }
            None => {
                self.tell_once("no place for a further link: it is closed");
                Ok(None)
            }
        }
    }

    /// The next connection. Where no descriptor is left, the one in reserve is given up for it, and then that of the link
    /// that has been idle for longest.
    fn next_socket(&mut self) -> io::Result<Socket<R::Stream>>
        ensures { self.new.faults ≡ self.old.faults }
    {
        match accept_at(&self.listener) {
            Err(error) if error.raw_os_error() == Some(EMFILE) => {
                self.tell_once("no descriptor is left: raise the limit of open files (ulimit -n)");
                if self.reserve.take().is_none() {
                    let before = self.links.number(&self.rt);
                    self.links.free_one(&self.rt, self.listener.side());
                    self.wait_for_fewer(before);
                }
                accept_at(&self.listener)
            }
            answer => answer,
        }
    }

    /// A place for the link with this descriptor, which may be that of another one: none where each has something to do.
    fn seat_of(&self, descriptor: i32) -> Option<Seat> {
        let side = self.listener.side();
        for _ in 0..ROUNDS {
            let before = self.links.number(&self.rt);
            let seat = self.links.take(&self.rt, side, descriptor);
            self.links.make_room(&self.rt, side);
            if seat.is_some() {
                return seat;
            }
            self.wait_for_fewer(before);
        }
        self.links.take(&self.rt, side, descriptor)
    }

    /// Waits until fewer links than these are open, 100 milliseconds at most.
    fn wait_for_fewer(&self, before: usize) {
        for _ in 0..LOOKS {
            if self.links.number(&self.rt) < before {
                return;
            }
            thread::sleep(&self.rt, Duration::from_millis(1));
        }
    }

    /// Tells this, unless something was told in the last minute.
    fn tell_once(&mut self, line: &str)
        ensures { self.new.faults ≡ self.old.faults }
    {
        let Ok(now) = Instant::now(&self.rt) else {
            return;
        };
        if let Some(told) = self.told {
            if now.duration_since(told) < Duration::from_secs(SILENCE) {
                return;
            }
        }
        self.told = Some(now);
        self.teller.tell(self.alloc, line);
    }
}

impl<R: Net + Files + Wait + Clock + Copy + Drop> Listen for OsListen<R> {
    type Link = AcceptedLink<R>;

    ghost told = { λ _. None };

    ghost faults = { λ s. s.faults };

    fn accept(&mut self) -> Result<AcceptedLink<R>, Failed> {
        for _ in 0..u64::MAX {
            match self.next_link() {
                Ok(Some(link)) => return Ok(link),
                Ok(None) => {}
                Err(_) => {
                    thread::sleep(&self.rt, Duration::from_millis(PAUSE));
                    break;
                }
            }
        }
        self.faults = self.faults.saturating_add(1);
        Err(Failed)
    }
}

/// The next connection of an open address.
fn accept_at<L: OpenListener>(listener: &Listener<L>) -> io::Result<Socket<L::Stream>> {
    match listener {
        Listener::Inet(listener) => {
            let (stream, _) = listener.accept()?;
            Ok(Socket::Inet(stream))
        }
        Listener::Unix(listener) => {
            let (stream, _) = listener.accept()?;
            Ok(Socket::Unix(stream))
        }
    }
}
