//! The pipes of a program.
ghost use Rattle.std.specs.Prelude.{◌≡◌, None};
ghost use Rattle.std.specs.Io.{ReadsAtMost};

use libc::net::{POLLIN, poll};
use libc::types::pollfd;
use std::alloc::{AllocError, Global};
use std::io;
use std::io::PipeReader;
use std::os::fd::AsRawFd;
use std::sync::atomic::{AtomicU64, Ordering};
use std::sync::{Arc, Wait};
use std::time::Duration;
use sv_os::read_some;
use sv_out::failed::Failed;
use sv_out::source::Source;

/// An output of a program, as the source that reads it and the waiter that asks whether all was read share it.
pub(crate) struct Pipe {
    reader: PipeReader,
    /// How many reads were begun.
    begun: AtomicU64,
    /// How many reads are over.
    back: AtomicU64,
    /// 1 when nothing more is read.
    ended: AtomicU64,
}

impl Drop for Pipe {
    fn drop(self) {
        let Self {
            reader: _,
            begun: _,
            back: _,
            ended: _,
        } = self;
    }
}

impl Pipe {
    /// One that nobody has read yet.
    pub(crate) fn new(alloc: Global, reader: PipeReader) -> Result<Arc<Pipe>, AllocError> {
        let pipe = Pipe {
            reader,
            begun: AtomicU64::new(0),
            back: AtomicU64::new(0),
            ended: AtomicU64::new(0),
        };
        Ok(Arc::new(alloc, pipe)?)
    }

    fn read(&self, into: &mut [u8]) -> io::Result<usize>
        ensures bound { ReadsAtMost result into.new }
    {
        self.begun.fetch_add(1, Ordering::SeqCst);
        let mut reader = &self.reader;
        let answer = read_some(&mut reader, into);
        if !matches!(&answer, Ok(count) if *count > 0) {
            self.end();
        }
        self.back.fetch_add(1, Ordering::SeqCst);
        answer
    }

    /// Notes that nothing more is read, and wakes who waits for that.
    fn end(&self) {
        self.ended.store(1, Ordering::SeqCst);
        self.ended.wake_all();
    }

    /// Whether all that was written so far was read and handed on: the reader is at its end, or it waits in a read of an
    /// empty pipe, which it begins after it has handed on what it had.
    pub(crate) fn is_drained(&self) -> bool {
        if self.ended.load(Ordering::SeqCst) == 1 {
            return true;
        }
        let back = self.back.load(Ordering::SeqCst);
        let begun = self.begun.load(Ordering::SeqCst);
        begun > back && self.is_empty() && self.back.load(Ordering::SeqCst) == back
    }

    fn is_empty(&self) -> bool {
        let mut asked = [pollfd {
            fd: self.reader.as_raw_fd(),
            events: POLLIN,
            revents: 0,
        }];
        poll(&mut asked, 0) == 0
    }

    /// Waits a millisecond, or until nothing more is read.
    pub(crate) fn rest<R: Wait>(&self, rt: &R) {
        self.ended.park_timeout(rt, 0, Duration::from_millis(1));
    }
}

/// A source over an output of a program. It counts each error as a fault, and tells nothing.
pub struct PipeSource {
    pipe: Option<Arc<Pipe>>,
    faults: u64,
}

impl Drop for PipeSource {
    fn drop(self) {
        let Self { pipe, faults: _ } = self;
        if let Some(pipe) = pipe {
            pipe.end();
        }
    }
}

impl PipeSource {
    /// A source over this pipe, or one that is at its end.
    pub(crate) fn new(pipe: Option<Arc<Pipe>>) -> PipeSource {
        PipeSource { pipe, faults: 0 }
    }
}

impl Source for PipeSource {
    ghost left = { λ _. None };

    ghost faults = { λ s. s.faults };

    fn read(&mut self, into: &mut [u8]) -> Result<usize, Failed> {
        let Some(pipe) = &self.pipe else {
            return Ok(0);
        };
        match pipe.read(into) {
            Ok(count) => Ok(count),
            Err(_) => {
                self.faults = self.faults.saturating_add(1);
                Err(Failed)
            }
        }
    }
}
