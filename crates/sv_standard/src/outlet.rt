//! A stream behind a buffer and a thread.

use crossbeam_channel::{Receiver, Sender, unbounded};
use std::alloc::{AllocError, Global};
use std::io::Write;
use std::rt::Clock;
use std::sync::atomic::{AtomicU64, Ordering};
use std::sync::{Arc, Wait};
use std::time::Duration;
use std::{io, thread};

/// What becomes of the pieces behind one that couldn't be written.
#[derive(Clone, Copy, PartialEq, Eq)]
pub enum AfterFailure {
    /// They are written as if nothing had happened.
    GoesOn,
    /// They are dropped, so that what was written has no gap.
    Ends,
}

/// What the giving side and the writing side of a stream share.
#[derive(Drop)]
struct Shared {
    /// How many bytes were given and aren't written or dropped yet.
    held: AtomicU64,
    /// 1 while the last piece that was tried couldn't be written.
    failed: AtomicU64,
}

/// The giving side of a stream. Giving never waits: the pieces are held until the thread of the other side has written
/// them, so many bytes at most.
pub struct Outlet<R> {
    rt: R,
    to: Sender<Vec<u8>>,
    shared: Arc<Shared>,
    most: u64,
}

impl<R: Drop> Drop for Outlet<R> {
    fn drop(self) {
        let Self {
            rt: _,
            to: _,
            shared: _,
            most: _,
        } = self;
    }
}

/// The writing side of a stream, for a thread that calls `pour`.
pub struct OutletEnd {
    from: Receiver<Vec<u8>>,
    shared: Arc<Shared>,
    after: AfterFailure,
}

impl Drop for OutletEnd {
    fn drop(self) {
        let Self {
            from: _,
            shared: _,
            after: _,
        } = self;
    }
}

impl<R: Wait + Copy> Outlet<R> {
    /// Both sides of a stream that holds at most so many bytes.
    pub fn new(
        rt: R,
        alloc: Global,
        most: u64,
        after: AfterFailure,
    ) -> Result<(Outlet<R>, OutletEnd), AllocError> {
        let (to, from) = unbounded(alloc)?;
        let shared = Arc::new(
            alloc,
            Shared {
                held: AtomicU64::new(0),
                failed: AtomicU64::new(0),
            },
        )?;
        let end = OutletEnd {
            from,
            shared: Arc::try_clone(&shared)?,
            after,
        };
        Ok((
            Outlet {
                rt,
                to,
                shared,
                most,
            },
            end,
        ))
    }

    /// The same giving side, for another holder.
    pub fn another(&self) -> Result<Outlet<R>, AllocError> {
        Ok(Outlet {
            rt: self.rt,
            to: self.to.clone()?,
            shared: Arc::try_clone(&self.shared)?,
            most: self.most,
        })
    }

    /// Gives a piece, and says whether it is on its way. It isn't where it doesn't fit, where memory is refused and where the
    /// writing side is gone; after a failed write it may be, and the answer says no all the same.
    pub fn give(&self, alloc: Global, piece: &[u8]) -> bool {
        self.sends(alloc, piece) && !self.has_failed()
    }

    fn sends(&self, alloc: Global, piece: &[u8]) -> bool {
        let length = piece.len() as u64;
        let held = self.shared.held.load(Ordering::SeqCst);
        if self.most.saturating_sub(held) < length {
            return false;
        }
        let Ok(copy) = Vec::from_slice(alloc, piece) else {
            return false;
        };
        self.shared.held.fetch_add(length, Ordering::SeqCst);
        if self.to.try_send(&self.rt, copy).is_ok() {
            return true;
        }
        self.shared.held.fetch_sub(length, Ordering::SeqCst);
        false
    }

    /// Whether the last piece that was tried couldn't be written.
    pub fn has_failed(&self) -> bool {
        self.shared.failed.load(Ordering::SeqCst) == 1
    }

    /// Waits until nothing is held, so many milliseconds at most: whether nothing is.
    pub fn wait_for_all<C: Clock>(&self, clock: &C, milliseconds: u32) -> bool {
        for _ in 0..milliseconds {
            if self.shared.held.load(Ordering::SeqCst) == 0 {
                return true;
            }
            thread::sleep(clock, Duration::from_millis(1));
        }
        self.shared.held.load(Ordering::SeqCst) == 0
    }
}

/// Writes the pieces of a stream until each giving side is gone; a piece that can't be written is lost, and the first such
/// loss in a row is handed to `told`.
pub fn pour<R: Wait, W: Write + Drop, F: Fn(&io::Error)>(
    rt: &R,
    end: &OutletEnd,
    writer: W,
    told: F,
)
    requires { F.IsAlwaysCallable told }
{
    let mut writer = writer;
    let mut over = false;
    for piece in end.from.iter(rt) {
        if !over {
            let answer = writer
                .write_all(piece.as_slice())
                .and_then(|()| writer.flush());
            over = judged(end, answer, &told);
        }
        end.shared
            .held
            .fetch_sub(piece.len() as u64, Ordering::SeqCst);
    }
}

/// Notes how a write ended: whether the stream is over with it.
fn judged<F: Fn(&io::Error)>(end: &OutletEnd, answer: io::Result<()>, told: &F) -> bool
    requires { F.IsAlwaysCallable told.now }
{
    match answer {
        Ok(()) => {
            end.shared.failed.store(0, Ordering::SeqCst);
            false
        }
        Err(error) => {
            if end.shared.failed.swap(1, Ordering::SeqCst) == 0 {
                told(&error);
            }
            end.after == AfterFailure::Ends
        }
    }
}
