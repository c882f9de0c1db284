//! Children that nobody waits for any more.

use std::alloc::{AllocError, Global};
use std::process::{Child, OpenProcess};
use std::sync::atomic::AtomicU64;
use std::sync::{Arc, Mutex, Wait};
use std::time::Duration;

/// How often those that were sent KILL are looked at, a millisecond apart.
const LOOKS: u32 = 1_000;

/// The children whose waiter went away before their end, so that they can be reaped and don't stay in the system's table.
pub(crate) struct Left<P: OpenProcess + Drop> {
    children: Arc<Mutex<Vec<Child<P>>>>,
}

impl<P: OpenProcess + Drop> Drop for Left<P> {
    fn drop(self) {
        let Self { children: _ } = self;
    }
}

impl<P: OpenProcess + Drop> Left<P> {
    /// None yet.
    pub(crate) fn new(alloc: Global) -> Result<Left<P>, AllocError> {
        Ok(Left {
            children: Arc::new(alloc, Mutex::new(Vec::new(alloc)))?,
        })
    }

    /// The same list, for another holder.
    pub(crate) fn another(&self) -> Result<Left<P>, AllocError> {
        Ok(Left {
            children: Arc::try_clone(&self.children)?,
        })
    }

    /// Adds a child. Where memory is refused it isn't reaped.
    pub(crate) fn add<R: Wait>(&self, rt: &R, child: Child<P>) {
        let _ = self.children.lock(rt).push(child);
    }

    /// Reaps those that have ended, and gives those that were just sent KILL a second for it. Where there is none it takes no time.
    pub(crate) fn reap_soon<R: Wait>(&self, rt: &R) {
        let never = AtomicU64::new(0);
        for _ in 0..LOOKS {
            if self.reap(rt) {
                return;
            }
            never.park_timeout(rt, 0, Duration::from_millis(1));
        }
    }

    /// Reaps those that have ended: whether none is left.
    pub(crate) fn reap<R: Wait>(&self, rt: &R) -> bool {
        let mut children = self.children.lock(rt);
        reap_among(&mut children);
        children.is_empty()
    }
}

/// Takes out those that have ended, and those of which the system knows nothing.
fn reap_among<P: OpenProcess + Drop>(children: &mut Vec<Child<P>>) {
    let mut at = 0;
    for _ in 0..children.len() {
        if lives(children, at) {
            at = at.saturating_add(1);
        } else if at < children.len() {
            children.swap_remove(at);
        }
    }
}

fn lives<P: OpenProcess + Drop>(children: &mut Vec<Child<P>>, at: usize) -> bool {
    match children.as_mut_slice().get_mut(at) {
        Some(child) => matches!(child.try_wait(), Ok(None)),
        None => false,
    }
}
