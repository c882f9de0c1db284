//! The listener's side of its standard input: a reader that takes the stream in pieces and gives its events.

ghost use Rattle.std.specs.Prelude.{◌≡◌, ◌≤◌, [], IfOk, IsErr, OnErr, OnOk, drop, length};
ghost use Rattle.sv_listener.specs.Takes.{Takes};

use crate::events::{Heard, HeardFault};
use crate::first::{First, first_of};
use std::alloc::{AllocError, Global};
use std::mem;

/// How much memory is used again, in bytes; more goes back.
const MOST_KEPT: usize = 65_536;

/// What a listener got so far, of which only the bytes of an event that isn't whole are kept.
#[derive(Drop)]
pub struct ListenerSide {
    held: Vec<u8>,
    fault: Option<HeardFault>,
    /// Whether memory was refused.
    broken: bool,
}

impl ListenerSide {
    ghost use Rattle.sv_listener.specs.Hearing.{fault_of, is_between};
    ghost use Rattle.sv_listener.specs.SidePlaces.{StandsFor, StandsForNone, IsBroken, Feeds};
    ghost use Rattle.sv_listener.specs.SidePlaces.{Tells, EndsAs};

    /// A reader of a stream that has no bytes yet. It takes no memory.
    pub fn new(alloc: Global) -> ListenerSide
        ensures { StandsFor result [] [] }
    {
        ListenerSide {
            held: Vec::new(alloc),
            fault: None,
            broken: false,
        }
    }

    /// Takes the next bytes of the stream and gives the events that they complete. After a fault there are none.
    ///
    /// Out of memory leaves a value that stands for no stream, and each later call gives the same answer.
    pub fn feed(&mut self, alloc: Global, piece: &[u8]) -> Result<Vec<Heard>, AllocError>
        ensures heard { IfOk result (λ heard. Feeds self.old piece.now heard.items self.new) }
        ensures read { IfOk result (λ heard. Tells self.old piece.now heard.items) }
        ensures refused { OnErr result (IsBroken self.new) }
        ensures none { OnErr result (StandsForNone self.new) }
        ensures stays_refused { IsBroken self.old → IsErr result }
    {
        let mut events = Vec::new(alloc);
        match self.feed_into(alloc, piece, &mut events) {
            Ok(()) => Ok(events),
            Err(refused) => Err(refused),
        }
    }

    /// The same into a list, whose memory is used again. What it held goes.
    pub(crate) fn feed_into(
        &mut self,
        alloc: Global,
        piece: &[u8],
        events: &mut Vec<Heard>,
    ) -> Result<(), AllocError>
        ensures heard { OnOk result (Feeds self.old piece.now events.new.items self.new) }
        ensures read { OnOk result (Tells self.old piece.now events.new.items) }
        ensures refused { OnErr result (IsBroken self.new) }
        ensures none { OnErr result (StandsForNone self.new) }
        ensures stays_refused { IsBroken self.old → IsErr result }
    {
        events.clear();
        if self.broken {
            return Err(AllocError);
        }
        if self.fault.is_some() {
            return Ok(());
        }
        self.broken = true;
        let mut bytes = mem::replace(&mut self.held, Vec::new(alloc));
        bytes.extend_from_slice(piece)?;
        let taken = take_events(alloc, bytes.as_slice(), events)?;
        self.held = rest_of(alloc, bytes, taken.count)?;
        self.fault = taken.fault;
        self.broken = false;
        Ok(())
    }

    /// The fault of the stream so far.
    pub fn fault(&self) -> Option<HeardFault>
        ensures { EndsAs self.now (λ end. result ≡ fault_of end) }
    {
        self.fault
    }

    /// Whether no part of an event is held: the stream so far ends between two events, or at a fault.
    pub fn between(&self) -> bool
        ensures { EndsAs self.now (λ end. result ≡ is_between end) }
    {
        self.held.as_slice().is_empty()
    }
}

/// How many bytes are done with, and the fault at which they end.
#[derive(Clone, Copy)]
struct Taken {
    count: usize,
    fault: Option<HeardFault>,
}

/// Takes whole events from the front of the bytes. At a fault all bytes are done with.
fn take_events(alloc: Global, bytes: &[u8], events: &mut Vec<Heard>) -> Result<Taken, AllocError>
    ensures count { IfOk result (λ taken. taken.count ≤ length bytes.now) }
    ensures takes { IfOk result (λ taken. Takes bytes.now events.old.items events.new.items
        (drop taken.count bytes.now) taken.fault) }
{
    let mut count = 0usize;
    'events: loop {
        let (_, rest) = bytes.split_at(count);
        match first_of(alloc, rest)? {
            First::Open => return Ok(Taken { count, fault: None }),
            First::Fault(fault) => {
                return Ok(Taken {
                    count: bytes.len(),
                    fault: Some(fault),
                });
            }
            First::Whole(event, size) => {
                events.push(event)?;
                count += size;
            }
        }
    }
}

/// The bytes that aren't done with, in the same memory where there is little of it.
fn rest_of(alloc: Global, mut bytes: Vec<u8>, count: usize) -> Result<Vec<u8>, AllocError>
    requires { count ≤ length bytes.items }
    ensures { IfOk result (λ rest. rest.items ≡ drop count bytes.items) }
{
    if count == 0 {
        return Ok(bytes);
    }
    let (_, left) = bytes.as_slice().split_at(count);
    let rest = Vec::from_slice(alloc, left)?;
    if bytes.len() > MOST_KEPT {
        return Ok(rest);
    }
    bytes.clear();
    bytes.extend_from_slice(rest.as_slice())?;
    Ok(bytes)
}
