//! A captured stream: its bytes for the log, and the messages between its marks.

ghost use Rattle.std.specs.List.{list_all};
ghost use Rattle.std.specs.Prelude.{◌≡◌, ◌<◌, ◌≤◌, ◌++◌, ◌∷◌, [], List, ℕ, ◌+◌, length, take, true};
ghost use Rattle.std.specs.Prelude.{IfOk, IsOkAnd, OnOk, OnErr, IsErr};
ghost use Rattle.sv_pipes.specs.Kept.{all_kept, is_plain, logged_part};
ghost use Rattle.sv_pipes.specs.CaptureCut.{last_of};

use crate::parts::{Part, Side};
use crate::word::is_next;
use memchr::memchr;
use std::alloc::{AllocError, Global};
use std::collections::VecDeque;
use std::mem;
use sv_base::bytes::Bytes;

/// The mark before a message.
const BEGIN: &[u8] = b"<!--XSUPERVISOR:BEGIN-->";

/// The mark after a message.
const END: &[u8] = b"<!--XSUPERVISOR:END-->";

/// A captured stream, of which only undecided bytes are kept: the last bytes of a message that is open, and how many
/// bytes of the awaited mark came.
#[derive(Drop)]
pub struct Capture {
    /// The most bytes of a message.
    limit: u64,
    side: Side,
    /// So many bytes of the awaited mark came last.
    matched: usize,
    /// The last bytes inside.
    body: VecDeque<u8>,
    /// Whether memory was refused.
    broken: bool,
    ghost part_of_mark: { matched < 24 },
    ghost last_bytes: { length body.items ≤ limit },
}

impl Capture {
    ghost use Rattle.sv_pipes.specs.CaptureCalls.{Feeds, Tells, Closes, TellsEnd, Holds};
    ghost use Rattle.sv_pipes.specs.CaptureCalls.{StandsForNone};
    ghost use Rattle.sv_pipes.specs.CapturePlaces.{StandsFor, IsBroken, limit_of, shown, step};
    ghost use Rattle.sv_pipes.specs.CapturePlaces.{steps, step_outside, step_inside, held_outside};
    ghost use Rattle.sv_pipes.specs.declared.parts.Part.{Part};

    /// A capture of a stream that has no bytes yet, whose messages have at most so many bytes. It takes no memory, so
    /// it always succeeds.
    pub fn new(alloc: Global, limit: u64) -> Result<Capture, AllocError>
        ensures { IsOkAnd result (λ value. StandsFor value limit [] []) }
    {
        Ok(Capture {
            limit,
            side: Side::Outside,
            matched: 0,
            body: VecDeque::new(alloc),
            broken: false,
        })
    }

    /// Takes the next bytes of the stream and gives the parts that they decide.
    ///
    /// Out of memory leaves a value that stands for no stream, and each later call gives the same answer.
    pub fn feed(&mut self, alloc: Global, piece: &[u8]) -> Result<Vec<Part>, AllocError>
        ensures cut { IfOk result (λ parts. Feeds self.old piece.now parts.items self.new) }
        ensures read { IfOk result (λ parts. Tells self.old piece.now parts.items) }
        ensures refused { OnErr result (IsBroken self.new) }
        ensures none { OnErr result (StandsForNone self.new) }
        ensures stays_refused { IsBroken self.old → IsErr result }
    {
        if self.broken {
            return Err(AllocError);
        }
        self.broken = true;
        let mut parts = Vec::new(alloc);
        let mut logged = Vec::new(alloc);
        self.take_all(alloc, piece, &mut parts, &mut logged)?;
        flush(alloc, &mut parts, &mut logged)?;
        self.broken = false;
        Ok(parts)
    }

    /// Gives the parts that the end of the stream decides: a tail outside that is no mark. A message that is open gives
    /// nothing. The capture stays as it was.
    ///
    /// Out of memory leaves a value that stands for no stream, and each later call gives the same answer.
    pub fn close(&mut self, alloc: Global) -> Result<Vec<Part>, AllocError>
        ensures closed { IfOk result (λ parts. Closes self.old parts.items) }
        ensures read { IfOk result (λ parts. TellsEnd self.old parts.items) }
        ensures stays { OnOk result (self.new ≡ self.old) }
        ensures refused { OnErr result (IsBroken self.new) }
        ensures none { OnErr result (StandsForNone self.new) }
        ensures stays_refused { IsBroken self.old → IsErr result }
    {
        if self.broken {
            return Err(AllocError);
        }
        self.broken = true;
        let mut parts = Vec::new(alloc);
        let mut logged = self.tail(alloc)?;
        flush(alloc, &mut parts, &mut logged)?;
        self.broken = false;
        Ok(parts)
    }

    /// The number of bytes that were read and aren't decided yet: inside the last bytes shown, as many as the limit has,
    /// and on both sides the tail that may begin the awaited mark. It is 0 after out of memory. It takes no memory.
    pub fn held(&self) -> u64
        ensures read { Holds self.now result }
        ensures refused { IsBroken self.now → result ≡ 0 }
        ensures bound { result ≤ limit_of self.now + 23 }
    {
        if self.broken {
            return 0;
        }
        self.body.len() as u64 + self.matched as u64
    }

    /// The bytes outside that are held.
    fn tail(&self, alloc: Global) -> Result<Vec<u8>, AllocError>
        ensures { IfOk result (λ tail. tail.items ≡ held_outside self.now.side self.now.matched) }
    {
        let mut tail = Vec::new(alloc);
        match self.side {
            Side::Outside => push_front(&mut tail, BEGIN, self.matched)?,
            Side::Inside => {}
        }
        Ok(tail)
    }

    fn take_all(
        &mut self,
        alloc: Global,
        piece: &[u8],
        parts: &mut Vec<Part>,
        logged: &mut Vec<u8>,
    ) -> Result<(), AllocError>
        ensures steps { OnOk result (shown self.new parts.new.items logged.new.items
            ≡ steps self.old.limit (shown self.old parts.old.items logged.old.items) piece.now) }
        ensures limit { self.new.limit ≡ self.old.limit }
        ensures broken { self.new.broken ≡ self.old.broken }
    {
        let mut rest = piece;
        while let [byte, more @ ..] = rest {
            let front = self.plain_front(rest);
            if front == 0 {
                self.take(alloc, *byte, parts, logged)?;
                rest = more;
            } else {
                let (plain, behind) = rest.split_at(front);
                self.take_plain(plain, logged)?;
                rest = behind;
            }
        }
        Ok(())
    }

    /// The number of bytes that can be taken all at once: those before the first with which a mark begins, and none where
    /// bytes of the awaited mark came last.
    fn plain_front(&self, bytes: &[u8]) -> usize
        ensures within { result ≤ length bytes.now }
        ensures plain { list_all is_plain (take result bytes.now) ≡ true }
        ensures apart { 0 < result → self.now.matched ≡ 0 }
    {
        if self.matched == 0 {
            plain_front(bytes)
        } else {
            0
        }
    }

    /// Takes bytes with which no mark begins all at once, where none of the awaited mark came last.
    fn take_plain(&mut self, plain: &[u8], logged: &mut Vec<u8>) -> Result<(), AllocError>
        requires apart { self.old.matched ≡ 0 }
        requires plain { list_all is_plain plain.now ≡ true }
        ensures steps { (parts : List Part) → OnOk result (shown self.new parts logged.new.items
            ≡ steps self.old.limit (shown self.old parts logged.old.items) plain.now) }
        ensures matched { self.new.matched ≡ 0 }
        ensures limit { self.new.limit ≡ self.old.limit }
        ensures broken { self.new.broken ≡ self.old.broken }
    {
        match self.side {
            Side::Outside => {
                logged.extend_from_slice(plain)?;
                Ok(())
            }
            Side::Inside => {
                keep(&mut self.body, self.limit, plain)?;
                Ok(())
            }
        }
    }

    fn take(
        &mut self,
        alloc: Global,
        byte: u8,
        parts: &mut Vec<Part>,
        logged: &mut Vec<u8>,
    ) -> Result<(), AllocError>
        ensures step { OnOk result (shown self.new parts.new.items logged.new.items
            ≡ step self.old.limit self.old.side self.old.matched byte self.old.body.items
            parts.old.items logged.old.items) }
        ensures limit { self.new.limit ≡ self.old.limit }
        ensures broken { self.new.broken ≡ self.old.broken }
    {
        match self.side {
            Side::Outside => self.outside(alloc, byte, parts, logged),
            Side::Inside => self.inside(alloc, byte, parts),
        }
    }

    fn outside(
        &mut self,
        alloc: Global,
        byte: u8,
        parts: &mut Vec<Part>,
        logged: &mut Vec<u8>,
    ) -> Result<(), AllocError>
        requires { self.old.side ≡ Side.Outside }
        ensures step { OnOk result (shown self.new parts.new.items logged.new.items
            ≡ step_outside self.old.matched byte self.old.body.items parts.old.items
            logged.old.items) }
        ensures limit { self.new.limit ≡ self.old.limit }
        ensures broken { self.new.broken ≡ self.old.broken }
    {
        if is_next(BEGIN, self.matched, byte) {
            if self.matched == BEGIN.len() - 1 {
                flush(alloc, parts, logged)?;
                self.side = Side::Inside;
                self.matched = 0;
            } else {
                self.matched += 1;
            }
        } else {
            push_front(logged, BEGIN, self.matched)?;
            if byte == b'<' {
                self.matched = 1;
            } else {
                logged.push(byte)?;
                self.matched = 0;
            }
        }
        Ok(())
    }

    fn inside(&mut self, alloc: Global, byte: u8, parts: &mut Vec<Part>) -> Result<(), AllocError>
        requires { self.old.side ≡ Side.Inside }
        ensures step { (logged : List ℕ) → OnOk result (shown self.new parts.new.items logged
            ≡ step_inside self.old.limit self.old.matched byte self.old.body.items
            parts.old.items logged) }
        ensures limit { self.new.limit ≡ self.old.limit }
        ensures broken { self.new.broken ≡ self.old.broken }
    {
        if is_next(END, self.matched, byte) {
            if self.matched == END.len() - 1 {
                let body = mem::replace(&mut self.body, VecDeque::new(alloc));
                parts.push(Part::Message(Bytes::from_vec(body.into_vec())))?;
                self.side = Side::Outside;
                self.matched = 0;
            } else {
                self.matched += 1;
            }
        } else {
            keep_front(&mut self.body, self.limit, END, self.matched)?;
            if byte == b'<' {
                self.matched = 1;
            } else {
                keep(&mut self.body, self.limit, &[byte])?;
                self.matched = 0;
            }
        }
        Ok(())
    }
}

/// Makes a part of the outside bytes, where there are some.
fn flush(alloc: Global, parts: &mut Vec<Part>, logged: &mut Vec<u8>) -> Result<(), AllocError>
    ensures parts { OnOk result
        (parts.new.items ≡ parts.old.items ++ logged_part logged.old.items) }
    ensures logged { OnOk result (logged.new.items ≡ []) }
{
    if logged.as_slice().is_empty() {
        return Ok(());
    }
    let bytes = mem::replace(logged, Vec::new(alloc));
    parts.push(Part::Logged(Bytes::from_vec(bytes)))?;
    Ok(())
}

/// Adds the first bytes of a word.
fn push_front(bytes: &mut Vec<u8>, word: &[u8], count: usize) -> Result<(), AllocError>
    ensures { OnOk result (bytes.new.items ≡ bytes.old.items ++ take count word.now) }
{
    let count = count.min(word.len());
    bytes.extend_from_slice(&word[..count])
}

/// Keeps further bytes of a message, of whose bytes only the last ones are kept.
fn keep(body: &mut VecDeque<u8>, limit: u64, bytes: &[u8]) -> Result<(), AllocError>
    requires { length body.old.items ≤ limit }
    ensures kept { OnOk result (body.new.items ≡ all_kept limit body.old.items bytes.now) }
    ensures within { length body.new.items ≤ limit }
{
    let most = limit as usize;
    let (_, last) = bytes.split_at(bytes.len().saturating_sub(most));
    keep_last(body, most - last.len());
    push_all(body, last)?;
    Ok(())
}

/// Keeps at most so many bytes, the last ones.
fn keep_last(body: &mut VecDeque<u8>, most: usize)
    ensures { body.new.items ≡ last_of most body.old.items }
{
    while most < body.len() {
        body.pop_front();
    }
}

/// Adds bytes at the back.
fn push_all(body: &mut VecDeque<u8>, bytes: &[u8]) -> Result<(), AllocError>
    ensures items { OnOk result (body.new.items ≡ body.old.items ++ bytes.now) }
    ensures within { length body.new.items ≤ length body.old.items + length bytes.now }
{
    for byte in bytes {
        body.push_back(*byte)?;
    }
    Ok(())
}

/// The number of bytes before the first with which a mark begins.
fn plain_front(bytes: &[u8]) -> usize
    ensures within { result ≤ length bytes.now }
    ensures plain { list_all is_plain (take result bytes.now) ≡ true }
{
    match memchr(b'<', bytes) {
        None => bytes.len(),
        Some(place) => place,
    }
}

/// Keeps the first bytes of a word.
fn keep_front(
    body: &mut VecDeque<u8>,
    limit: u64,
    word: &[u8],
    count: usize,
) -> Result<(), AllocError>
    requires { length body.old.items ≤ limit }
    ensures kept { OnOk result
        (body.new.items ≡ all_kept limit body.old.items (take count word.now)) }
    ensures within { length body.new.items ≤ limit }
{
    let count = count.min(word.len());
    keep(body, limit, &word[..count])
}
