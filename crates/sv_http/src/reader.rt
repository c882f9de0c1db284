//! The reader of a stream, which comes in pieces cut anywhere.
ghost use Rattle.std.specs.Prelude.{◌≡◌, true, ◌↔◌, ◌++◌, ◌<◌, ◌≤◌, ◌∷◌, [], List, ℕ, length, take};
ghost use Rattle.std.specs.Prelude.{IfOk, OnOk, OnErr, IsErr, IsTrue};
ghost use Rattle.std.specs.List.{prefix_len};
ghost use Rattle.sv_http.specs.RequestStream.{ends_line, is_begun};

use crate::ask::Ask;
use crate::fields::BODY_LIMIT;
use crate::guard::Guard;
use crate::head::{Ruling, judge};
use crate::line::{Line, look};
use crate::status::Refusal;
use std::alloc::{AllocError, Global};
use std::mem;
use sv_base::bytes::Bytes;

/// The most bytes of a head.
const HEAD_LIMIT: usize = 16_384;

/// How many bytes a request has.
#[derive(Clone, Copy)]
struct Size {
    head: usize,
    body: usize,
}

/// How far a stream has come.
#[derive(Clone, Copy)]
enum StreamProgress {
    /// Before a head, or in one whose bytes end so.
    Head { line: Line },
    /// In the body of a call, which has this size with its head.
    Body { size: Size, close: bool },
    /// A request was refused.
    Over,
    /// Memory was refused.
    Broken,
}

/// A link's stream, of which only the undecided bytes of a request are kept: of its head, and then of its body; of the
/// whole head only the count.
pub struct HttpReader {
    guard: Guard,
    place: StreamProgress,
    head: Vec<u8>,
    body: Vec<u8>,
}

impl Drop for HttpReader {
    fn drop(self) {
        let Self {
            guard: _,
            place: _,
            head: _,
            body: _,
        } = self;
    }
}

impl HttpReader {
    ghost use Rattle.sv_http.specs.RequestStream.{AreAsks};
    ghost use Rattle.sv_http.specs.ReaderPlaces.{StandsFor, IsRefused, IsBroken, guard_of};
    ghost use Rattle.sv_http.specs.ReaderPlaces.{Advances, EndsHead, shown, refused, called};
    ghost use Rattle.sv_http.specs.ReaderPlaces.{goes_on, counted};
    ghost use Rattle.sv_http.specs.AsksOf.{asks_of};
    ghost use Rattle.sv_http.specs.Undecided.{held_of, held_limit};
    ghost use Rattle.sv_http.specs.declared.line.Line.{Line};
    ghost use Rattle.sv_http.specs.declared.ask.Ask.{Ask};
    ghost use Rattle.sv_http.specs.declared.reader.StreamProgress.{StreamProgress};

    /// A stream that has no bytes yet. It takes no memory.
    pub fn new(alloc: Global, guard: Guard) -> HttpReader
        ensures stands { StandsFor result [] [] }
        ensures guard { guard_of result ≡ guard }
    {
        HttpReader {
            guard,
            place: StreamProgress::Head { line: Line::Text },
            head: Vec::new(alloc),
            body: Vec::new(alloc),
        }
    }

    /// Takes the next bytes of the stream and gives the asks that they decide. After a refused request there are none.
    ///
    /// Out of memory leaves a value that stands for no stream, and each later call gives the same answer.
    pub fn feed(&mut self, alloc: Global, piece: &[u8]) -> Result<Vec<Ask>, AllocError>
        ensures asks { IfOk result (λ told. (stream : List ℕ) (asks : List Ask)
            → StandsFor self.old stream asks
            → AreAsks (guard_of self.old) (stream ++ piece.now) (asks ++ told.items)) }
        ensures read { IfOk result (λ told. (stream : List ℕ) (asks : List Ask)
            → StandsFor self.old stream asks
            → asks ++ told.items ≡ asks_of (guard_of self.old) (stream ++ piece.now)) }
        ensures stands { IfOk result (λ told. (stream : List ℕ) (asks : List Ask)
            → StandsFor self.old stream asks
            → StandsFor self.new (stream ++ piece.now) (asks ++ told.items)) }
        ensures over { IsRefused self.old → IfOk result (λ told. told.items ≡ []) }
        ensures guard { guard_of self.new ≡ guard_of self.old }
        ensures refused { OnErr result (IsBroken self.new) }
        ensures none { OnErr result ((stream : List ℕ) (asks : List Ask)
            → StandsFor self.new stream asks → ⊥) }
        ensures stays_refused { IsBroken self.old → IsErr result }
    {
        if self.is_broken() {
            return Err(AllocError);
        }
        let mut asks = Vec::new(alloc);
        match self.take_all(alloc, piece, &mut asks) {
            Ok(()) => Ok(asks),
            Err(refusal) => {
                self.place = StreamProgress::Broken;
                Err(refusal)
            }
        }
    }

    /// How many bytes were read and are not decided yet: those of the head and of the body of the unfinished request,
    /// without the CR and LF that are dropped before it. None are after a refused request and after out of memory.
    pub fn held(&self) -> u64
        ensures held { (stream : List ℕ) (asks : List Ask) → StandsFor self.now stream asks
            → result ≡ held_of (guard_of self.now) stream }
        ensures bound { result ≤ held_limit }
        ensures over { IsRefused self.now → result ≡ 0 }
        ensures broken { IsBroken self.now → result ≡ 0 }
    {
        self.counted()
    }

    /// What is kept or counted, which the type alone doesn't bound.
    fn counted(&self) -> u64
        ensures { result ≡ counted self.now.place self.now.head.items self.now.body.items }
    {
        match self.place {
            StreamProgress::Head { .. } => (self.head.as_slice().len() as u64).min(
                HEAD_LIMIT as u64,
            ),
            StreamProgress::Body { size, .. } => {
                let body = (self.body.as_slice().len() as u64).min(BODY_LIMIT);
                (size.head as u64).min(HEAD_LIMIT as u64) + body
            }
            StreamProgress::Over | StreamProgress::Broken => 0,
        }
    }

    fn is_broken(&self) -> bool
        ensures { IsTrue result ↔ IsBroken self.now }
    {
        match self.place {
            StreamProgress::Broken => true,
            _ => false,
        }
    }

    fn take_all(
        &mut self,
        alloc: Global,
        piece: &[u8],
        asks: &mut Vec<Ask>,
    ) -> Result<(), AllocError>
        ensures advances { OnOk result (Advances self.old.guard (shown self.old asks.old.items)
            piece.now (shown self.new asks.new.items)) }
        ensures over { self.old.place ≡ StreamProgress.Over
            → OnOk result ((asks.new.items ≡ asks.old.items)
            × (self.new.place ≡ StreamProgress.Over)) }
        ensures guard { self.new.guard ≡ self.old.guard }
    {
        let mut rest = piece;
        while !rest.is_empty() {
            let count = self.take(alloc, rest, asks)?;
            rest = &rest[count..];
        }
        Ok(())
    }

    /// Takes some of the bytes, at least one: how many.
    fn take(
        &mut self,
        alloc: Global,
        bytes: &[u8],
        asks: &mut Vec<Ask>,
    ) -> Result<usize, AllocError>
        requires { 0 < length bytes.now }
        ensures advances { IfOk result (λ count.
            Advances self.old.guard (shown self.old asks.old.items)
            (take count bytes.now) (shown self.new asks.new.items)) }
        ensures guard { self.new.guard ≡ self.old.guard }
        ensures over { self.old.place ≡ StreamProgress.Over
            → OnOk result ((asks.new.items ≡ asks.old.items)
            × (self.new.place ≡ StreamProgress.Over)) }
        ensures bound { IfOk result (λ count. count ≤ length bytes.now) }
        ensures progress { IfOk result (λ count. 0 < count) }
    {
        match self.place {
            StreamProgress::Head { line } => {
                if self.head.as_slice().is_empty() && ends_line(bytes[0]) {
                    return Ok(dropped(bytes));
                }
                self.take_head(alloc, line, bytes, asks)
            }
            StreamProgress::Body { size, close } => self.take_body(alloc, size, close, bytes, asks),
            StreamProgress::Over | StreamProgress::Broken => Ok(bytes.len()),
        }
    }

    fn take_head(
        &mut self,
        alloc: Global,
        line: Line,
        bytes: &[u8],
        asks: &mut Vec<Ask>,
    ) -> Result<usize, AllocError>
        requires some { 0 < length bytes.now }
        requires place { self.old.place ≡ StreamProgress.Head line }
        requires begun { self.old.head.items ≡ [] → is_begun bytes.now ≡ true }
        ensures advances { IfOk result (λ count.
            Advances self.old.guard (shown self.old asks.old.items)
            (take count bytes.now) (shown self.new asks.new.items)) }
        ensures guard { self.new.guard ≡ self.old.guard }
        ensures bound { IfOk result (λ count. count ≤ length bytes.now) }
        ensures progress { IfOk result (λ count. 0 < count) }
    {
        let room = HEAD_LIMIT.saturating_sub(self.head.as_slice().len()).max(1);
        let front = &bytes[..room.min(bytes.len())];
        let (count, found) = look(line, front);
        self.head.extend_from_slice(&front[..count])?;
        match found {
            None => self.end_head(alloc, asks)?,
            Some(line) => self.go_on(alloc, line, asks)?,
        }
        Ok(count)
    }

    /// The head isn't whole yet: it goes on, or is too long.
    fn go_on(&mut self, alloc: Global, line: Line, asks: &mut Vec<Ask>) -> Result<(), AllocError>
        ensures goes_on { OnOk result (shown self.new asks.new.items
            ≡ goes_on line self.old.head.items self.old.body.items asks.old.items) }
        ensures guard { self.new.guard ≡ self.old.guard }
    {
        if self.head.as_slice().len() < HEAD_LIMIT {
            self.place = StreamProgress::Head { line };
            Ok(())
        } else {
            self.refuse(alloc, Refusal::HeadTooLarge, asks)
        }
    }

    /// The head is whole.
    fn end_head(&mut self, alloc: Global, asks: &mut Vec<Ask>) -> Result<(), AllocError>
        ensures ends { OnOk result (EndsHead self.old.guard self.old.head.items self.old.body.items
            asks.old.items (shown self.new asks.new.items)) }
        ensures guard { self.new.guard ≡ self.old.guard }
    {
        match judge(alloc, &self.guard, self.head.as_slice())? {
            Ruling::Refused(refusal) => self.refuse(alloc, refusal, asks),
            Ruling::Takes { size, close } => {
                let head = self.head.as_slice().len();
                self.head.clear();
                self.body = Vec::with_capacity(alloc, size)?;
                if size == 0 {
                    self.call(alloc, close, asks)
                } else {
                    let size = Size { head, body: size };
                    self.place = StreamProgress::Body { size, close };
                    Ok(())
                }
            }
        }
    }

    fn take_body(
        &mut self,
        alloc: Global,
        size: Size,
        close: bool,
        bytes: &[u8],
        asks: &mut Vec<Ask>,
    ) -> Result<usize, AllocError>
        requires some { 0 < length bytes.now }
        requires place { self.old.place ≡ StreamProgress.Body size close }
        ensures advances { IfOk result (λ count.
            Advances self.old.guard (shown self.old asks.old.items)
            (take count bytes.now) (shown self.new asks.new.items)) }
        ensures guard { self.new.guard ≡ self.old.guard }
        ensures bound { IfOk result (λ count. count ≤ length bytes.now) }
        ensures progress { IfOk result (λ count. 0 < count) }
    {
        let room = size.body.saturating_sub(self.body.as_slice().len()).max(1);
        let count = room.min(bytes.len());
        self.body.extend_from_slice(&bytes[..count])?;
        if self.body.as_slice().len() >= size.body {
            self.call(alloc, close, asks)?;
        }
        Ok(count)
    }

    /// The body is whole.
    fn call(&mut self, alloc: Global, close: bool, asks: &mut Vec<Ask>) -> Result<(), AllocError>
        ensures called { OnOk result (shown self.new asks.new.items
            ≡ called close self.old.head.items self.old.body.items asks.old.items) }
        ensures guard { self.new.guard ≡ self.old.guard }
    {
        let body = mem::replace(&mut self.body, Vec::new(alloc));
        asks.push(Ask::Call {
            body: Bytes::from_vec(body),
            close,
        })?;
        self.place = StreamProgress::Head { line: Line::Text };
        Ok(())
    }

    /// Nothing is read after a refused request, so its head is let go.
    fn refuse(
        &mut self,
        alloc: Global,
        refusal: Refusal,
        asks: &mut Vec<Ask>,
    ) -> Result<(), AllocError>
        ensures refused { OnOk result (shown self.new asks.new.items
            ≡ refused refusal self.old.body.items asks.old.items) }
        ensures guard { self.new.guard ≡ self.old.guard }
    {
        asks.push(Ask::Bad(refusal))?;
        self.place = StreamProgress::Over;
        self.head = Vec::new(alloc);
        Ok(())
    }
}

/// Whether this byte is dropped before a head: CR or LF.
fn ends_line(byte: u8) -> bool
    ensures { result ≡ ends_line byte }
{
    byte == b'\r' || byte == b'\n'
}

/// How many CR and LF stand before a head.
fn dropped(bytes: &[u8]) -> usize
    ensures value { result ≡ prefix_len ends_line bytes.now }
    ensures bound { result ≤ length bytes.now }
{
    bytes.iter().take_while(|byte| ends_line(**byte)).count()
}
