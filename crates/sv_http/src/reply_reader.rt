//! The reader of a reply: it takes a stream in pieces, cut anywhere.
ghost use Rattle.std.specs.Prelude.{◌≡◌, ◌++◌, ◌<◌, [], List, ℕ, IsErr};

use crate::verdict::{Verdict, judge_reply};
use std::alloc::{AllocError, Global};
use std::mem;
use sv_base::Bytes;
use thiserror::Error;

/// The most bytes of a head.
const HEAD_LIMIT: usize = 16_384;

/// A whole reply.
#[derive(Drop)]
pub struct Replied {
    pub status: u16,
    pub body: Bytes,
}

/// Why a stream gives no reply.
#[derive(Clone, Copy, Debug, Error)]
pub enum ReplyFault {
    /// The bytes are no reply, and no bytes that follow can make them one.
    #[error("not a reply")]
    NotAReply,
    #[error("out of memory")]
    OutOfMemory,
}

impl From<AllocError> for ReplyFault {
    ghost use Rattle.sv_http.specs.declared.reply_reader.ReplyFault.TheVariants.{OutOfMemory};

    ghost from_gives = { λ error fault. fault ≡ OutOfMemory };

    fn from(_: AllocError) -> ReplyFault {
        ReplyFault::OutOfMemory
    }
}

/// How far a stream has come.
#[derive(Clone, Copy)]
enum ReplyPlace {
    /// In the head.
    Head,
    /// In the body of a reply with this status and size.
    Body { status: u16, size: usize },
    /// The reply was given, or there is none.
    Over,
    /// Memory was refused.
    Broken,
}

/// A stream that is to be a reply: what came of its head, and then of its body. Its memory grows with what has come.
#[derive(Drop)]
pub struct ReplyReader {
    place: ReplyPlace,
    held: Vec<u8>,
}

impl ReplyReader {
    ghost use Rattle.sv_http.specs.ReplyPlaces.{StandsForReply, IsBroken, Answers, Continues};
    ghost use Rattle.sv_http.specs.ReplyStream.{Begins};
    ghost use Rattle.sv_http.specs.declared.reply_reader.ReplyPlace.{ReplyPlace};

    /// A stream that has no bytes yet. It takes no memory.
    pub fn new(alloc: Global) -> ReplyReader
        ensures { StandsForReply result [] }
    {
        ReplyReader {
            place: ReplyPlace::Head,
            held: Vec::new(alloc),
        }
    }

    /// Takes the next bytes of the stream: the reply, where they end one; `None` while they may begin one. After the
    /// reply, or where there is none, the reader stands for no stream. Out of memory is answered by each later call too.
    pub fn feed(&mut self, alloc: Global, piece: &[u8]) -> Result<Option<Replied>, ReplyFault>
        ensures answers { (stream : List ℕ) → StandsForReply self.old stream
            → Answers (stream ++ piece.now) result }
        ensures stands { (stream : List ℕ) → StandsForReply self.old stream
            → Continues self.new (stream ++ piece.now) result }
        ensures stays_refused { IsBroken self.old → IsErr result }
    {
        match self.take(alloc, piece) {
            Ok(replied) => Ok(replied),
            Err(ReplyFault::NotAReply) => {
                self.place = ReplyPlace::Over;
                Err(ReplyFault::NotAReply)
            }
            Err(ReplyFault::OutOfMemory) => {
                self.place = ReplyPlace::Broken;
                Err(ReplyFault::OutOfMemory)
            }
        }
    }

    fn take(&mut self, alloc: Global, piece: &[u8]) -> Result<Option<Replied>, ReplyFault>
        ensures answers { (stream : List ℕ) → StandsForReply self.old stream
            → Answers (stream ++ piece.now) result }
        ensures stands { (stream : List ℕ) → StandsForReply self.old stream
            → Continues self.new (stream ++ piece.now) result }
        ensures stays_refused { IsBroken self.old → IsErr result }
    {
        match self.place {
            ReplyPlace::Over => return Err(ReplyFault::NotAReply),
            ReplyPlace::Broken => return Err(ReplyFault::OutOfMemory),
            ReplyPlace::Head => {
                self.held.extend_from_slice(piece)?;
                self.end_head(alloc)
            }
            ReplyPlace::Body { status, size } => {
                self.held.extend_from_slice(piece)?;
                self.end_body(alloc, status, size)
            }
        }
    }

    /// Judges the bytes of the head so far, with which the body may have begun.
    fn end_head(&mut self, alloc: Global) -> Result<Option<Replied>, ReplyFault>
        requires { self.old.place ≡ ReplyPlace.Head }
        ensures answers { Answers self.old.held.items result }
        ensures stands { Continues self.new self.old.held.items result }
    {
        match judge_reply(self.held.as_slice()) {
            Verdict::Never => Err(ReplyFault::NotAReply),
            Verdict::Unfinished if self.held.as_slice().len() < HEAD_LIMIT => Ok(None),
            Verdict::Unfinished => Err(ReplyFault::NotAReply),
            Verdict::Head {
                count,
                status,
                size,
            } => {
                let body = Vec::from_slice(alloc, &self.held.as_slice()[count..])?;
                self.held = body;
                self.place = ReplyPlace::Body { status, size };
                self.end_body(alloc, status, size)
            }
        }
    }

    /// Looks whether the body is whole.
    fn end_body(
        &mut self,
        alloc: Global,
        status: u16,
        size: usize,
    ) -> Result<Option<Replied>, ReplyFault>
        requires { self.old.place ≡ ReplyPlace.Body status size }
        ensures answers { (stream : List ℕ) → Begins stream status size self.old.held.items
            → Answers stream result }
        ensures stands { (stream : List ℕ) → Begins stream status size self.old.held.items
            → Continues self.new stream result }
    {
        let length = self.held.as_slice().len();
        if length < size {
            return Ok(None);
        }
        if size < length {
            return Err(ReplyFault::NotAReply);
        }
        self.place = ReplyPlace::Over;
        Ok(Some(Replied {
            status,
            body: Bytes::from_vec(mem::replace(&mut self.held, Vec::new(alloc))),
        }))
    }
}
