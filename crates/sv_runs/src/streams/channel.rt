//! What is kept of a channel: the stdout or the stderr of a run.
ghost use Rattle.std.specs.Prelude.{◌≡◌, ◌++◌, ℕ, List, [], IfOk, OnOk};
ghost use Rattle.sv_pipes.specs.Kept.{logged_part};
ghost use Rattle.sv_runs.specs.Streams.StreamBook.{parts_last, parts_more};

use std::alloc::{AllocError, Global};
use sv_base::bytes::Bytes;
use sv_pipes::{Capture, Part};

/// What is kept of a channel: its undecided bytes where it is captured, and nothing elsewhere.
#[derive(Drop)]
pub struct Channel {
    capture: Option<Capture>,
}

impl Channel {
    ghost use Rattle.sv_runs.specs.Streams.StandsFor.{ReadsChannel};

    /// A channel without bytes, whose messages have at most so many; 0 is no capture.
    pub(crate) fn new(alloc: Global, limit: u64) -> Result<Channel, AllocError>
        ensures { IfOk result (λ x. ReadsChannel x limit []) }
    {
        if limit == 0 {
            Ok(Channel { capture: None })
        } else {
            let capture = Capture::new(alloc, limit)?;
            Ok(Channel {
                capture: Some(capture),
            })
        }
    }

    /// Takes the next bytes of the channel, and gives the parts that they decide.
    pub(crate) fn feed(&mut self, alloc: Global, piece: &[u8]) -> Result<Vec<Part>, AllocError>
        ensures kept { OnOk result ((limit : ℕ) (stream : List ℕ)
            → ReadsChannel self.old limit stream
            → ReadsChannel self.new limit (stream ++ piece.now)) }
        ensures parts { IfOk result (λ parts. (limit : ℕ) (stream : List ℕ)
            → ReadsChannel self.old limit stream
            → parts.items ≡ parts_more limit stream piece.now) }
    {
        match &mut self.capture {
            None => logged(alloc, piece),
            Some(capture) => {
                let parts = capture.feed(alloc, piece)?;
                Ok(parts)
            }
        }
    }

    /// Gives the parts that the end of the channel decides, and stays as it is.
    pub(crate) fn close(&mut self, alloc: Global) -> Result<Vec<Part>, AllocError>
        ensures kept { OnOk result (self.new ≡ self.old) }
        ensures parts { IfOk result (λ parts. (limit : ℕ) (stream : List ℕ)
            → ReadsChannel self.old limit stream → parts.items ≡ parts_last limit stream) }
    {
        match &mut self.capture {
            None => Ok(Vec::new(alloc)),
            Some(capture) => {
                let parts = capture.close(alloc)?;
                Ok(parts)
            }
        }
    }
}

/// A part with a copy of these bytes, where there are some.
fn logged(alloc: Global, piece: &[u8]) -> Result<Vec<Part>, AllocError>
    ensures { IfOk result (λ parts. parts.items ≡ logged_part piece.now) }
{
    let mut parts = Vec::new(alloc);
    if !piece.is_empty() {
        parts.push(Part::Logged(Bytes::from_slice(alloc, piece)?))?;
    }
    Ok(parts)
}
