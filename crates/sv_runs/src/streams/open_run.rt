//! What is kept of a run of which a pipe is open.
ghost use Rattle.std.specs.Prelude.{◌≡◌, ℕ, IfOk, OnOk};
ghost use Rattle.sv_runs.specs.Streams.StreamBook.{StreamRecord, channel_of, ends, has_ended, is_over};
ghost use Rattle.sv_runs.specs.Streams.StreamBook.{is_whole, joins, last_on, more_on, new_run, owner_of};
ghost use Rattle.sv_runs.specs.Streams.StreamBook.{parts_at_end, parts_by, parts_by_end, takes};

use crate::streams::channel::Channel;
use crate::streams::owner::Owner;
use std::alloc::{AllocError, Global};
use sv_base::state::Stream;
use sv_pipes::Part;

/// A run of which a pipe is open.
#[derive(Drop)]
pub struct OpenRun {
    pub(crate) owner: Owner,
    /// Whether what comes on its standard error counts as its standard output.
    pub(crate) redirect: bool,
    pub(crate) out: Channel,
    pub(crate) err: Channel,
    pub(crate) out_ended: bool,
    pub(crate) err_ended: bool,
}

impl OpenRun {
    ghost use Rattle.sv_runs.specs.Streams.StandsFor.{Keeps};

    /// A run that begins, with the most bytes of a message on each channel; 0 is no capture.
    pub(crate) fn new(
        alloc: Global,
        owner: Owner,
        redirect: bool,
        out_limit: u64,
        err_limit: u64,
    ) -> Result<OpenRun, AllocError>
        ensures { IfOk result (λ x. (number : ℕ)
            → Keeps x (new_run number owner.child owner.pid redirect out_limit err_limit)) }
    {
        let out = Channel::new(alloc, out_limit)?;
        let err = Channel::new(alloc, err_limit)?;
        Ok(OpenRun {
            owner,
            redirect,
            out,
            err,
            out_ended: false,
            err_ended: false,
        })
    }

    /// Whether both its pipes ended.
    pub(crate) fn is_over(&self) -> bool
        ensures { (s : StreamRecord) → Keeps self.now s → result ≡ is_over s }
    {
        self.out_ended && self.err_ended
    }

    /// Its process.
    pub(crate) fn owner(&self) -> Owner
        ensures { (s : StreamRecord) → Keeps self.now s → result ≡ owner_of s }
    {
        self.owner
    }

    /// The channel of a pipe.
    pub(crate) fn channel(&self, pipe: Stream) -> Stream
        ensures { (s : StreamRecord) → Keeps self.now s → result ≡ channel_of pipe s }
    {
        match pipe {
            Stream::Out => Stream::Out,
            Stream::Err => if self.redirect {
                Stream::Out
            } else {
                Stream::Err
            },
        }
    }

    fn has_ended(&self, pipe: Stream) -> bool
        ensures { (s : StreamRecord) → Keeps self.now s → result ≡ has_ended pipe s }
    {
        match pipe {
            Stream::Out => self.out_ended,
            Stream::Err => self.err_ended,
        }
    }

    fn is_whole(&self, channel: Stream) -> bool
        ensures { (s : StreamRecord) → Keeps self.now s → result ≡ is_whole channel s }
    {
        match channel {
            Stream::Out => self.out_ended && (self.err_ended || !self.redirect),
            Stream::Err => self.err_ended,
        }
    }

    /// A pipe is at its end.
    fn mark(&mut self, pipe: Stream)
        ensures { (s : StreamRecord) → Keeps self.old s → Keeps self.new (ends pipe s) }
    {
        match pipe {
            Stream::Out => self.out_ended = true,
            Stream::Err => self.err_ended = true,
        }
    }

    /// Gives bytes to a channel.
    fn join(
        &mut self,
        alloc: Global,
        channel: Stream,
        piece: &[u8],
    ) -> Result<Vec<Part>, AllocError>
        ensures kept { OnOk result ((s : StreamRecord) → Keeps self.old s
            → Keeps self.new (joins channel piece.now s)) }
        ensures parts { IfOk result (λ parts. (s : StreamRecord) → Keeps self.old s
            → parts.items ≡ more_on channel piece.now s) }
    {
        match channel {
            Stream::Out => self.out.feed(alloc, piece),
            Stream::Err => self.err.feed(alloc, piece),
        }
    }

    /// The parts that the end of a channel decides.
    fn close(&mut self, alloc: Global, channel: Stream) -> Result<Vec<Part>, AllocError>
        ensures kept { OnOk result (self.new ≡ self.old) }
        ensures parts { IfOk result (λ parts. (s : StreamRecord) → Keeps self.old s
            → parts.items ≡ last_on channel s) }
    {
        match channel {
            Stream::Out => self.out.close(alloc),
            Stream::Err => self.err.close(alloc),
        }
    }

    /// Takes the next bytes of a pipe, and gives the parts that they decide; none where the pipe ended.
    pub(crate) fn feed(
        &mut self,
        alloc: Global,
        pipe: Stream,
        piece: &[u8],
    ) -> Result<Vec<Part>, AllocError>
        ensures kept { OnOk result ((s : StreamRecord) → Keeps self.old s
            → Keeps self.new (takes pipe piece.now s)) }
        ensures parts { IfOk result (λ parts. (s : StreamRecord) → Keeps self.old s
            → parts.items ≡ parts_by pipe piece.now s) }
    {
        if self.has_ended(pipe) {
            Ok(Vec::new(alloc))
        } else {
            self.join(alloc, self.channel(pipe), piece)
        }
    }

    /// A pipe ended: gives the parts that this decides; none where it ended before.
    pub(crate) fn end(&mut self, alloc: Global, pipe: Stream) -> Result<Vec<Part>, AllocError>
        ensures kept { OnOk result ((s : StreamRecord) → Keeps self.old s
            → Keeps self.new (ends pipe s)) }
        ensures parts { IfOk result (λ parts. (s : StreamRecord) → Keeps self.old s
            → parts.items ≡ parts_by_end pipe s) }
    {
        if self.has_ended(pipe) {
            Ok(Vec::new(alloc))
        } else {
            self.mark(pipe);
            self.at_end(alloc, pipe)
        }
    }

    /// The parts that the end of a pipe decides, which has just been marked.
    fn at_end(&mut self, alloc: Global, pipe: Stream) -> Result<Vec<Part>, AllocError>
        ensures kept { OnOk result (self.new ≡ self.old) }
        ensures parts { IfOk result (λ parts. (s : StreamRecord) → Keeps self.old s
            → parts.items ≡ parts_at_end pipe s) }
    {
        let channel = self.channel(pipe);
        if self.is_whole(channel) {
            self.close(alloc, channel)
        } else {
            Ok(Vec::new(alloc))
        }
    }
}
