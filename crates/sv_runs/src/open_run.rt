//! What is kept of a run that isn't over.
ghost use Rattle.std.specs.Prelude.{◌≡◌, ℕ, IfOk, OnOk, Some, false};
ghost use Rattle.sv_runs.specs.RunBook.{RunRecord, ends, ends_pipe, gets, is_over, living_of};
ghost use Rattle.sv_runs.specs.RunBook.{loses, may_get, new_run, says, teller_of, tokens_by};

use std::alloc::{AllocError, Global};
use sv_base::state::Stream;
use sv_pipes::{ListenerTalk, TalkState, Token};

/// A run that isn't over.
#[derive(Drop)]
pub struct OpenRun {
    /// The place of its process in the start order.
    pub(crate) child: usize,
    pub(crate) pid: u32,
    pub(crate) ended: bool,
    pub(crate) out_ended: bool,
    pub(crate) err_ended: bool,
    /// What a listener says, as long as it counts as one.
    pub(crate) talk: Option<ListenerTalk>,
}

impl OpenRun {
    ghost use Rattle.sv_runs.specs.StandsFor.{Keeps};

    /// A run that begins.
    pub(crate) fn new(alloc: Global, child: usize, pid: u32, is_listener: bool) -> OpenRun
        ensures { (number : ℕ) → Keeps result (new_run number child pid is_listener) }
    {
        if is_listener {
            OpenRun::with_talk(child, pid, Some(ListenerTalk::new(alloc)))
        } else {
            OpenRun::with_talk(child, pid, None)
        }
    }

    fn with_talk(child: usize, pid: u32, talk: Option<ListenerTalk>) -> OpenRun
        ensures { result ≡ record {
          child = child;
          pid = pid;
          ended = false;
          out_ended = false;
          err_ended = false;
          talk = talk;
        } }
    {
        OpenRun {
            child,
            pid,
            ended: false,
            out_ended: false,
            err_ended: false,
            talk,
        }
    }

    /// Whether its process and both its pipes ended.
    pub(crate) fn is_over(&self) -> bool
        ensures { (r : RunRecord) → Keeps self.now r → result ≡ is_over r }
    {
        self.ended && self.out_ended && self.err_ended
    }

    /// Its child, if its process hasn't ended.
    pub(crate) fn living(&self) -> Option<usize>
        ensures { (r : RunRecord) → Keeps self.now r → result ≡ living_of (Some r) }
    {
        if self.ended { None } else { Some(self.child) }
    }

    /// Its process number.
    pub(crate) fn pid(&self) -> u32
        ensures { (r : RunRecord) → Keeps self.now r → result ≡ r.pid }
    {
        self.pid
    }

    /// Its child, if it is a listener that is talking.
    pub(crate) fn teller(&self) -> Option<usize>
        ensures { (r : RunRecord) → Keeps self.now r → result ≡ teller_of (Some r) }
    {
        match &self.talk {
            Some(_) if !self.out_ended => Some(self.child),
            _ => None,
        }
    }

    /// Whether it is a listener that waits for an event.
    pub(crate) fn is_ready(&self) -> bool
        ensures { (r : RunRecord) → Keeps self.now r → result ≡ may_get r }
    {
        match &self.talk {
            None => false,
            Some(talk) => talk.state() == TalkState::Ready,
        }
    }

    /// Puts the mark of an event that was sent, if it waits for one.
    pub(crate) fn sent(&mut self)
        ensures { (r : RunRecord) → Keeps self.old r → Keeps self.new (gets r) }
    {
        if let Some(talk) = &mut self.talk {
            if talk.state() == TalkState::Ready {
                talk.sent();
            }
        }
    }

    /// Takes the next bytes of its standard output, and gives the tokens that they end.
    pub(crate) fn hear(&mut self, alloc: Global, piece: &[u8]) -> Result<Vec<Token>, AllocError>
        ensures kept { OnOk result ((r : RunRecord) → Keeps self.old r
            → Keeps self.new (says piece.now r)) }
        ensures told { IfOk result (λ told. (r : RunRecord) → Keeps self.old r
            → told.items ≡ tokens_by (Some r) piece.now) }
    {
        match &mut self.talk {
            Some(talk) if !self.out_ended => talk.feed(alloc, piece),
            _ => Ok(Vec::new(alloc)),
        }
    }

    /// Its process ended.
    pub(crate) fn end_process(&mut self)
        ensures { (r : RunRecord) → Keeps self.old r → Keeps self.new (ends r) }
    {
        self.ended = true;
        self.talk = None;
    }

    /// One of its pipes ended.
    pub(crate) fn end_pipe(&mut self, stream: Stream)
        ensures { (r : RunRecord) → Keeps self.old r → Keeps self.new (ends_pipe stream r) }
    {
        match stream {
            Stream::Out => self.out_ended = true,
            Stream::Err => self.err_ended = true,
        }
    }

    /// A write to it failed while it held an event.
    pub(crate) fn lose(&mut self)
        ensures { (r : RunRecord) → Keeps self.old r → Keeps self.new (loses r) }
    {
        self.talk = None;
    }
}
