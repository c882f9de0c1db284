//! What processes write on their pipes.
ghost use Rattle.std.specs.Prelude.{◌≡◌, IfOk, OnOk};
ghost use Rattle.sv_children.specs.Crew.{member_at};
ghost use Rattle.sv_core.specs.Frames.{GivesOrders, HearsListeners, Makes};
ghost use Rattle.sv_core.specs.Output.{ends_pipe, hears_on, log_fact, log_kind, log_of, logs_at};
ghost use Rattle.sv_core.specs.Output.{message_fact, message_kind, says_on, takes_all, takes_part};
ghost use Rattle.sv_core.specs.Output.{takes_parts};

use crate::machine::Machine;
use std::alloc::AllocError;
use sv_base::bytes::{Bytes, Piece};
use sv_base::ids::Run;
use sv_base::kind::Kind;
use sv_base::spec::{LogSpec, Spec};
use sv_base::state::Stream;
use sv_children::Children;
use sv_events::Fact;
use sv_pipes::Part;
use sv_runs::streams::Owner;

fn log_of(channel: Stream, spec: &Spec) -> &LogSpec
    ensures { result.now ≡ log_of channel spec.now }
{
    match channel {
        Stream::Out => &spec.stdout,
        Stream::Err => &spec.stderr,
    }
}

fn log_kind(channel: Stream) -> Kind
    ensures { result ≡ log_kind channel }
{
    match channel {
        Stream::Out => Kind::ProcessLogStdout,
        Stream::Err => Kind::ProcessLogStderr,
    }
}

fn message_kind(channel: Stream) -> Kind
    ensures { result ≡ message_kind channel }
{
    match channel {
        Stream::Out => Kind::ProcessCommunicationStdout,
        Stream::Err => Kind::ProcessCommunicationStderr,
    }
}

/// What the event of a logged piece tells of the process of a place, where its log asks for it.
fn log_fact(
    children: &Children,
    owner: Owner,
    channel: Stream,
    bytes: &Bytes,
) -> Result<Option<Fact>, AllocError>
    ensures { IfOk result (λ fact. fact
        ≡ log_fact owner.pid channel (member_at children.now owner.child) bytes.now) }
{
    match children.member(owner.child) {
        None => Ok(None),
        Some(member) => {
            if !log_of(channel, member.spec).events {
                return Ok(None);
            }
            Ok(Some(Fact::Log {
                name: member.spec.name.clone()?,
                group: member.group.name.clone()?,
                pid: owner.pid,
                stream: channel,
                bytes: bytes.clone()?,
            }))
        }
    }
}

/// What the event of a message tells of the process of a place.
fn message_fact(
    children: &Children,
    owner: Owner,
    bytes: &Bytes,
) -> Result<Option<Fact>, AllocError>
    ensures { IfOk result (λ fact. fact
        ≡ message_fact owner.pid (member_at children.now owner.child) bytes.now) }
{
    match children.member(owner.child) {
        None => Ok(None),
        Some(member) => Ok(Some(Fact::Communication {
            name: member.spec.name.clone()?,
            group: member.group.name.clone()?,
            pid: owner.pid,
            bytes: bytes.clone()?,
        })),
    }
}

impl Machine {
    /// Adds bytes to the log of a channel of the process of a place.
    fn log_of(&mut self, channel: Stream, child: usize, bytes: &Bytes) -> Result<(), AllocError>
        ensures kept { GivesOrders self.old self.new }
        ensures logs { OnOk result
            (Makes (logs_at channel child bytes.now) self.old self.new) }
    {
        match self.children.member(child) {
            None => Ok(()),
            Some(member) => {
                self.sizes.append(
                    self.alloc,
                    log_of(channel, member.spec),
                    bytes.as_slice(),
                    &mut self.hand.given,
                )?;
                Ok(())
            }
        }
    }

    /// A part of what a process wrote: bytes are logged, and then offered as an event; a message is offered alone.
    fn take_part(&mut self, owner: Owner, channel: Stream, part: &Part) -> Result<(), AllocError>
        ensures kept { GivesOrders self.old self.new }
        ensures takes { OnOk result (Makes (takes_part owner channel part.now) self.old self.new) }
    {
        match part {
            Part::Logged(bytes) => {
                let fact = log_fact(&self.children, owner, channel, bytes)?;
                self.log_of(channel, owner.child, bytes)?;
                self.offer_if(log_kind(channel), fact)?;
                Ok(())
            }
            Part::Message(bytes) => {
                let fact = message_fact(&self.children, owner, bytes)?;
                self.offer_if(message_kind(channel), fact)?;
                Ok(())
            }
        }
    }

    /// And so one after the other.
    fn take_parts(
        &mut self,
        owner: Owner,
        channel: Stream,
        parts: &[Part],
    ) -> Result<(), AllocError>
        ensures kept { GivesOrders self.old self.new }
        ensures takes { OnOk result
            (Makes (takes_parts owner channel parts.now) self.old self.new) }
    {
        match parts {
            [] => Ok(()),
            [part, rest @ ..] => {
                self.take_part(owner, channel, part)?;
                self.take_parts(owner, channel, rest)?;
                Ok(())
            }
        }
    }

    /// What the parts of a run give, of which a pipe is open.
    fn take_all(
        &mut self,
        owner: Option<Owner>,
        channel: Option<Stream>,
        parts: &[Part],
    ) -> Result<(), AllocError>
        ensures kept { GivesOrders self.old self.new }
        ensures takes { OnOk result (Makes (takes_all owner channel parts.now) self.old self.new) }
    {
        match owner {
            None => Ok(()),
            Some(owner) => match channel {
                None => Ok(()),
                Some(channel) => {
                    self.take_parts(owner, channel, parts)?;
                    Ok(())
                }
            },
        }
    }

    /// A listener says it, on its stdout.
    fn say_on(&mut self, pipe: Stream, run: Run, piece: &Piece) -> Result<(), AllocError>
        ensures kept { HearsListeners self.old self.new }
        ensures says { OnOk result (Makes (says_on pipe run piece.now) self.old self.new) }
    {
        match pipe {
            Stream::Out => {
                self.listen(run, piece)?;
                Ok(())
            }
            Stream::Err => Ok(()),
        }
    }

    /// Bytes came on a pipe of a run: what they decide is logged and told, and then a listener's tokens are taken.
    pub(crate) fn hear_on(
        &mut self,
        pipe: Stream,
        run: Run,
        piece: &Piece,
    ) -> Result<(), AllocError>
        ensures kept { HearsListeners self.old self.new }
        ensures hears { OnOk result (Makes (hears_on pipe run piece.now) self.old self.new) }
    {
        let owner = self.streams.owner(run);
        let channel = self.streams.channel(run, pipe);
        let parts = self.streams.feed(self.alloc, run, pipe, piece.as_slice())?;
        self.take_all(owner, channel, parts.as_slice())?;
        self.say_on(pipe, run, piece)?;
        Ok(())
    }

    /// A pipe of a run ended: what that decides is logged.
    pub(crate) fn end_pipe(&mut self, run: Run, pipe: Stream) -> Result<(), AllocError>
        ensures kept { HearsListeners self.old self.new }
        ensures ends { OnOk result (Makes (ends_pipe run pipe) self.old self.new) }
    {
        let owner = self.streams.owner(run);
        let channel = self.streams.channel(run, pipe);
        let parts = self.streams.end(self.alloc, run, pipe)?;
        self.runs.end_pipe(run, pipe);
        self.take_all(owner, channel, parts.as_slice())?;
        Ok(())
    }
}
