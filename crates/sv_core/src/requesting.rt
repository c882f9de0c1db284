//! The requests of a method that acts, up to a question.
ghost use Rattle.std.specs.Prelude.{◌≡◌, IfOk, OnOk, drop, slice_get};
ghost use Rattle.sv_core.specs.Frames.{Makes, MovesOn, Stops};
ghost use Rattle.sv_core.specs.Left.{acting, clearing, starting, wanting, wanting_answered};
ghost use Rattle.sv_core.specs.Requests.{carries_if, carries_request, clear_answered};
ghost use Rattle.sv_core.specs.Requests.{clear_setback, clears_all, does_all, does_next};
ghost use Rattle.sv_core.specs.Requests.{empties_if, is_empty, run_of, spawns_for, start_answered};
ghost use Rattle.sv_core.specs.Requests.{start_fails, start_setback, starts, starts_by};
ghost use Rattle.sv_core.specs.Requests.{starts_deed, tells_call, writes};

use crate::machine::Machine;
use crate::part::Reply;
use crate::place::{Acting, Asked, Clearing, Wanting};
use crate::sweeping::LAST_RUN;
use std::alloc::AllocError;
use sv_base::bytes::Bytes;
use sv_base::ids::{LinkId, Run};
use sv_base::items::Items;
use sv_base::kind::Kind;
use sv_base::text::Text;
use sv_calls::Setback;
use sv_child::step::ChildDeed;
use sv_children::News;
use sv_events::Fact;
use sv_methods::Request;
use sv_out::order::Order;

/// What the answer of a spawn tells the call that asked for it.
fn start_setback(reply: &Reply) -> Option<Setback>
    ensures { result ≡ start_setback reply.now }
{
    match reply {
        Reply::Started(_) => None,
        Reply::NoFile => Some(Setback::NoFile),
        Reply::NotExecutable => Some(Setback::NotExecutable),
        _ => Some(Setback::NotStarted),
    }
}

/// Whether a file was cleared, or wasn't there.
fn is_empty(reply: &Reply) -> bool
    ensures { result ≡ is_empty reply.now }
{
    matches!(reply, Reply::Done | Reply::Missing)
}

/// What the answer of a clear tells the call that asked for it.
fn clear_setback(reply: &Reply) -> Option<Setback>
    ensures { result ≡ clear_setback reply.now }
{
    match reply {
        Reply::Done => None,
        Reply::Missing => Some(Setback::NoLog),
        _ => Some(Setback::NotCleared),
    }
}

/// The file in this place of a list.
fn file_at(files: &[Text], place: usize) -> Result<Option<Text>, AllocError>
    ensures { IfOk result (λ file. file ≡ slice_get files.now place) }
{
    match files.get(place) {
        None => Ok(None),
        Some(file) => Ok(Some(file.clone()?)),
    }
}

impl Machine {
    /// What went wrong with the request in hand is told to the call of a link, if something did.
    fn tell_call(&mut self, link: LinkId, setback: Option<Setback>)
        ensures kept { self.new ≡ record self.old { calls = self.new.calls } }
        ensures tells { Makes (tells_call link setback) self.old self.new }
    {
        match setback {
            None => {}
            Some(setback) => self.calls.set_back(self.alloc, link, setback),
        }
    }

    /// The spawn of a child for the call of a link is answered.
    fn answer_start(&mut self, link: LinkId, asked: Asked, reply: Reply) -> Result<(), AllocError>
        ensures kept { MovesOn self.old self.new }
        ensures answered { OnOk result
            (Makes (start_answered link asked.child asked.run reply) self.old self.new) }
    {
        let setback = start_setback(&reply);
        self.answer(asked, reply)?;
        self.tell_call(link, setback);
        Ok(())
    }

    /// No number is left for a run: the start fails.
    fn fail_start(&mut self, link: LinkId, child: usize) -> Result<(), AllocError>
        ensures kept { MovesOn self.old self.new }
        ensures fails { OnOk result (Makes (start_fails link child) self.old self.new) }
    {
        let nobody = Asked { child, run: Run(0) };
        self.answer(nobody, Reply::Refused(Text::fixed("failed")))?;
        self.tell_call(link, Some(Setback::NotStarted));
        Ok(())
    }

    /// Orders the spawn of a child for the call of a link, which is a question; where no number is left for a run, it fails.
    fn spawn_for(&mut self, link: LinkId, child: usize) -> Result<Option<Asked>, AllocError>
        ensures kept { MovesOn self.old self.new }
        ensures spawns { IfOk result (λ asked.
            Stops (spawns_for link child) (starting link asked) self.old self.new) }
    {
        if self.numbers.next_run > LAST_RUN {
            self.fail_start(link, child)?;
            return Ok(None);
        }
        let run = Run(self.numbers.next_run as u32);
        match self.children.spawn_order(child, run)? {
            None => Ok(None),
            Some(spawning) => {
                self.hand.given.push(Order::Spawn(spawning))?;
                self.numbers.next_run += 1;
                Ok(Some(Asked { child, run }))
            }
        }
    }

    /// Orders the spawn that a start asks for.
    fn start_deed(
        &mut self,
        link: LinkId,
        child: usize,
        deed: ChildDeed,
    ) -> Result<Option<Asked>, AllocError>
        ensures kept { MovesOn self.old self.new }
        ensures starts { IfOk result (λ asked.
            Stops (starts_deed link deed child) (starting link asked) self.old self.new) }
    {
        match deed {
            ChildDeed::Spawn => {
                let asked = self.spawn_for(link, child)?;
                Ok(asked)
            }
            ChildDeed::Kill(_, _) => Ok(None),
        }
    }

    /// The same, if a start asks for one.
    fn start_by(
        &mut self,
        link: LinkId,
        child: usize,
        deed: Option<ChildDeed>,
    ) -> Result<Option<Asked>, AllocError>
        ensures kept { MovesOn self.old self.new }
        ensures starts { IfOk result (λ asked.
            Stops (starts_by link deed child) (starting link asked) self.old self.new) }
    {
        match deed {
            None => Ok(None),
            Some(deed) => {
                let asked = self.start_deed(link, child, deed)?;
                Ok(asked)
            }
        }
    }

    /// Starts the child of a place for the call of a link.
    fn start(&mut self, link: LinkId, child: usize) -> Result<Option<Asked>, AllocError>
        ensures kept { MovesOn self.old self.new }
        ensures starts { IfOk result (λ asked.
            Stops (starts link child) (starting link asked) self.old self.new) }
    {
        let deed = self.bring(&News::Start, child)?;
        let asked = self.start_by(link, child, deed)?;
        Ok(asked)
    }

    /// The same, as a request that asks a question or not.
    fn want_start(&mut self, link: LinkId, child: usize) -> Result<Option<Wanting>, AllocError>
        ensures kept { MovesOn self.old self.new }
        ensures starts { IfOk result (λ left.
            Stops (starts link child) (wanting link left) self.old self.new) }
    {
        match self.start(link, child)? {
            None => Ok(None),
            Some(asked) => Ok(Some(Wanting::Start(asked))),
        }
    }

    /// The run of the child of a place, if it has one.
    fn run_of(&self, child: usize) -> Option<Run>
        ensures { result ≡ run_of (slice_get self.now.children.all child) }
    {
        match self.children.as_slice().get(child) {
            None => None,
            Some(child) => child.run,
        }
    }

    /// Bytes are written to the run of the child of a place.
    fn write(&mut self, child: usize, bytes: Bytes) -> Result<(), AllocError>
        ensures kept { MovesOn self.old self.new }
        ensures writes { OnOk result (Makes (writes child bytes) self.old self.new) }
    {
        match self.run_of(child) {
            None => Ok(()),
            Some(run) => {
                self.hand.given.push(Order::Stdin { run, bytes })?;
                Ok(())
            }
        }
    }

    /// The known size of a file is 0, if it is empty.
    fn empty_if(&mut self, file: &Text, is_empty: bool)
        ensures kept { self.new ≡ record self.old { sizes = self.new.sizes } }
        ensures empties { Makes (empties_if file.now is_empty) self.old self.new }
    {
        if is_empty {
            self.sizes.clear(file);
        }
    }

    /// The clear of a file for the call of a link is answered.
    fn answer_clear(&mut self, link: LinkId, file: &Text, reply: &Reply)
        ensures kept { self.new ≡ record self.old {
          calls = self.new.calls;
          sizes = self.new.sizes;
        } }
        ensures answered { Makes (clear_answered link file.now reply.now) self.old self.new }
    {
        self.empty_if(file, is_empty(reply));
        self.tell_call(link, clear_setback(reply));
    }

    /// The files from a place on are cleared, up to a question.
    fn clear_all(
        &mut self,
        link: LinkId,
        files: Items<Text>,
        from: usize,
    ) -> Result<Option<Clearing>, AllocError>
        ensures kept { MovesOn self.old self.new }
        ensures clears { IfOk result (λ left.
            Stops (clears_all link (drop from files)) (clearing link left) self.old self.new) }
    {
        match file_at(files.as_slice(), from)? {
            None => Ok(None),
            Some(file) => {
                let asked = file.clone()?;
                self.hand.given.push(Order::ClearFile { file: asked })?;
                let next = from + 1;
                Ok(Some(Clearing { file, files, next }))
            }
        }
    }

    /// The same, as a request that asks a question or not.
    fn want_clears(
        &mut self,
        link: LinkId,
        files: Items<Text>,
        from: usize,
    ) -> Result<Option<Wanting>, AllocError>
        ensures kept { MovesOn self.old self.new }
        ensures clears { IfOk result (λ left.
            Stops (clears_all link (drop from files)) (wanting link left) self.old self.new) }
    {
        match self.clear_all(link, files, from)? {
            None => Ok(None),
            Some(clearing) => Ok(Some(Wanting::Clear(clearing))),
        }
    }

    /// A request is carried out for the call of a link, up to a question.
    fn carry_request(
        &mut self,
        link: LinkId,
        request: Request,
    ) -> Result<Option<Wanting>, AllocError>
        ensures kept { MovesOn self.old self.new }
        ensures carries { IfOk result (λ left.
            Stops (carries_request link request) (wanting link left) self.old self.new) }
    {
        match request {
            Request::Start(child) => {
                let wanting = self.want_start(link, child.0 as usize)?;
                Ok(wanting)
            }
            Request::Stop(child) => {
                self.stop(child.0 as usize)?;
                Ok(None)
            }
            Request::Kill(child, signal) => {
                self.kill(child.0 as usize, signal, false)?;
                Ok(None)
            }
            Request::Stdin(child, bytes) => {
                self.write(child.0 as usize, bytes)?;
                Ok(None)
            }
            Request::Remote(sort, bytes) => {
                self.offer(Kind::RemoteCommunication, &Fact::Remote { sort, bytes })?;
                Ok(None)
            }
            Request::Clear(files) => {
                let wanting = self.want_clears(link, files, 0)?;
                Ok(wanting)
            }
            Request::Shutdown => {
                self.begin_shutdown()?;
                Ok(None)
            }
        }
    }

    /// The next request of the call of a link is carried out, if there is one.
    fn do_next(&mut self, link: LinkId) -> Result<Option<Wanting>, AllocError>
        ensures kept { MovesOn self.old self.new }
        ensures does { IfOk result (λ left.
            Stops (does_next link) (wanting link left) self.old self.new) }
    {
        match self.calls.take_request(link) {
            None => Ok(None),
            Some(request) => {
                let wanting = self.carry_request(link, request)?;
                Ok(wanting)
            }
        }
    }

    /// So many requests of the call of a link, up to a question.
    pub(crate) fn do_all(
        &mut self,
        link: LinkId,
        count: usize,
    ) -> Result<Option<Acting>, AllocError>
        ensures kept { MovesOn self.old self.new }
        ensures does { IfOk result (λ left.
            Stops (does_all count link) (acting link left) self.old self.new) }
    {
        let mut left = count;
        while left > 0 {
            left -= 1;
            match self.do_next(link)? {
                None => {}
                Some(wanting) => return Ok(Some(Acting { wanting, left })),
            }
        }
        Ok(None)
    }

    /// A request of the call of a link goes on with the answer of its question.
    pub(crate) fn go_on_wanting(
        &mut self,
        link: LinkId,
        left: Wanting,
        reply: Reply,
    ) -> Result<Option<Wanting>, AllocError>
        ensures kept { MovesOn self.old self.new }
        ensures goes { IfOk result (λ now.
            Stops (wanting_answered link left reply) (wanting link now) self.old self.new) }
    {
        match left {
            Wanting::Start(asked) => {
                self.answer_start(link, asked, reply)?;
                Ok(None)
            }
            Wanting::Clear(clearing) => {
                let Clearing { file, files, next } = clearing;
                self.answer_clear(link, &file, &reply);
                let wanting = self.want_clears(link, files, next)?;
                Ok(wanting)
            }
        }
    }
}
