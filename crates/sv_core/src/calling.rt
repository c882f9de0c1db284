//! The calls of the links, up to a question.
ghost use Rattle.std.specs.Prelude.{◌≡◌, List, IfOk, OnOk, pos};
ghost use Rattle.std.specs.Option.{option_map};
ghost use Rattle.sv_calls.specs.Answers.Heard.{found_parts, request_view};
ghost use Rattle.sv_calls.specs.Answers.Served.{parts_in};
ghost use Rattle.sv_calls.specs.StandsFor.{answer_view};
ghost use Rattle.sv_core.specs.Calling.{acts_for, acts_left, answers_call, answers_if, begins_call};
ghost use Rattle.sv_core.specs.Calling.{begins_one, begins_part, begins_part_if, begins_several};
ghost use Rattle.sv_core.specs.Calling.{calls, calls_all, calls_left, calls_next, calls_parts};
ghost use Rattle.sv_core.specs.Calling.{checks_wait, comes_of, end_of_wait, ends_call, file_reply};
ghost use Rattle.sv_core.specs.Calling.{goes_on, read_answered, reads, replies, replies_if};
ghost use Rattle.sv_core.specs.Calling.{scene_of, takes_up};
ghost use Rattle.sv_core.specs.Frames.{AnswersCalls, Makes, MovesOn, Stops};
ghost use Rattle.sv_core.specs.Left.{acting_answered, acting_of, calling, calling_answered, going};
ghost use Rattle.sv_core.specs.Left.{going_answered, going_of, reading};
ghost use Rattle.sv_core.specs.StandsFor.{Shows};
ghost use Rattle.sv_core.specs.World.{World};
ghost use Rattle.sv_methods.specs.MethodTable.{planned};
ghost use Rattle.sv_methods.specs.Outcomes.{outcome};
ghost use Rattle.sv_methods.specs.Scenes.{scene};
ghost use Rattle.sv_calls.specs.Waits.{checked};
ghost use Rattle.sv_multi.specs.Views.{part_view};
ghost use Rattle.sv_out.specs.declared.order.Order.{Order};
ghost use Rattle.sv_xmlcall.specs.Trees.{Faults, call_view, reply_view};

use crate::machine::Machine;
use crate::part::Reply;
use crate::place::{Acting, Calling, Going};
use std::alloc::AllocError;
use sv_base::ids::LinkId;
use sv_base::items::Items;
use sv_base::text::Text;
use sv_calls::answers::{
    FileReply, Heard, LogRead, Sent, is_several, no_parts, parts_asked, read_back, say, subject_of,
};
use sv_calls::{Answer, check};
use sv_methods::{Planned, Request, Stand, Waiting, plan};
use sv_multi::Part;
use sv_out::order::Order;
use sv_xmlcall::{Answered, Call};

/// What became of a read.
fn file_reply(reply: Reply) -> FileReply
    ensures { result ≡ file_reply reply }
{
    match reply {
        Reply::Read(bytes) => FileReply::Part(bytes),
        Reply::Missing => FileReply::Missing,
        _ => FileReply::Failed,
    }
}

/// A fault as an answer.
fn faulted(number: u32, text: Text) -> Answered
    ensures { reply_view result ≡ Faults (pos number) text }
{
    Answered::Fault(i64::from(number), text)
}

impl Machine {
    /// What a method may look at now.
    fn stand(&self) -> Stand<'_>
        ensures { (older : List Order) (w : World) → Shows self.now older w
            → scene result ≡ scene_of w }
    {
        Stand {
            mood: self.course.mood,
            pid: self.pid,
            config: &self.config,
            roster: self.children.roster(),
            children: self.children.as_slice(),
            closed: self.runs.closed(),
            sizes: self.sizes.as_slice(),
        }
    }

    /// What a call is planned to do now.
    fn plan(&self, call: &Call) -> Result<Planned, AllocError>
        ensures { IfOk result (λ plan. (older : List Order) (w : World) → Shows self.now older w
            → outcome plan ≡ planned (scene_of w) (call_view call.now) w.moment) }
    {
        let stand = self.stand();
        let planned = plan(self.alloc, &stand, call, self.hand.moment)?;
        Ok(planned)
    }

    /// What ends the wait of a call now; none while it goes on.
    fn check(&self, waiting: &Waiting) -> Result<Option<Answered>, AllocError>
        ensures { IfOk result (λ answered. (older : List Order) (w : World)
            → Shows self.now older w
            → option_map reply_view answered ≡ checked (scene_of w) waiting.now) }
    {
        let stand = self.stand();
        let answered = check(self.alloc, &stand, waiting)?;
        Ok(answered)
    }

    /// The request in hand of a link is answered.
    fn reply(&mut self, link: LinkId, sent: Sent) -> Result<(), AllocError>
        ensures kept { AnswersCalls self.old self.new }
        ensures replies { OnOk result (Makes (replies link sent) self.old self.new) }
    {
        let Sent { text, closes } = sent;
        if self.links.answer(link, closes) {
            self.hand.given.push(Order::Send { link, bytes: text })?;
            if closes {
                self.hand.given.push(Order::Close { link })?;
            }
        }
        Ok(())
    }

    /// What a call is answered, where that is its reply.
    fn reply_if(&mut self, link: LinkId, answer: Option<Answer>) -> Result<(), AllocError>
        ensures kept { AnswersCalls self.old self.new }
        ensures replies { OnOk result
            (Makes (replies_if link (option_map answer_view answer)) self.old self.new) }
    {
        match answer {
            None => Ok(()),
            Some(answer) => {
                let sent = say(self.alloc, answer.close, &answer.answered)?;
                self.reply(link, sent)?;
                Ok(())
            }
        }
    }

    /// The call of a link is answered.
    fn answer_call(&mut self, link: LinkId, answered: Answered) -> Result<(), AllocError>
        ensures kept { AnswersCalls self.old self.new }
        ensures answers { OnOk result
            (Makes (answers_call link (reply_view answered)) self.old self.new) }
    {
        let answer = self.calls.answer(self.alloc, link, answered)?;
        self.reply_if(link, answer)?;
        Ok(())
    }

    /// Several calls in one are answered, once all of them were.
    fn end_call(&mut self, link: LinkId) -> Result<(), AllocError>
        ensures kept { AnswersCalls self.old self.new }
        ensures ends { OnOk result (Makes (ends_call link) self.old self.new) }
    {
        let answer = self.calls.finish(link)?;
        self.reply_if(link, answer)?;
        Ok(())
    }

    /// What ends the wait of the call of a link now, if it waits and the wait has ended.
    fn end_of_wait(&self, link: LinkId) -> Result<Option<Answered>, AllocError>
        ensures { IfOk result (λ answered. (older : List Order) (w : World)
            → Shows self.now older w
            → option_map reply_view answered ≡ end_of_wait link w) }
    {
        match self.calls.waiting(link) {
            None => Ok(None),
            Some(waiting) => {
                let answered = self.check(waiting)?;
                Ok(answered)
            }
        }
    }

    /// The wait of the call of a link is looked at, if it waits.
    fn check_wait(&mut self, link: LinkId) -> Result<(), AllocError>
        ensures kept { AnswersCalls self.old self.new }
        ensures checks { OnOk result (Makes (checks_wait link) self.old self.new) }
    {
        match self.end_of_wait(link)? {
            None => Ok(()),
            Some(answered) => {
                self.answer_call(link, answered)?;
                Ok(())
            }
        }
    }

    /// A part of a log was read for the call of a link, or not.
    fn answer_read(
        &mut self,
        link: LinkId,
        reading: &LogRead,
        reply: Reply,
    ) -> Result<(), AllocError>
        ensures kept { AnswersCalls self.old self.new }
        ensures answered { OnOk result
            (Makes (read_answered link reading.now reply) self.old self.new) }
    {
        let answered = read_back(self.alloc, reading, &file_reply(reply))?;
        self.answer_call(link, answered)?;
        Ok(())
    }

    /// A part of a log is asked for.
    fn read(&mut self, link: LinkId, part: LogRead) -> Result<Option<LogRead>, AllocError>
        ensures kept { AnswersCalls self.old self.new }
        ensures reads { IfOk result (λ left.
            Stops (reads link part) (reading link left) self.old self.new) }
    {
        let file = part.file.clone()?;
        let start = part.span.start;
        let length = part.span.length;
        self.hand.given.push(Order::ReadFile {
            file,
            start,
            length,
        })?;
        Ok(Some(part))
    }

    /// So many requests of the call of a link are carried out, up to a question, and then its wait is looked at.
    fn act_left(&mut self, link: LinkId, left: usize) -> Result<Option<Acting>, AllocError>
        ensures kept { MovesOn self.old self.new }
        ensures acts { IfOk result (λ now.
            Stops (acts_left left link) (acting_of link now) self.old self.new) }
    {
        match self.do_all(link, left)? {
            Some(acting) => Ok(Some(acting)),
            None => {
                self.check_wait(link)?;
                Ok(None)
            }
        }
    }

    /// A method that acts is carried out for the call of a link.
    fn act_for(
        &mut self,
        link: LinkId,
        requests: Items<Request>,
        waiting: Waiting,
    ) -> Result<Option<Acting>, AllocError>
        ensures kept { MovesOn self.old self.new }
        ensures acts { IfOk result (λ now.
            Stops (acts_for link requests waiting) (acting_of link now) self.old self.new) }
    {
        let count = requests.as_slice().len();
        self.calls.act(link, requests, waiting);
        let acting = self.act_left(link, count)?;
        Ok(acting)
    }

    /// A call of a link is answered, or what it is planned to do is done, up to a question.
    fn come_of(
        &mut self,
        link: LinkId,
        subject: Option<Text>,
        planned: Planned,
    ) -> Result<Option<Calling>, AllocError>
        ensures kept { MovesOn self.old self.new }
        ensures comes { IfOk result (λ now.
            Stops (comes_of link subject (outcome planned)) (calling link now)
            self.old self.new) }
    {
        match planned {
            Planned::Now(value) => {
                self.answer_call(link, Answered::Value(value))?;
                Ok(None)
            }
            Planned::Fault(number, text) => {
                self.answer_call(link, faulted(number, text))?;
                Ok(None)
            }
            Planned::Do(requests, waiting) => match self.act_for(link, requests, waiting)? {
                None => Ok(None),
                Some(acting) => Ok(Some(Calling::Act(acting))),
            },
            Planned::Read(file, span, shape) => {
                let reading = LogRead {
                    file,
                    span,
                    shape,
                    subject,
                };
                match self.read(link, reading)? {
                    None => Ok(None),
                    Some(reading) => Ok(Some(Calling::Read(reading))),
                }
            }
        }
    }

    /// A call of a link is answered, or carried out, by the table of methods.
    fn call(&mut self, link: LinkId, call: &Call) -> Result<Option<Calling>, AllocError>
        ensures kept { MovesOn self.old self.new }
        ensures calls { IfOk result (λ now.
            Stops (calls link (call_view call.now)) (calling link now) self.old self.new) }
    {
        let planned = self.plan(call)?;
        let subject = subject_of(call)?;
        let calling = self.come_of(link, subject, planned)?;
        Ok(calling)
    }

    /// A part of several calls in one is begun.
    fn begin_part(&mut self, link: LinkId, part: Part) -> Result<Option<Calling>, AllocError>
        ensures kept { MovesOn self.old self.new }
        ensures begins { IfOk result (λ now.
            Stops (begins_part link (part_view part)) (calling link now) self.old self.new) }
    {
        match part {
            Part::Call(call) => {
                let calling = self.call(link, &call)?;
                Ok(calling)
            }
            Part::Fault(number, text) => {
                self.answer_call(link, faulted(number, text))?;
                Ok(None)
            }
        }
    }

    /// If there is one.
    fn begin_part_if(
        &mut self,
        link: LinkId,
        part: Option<Part>,
    ) -> Result<Option<Calling>, AllocError>
        ensures kept { MovesOn self.old self.new }
        ensures begins { IfOk result (λ now.
            Stops (begins_part_if link (option_map part_view part)) (calling link now)
            self.old self.new) }
    {
        match part {
            None => Ok(None),
            Some(part) => {
                let calling = self.begin_part(link, part)?;
                Ok(calling)
            }
        }
    }

    /// The next part of the call of a link is begun, if the one before is answered.
    fn call_next(&mut self, link: LinkId) -> Result<Option<Calling>, AllocError>
        ensures kept { MovesOn self.old self.new }
        ensures calls { IfOk result (λ now.
            Stops (calls_next link) (calling link now) self.old self.new) }
    {
        let part = self.calls.take_part(link);
        let calling = self.begin_part_if(link, part)?;
        Ok(calling)
    }

    /// So many parts of the call of a link, up to a question.
    fn call_all(&mut self, link: LinkId, count: usize) -> Result<Option<Going>, AllocError>
        ensures kept { MovesOn self.old self.new }
        ensures calls { IfOk result (λ now.
            Stops (calls_all count link) (going link now) self.old self.new) }
    {
        let mut left = count;
        while left > 0 {
            left -= 1;
            match self.call_next(link)? {
                None => {}
                Some(calling) => return Ok(Some(Going { calling, left })),
            }
        }
        Ok(None)
    }

    /// So many parts of the call of a link, up to a question, and then all of them are answered, if they were.
    fn call_left(&mut self, link: LinkId, left: usize) -> Result<Option<Going>, AllocError>
        ensures kept { MovesOn self.old self.new }
        ensures calls { IfOk result (λ now.
            Stops (calls_left left link) (going_of link now) self.old self.new) }
    {
        match self.call_all(link, left)? {
            Some(going) => Ok(Some(going)),
            None => {
                self.end_call(link)?;
                Ok(None)
            }
        }
    }

    /// The parts of the call of a link that aren't begun, up to a question.
    fn call_parts(&mut self, link: LinkId) -> Result<Option<Going>, AllocError>
        ensures kept { MovesOn self.old self.new }
        ensures calls { IfOk result (λ now.
            Stops (calls_parts link) (going_of link now) self.old self.new) }
    {
        let left = self.calls.parts_left(link);
        let going = self.call_left(link, left)?;
        Ok(going)
    }

    /// The wait of the call of a link is looked at, and then it goes on, up to a question.
    pub(crate) fn go_on_calling(&mut self, link: LinkId) -> Result<Option<Going>, AllocError>
        ensures kept { MovesOn self.old self.new }
        ensures goes { IfOk result (λ now.
            Stops (goes_on link) (going_of link now) self.old self.new) }
    {
        self.check_wait(link)?;
        let going = self.call_parts(link)?;
        Ok(going)
    }

    /// One call of a link is begun, up to a question.
    fn begin_one(
        &mut self,
        link: LinkId,
        close: bool,
        call: &Call,
    ) -> Result<Option<Going>, AllocError>
        ensures kept { MovesOn self.old self.new }
        ensures begins { IfOk result (λ now.
            Stops (begins_one link close (call_view call.now)) (going_of link now)
            self.old self.new) }
    {
        self.calls.begin(link, close)?;
        match self.call(link, call)? {
            Some(calling) => Ok(Some(Going { calling, left: 0 })),
            None => {
                let going = self.call_left(link, 0)?;
                Ok(going)
            }
        }
    }

    /// Several calls in one of a link are begun, up to a question.
    fn begin_several(
        &mut self,
        link: LinkId,
        close: bool,
        parts: Option<Vec<Part>>,
    ) -> Result<Option<Going>, AllocError>
        ensures kept { MovesOn self.old self.new }
        ensures begins { IfOk result (λ now.
            Stops (begins_several link close (found_parts parts)) (going_of link now)
            self.old self.new) }
    {
        match parts {
            None => {
                let sent = say(self.alloc, close, &no_parts())?;
                self.reply(link, sent)?;
                Ok(None)
            }
            Some(parts) => {
                self.calls.begin_several(self.alloc, link, close, parts)?;
                let going = self.call_parts(link)?;
                Ok(going)
            }
        }
    }

    /// A call of a link is begun, up to a question.
    fn begin_call(
        &mut self,
        link: LinkId,
        close: bool,
        call: &Call,
    ) -> Result<Option<Going>, AllocError>
        ensures kept { MovesOn self.old self.new }
        ensures begins { IfOk result (λ now.
            Stops (begins_call link close (call_view call.now)) (going_of link now)
            self.old self.new) }
    {
        if is_several(call) {
            let parts = parts_asked(self.alloc, call)?;
            let going = self.begin_several(link, close, parts)?;
            return Ok(going);
        }
        let going = self.begin_one(link, close, call)?;
        Ok(going)
    }

    /// A request of a link is refused, or its call is begun, up to a question.
    pub(crate) fn take_up(
        &mut self,
        link: LinkId,
        heard: Heard,
    ) -> Result<Option<Going>, AllocError>
        ensures kept { MovesOn self.old self.new }
        ensures takes { IfOk result (λ now.
            Stops (takes_up link (request_view heard)) (going_of link now)
            self.old self.new) }
    {
        match heard {
            Heard::Refuses(sent) => {
                self.reply(link, sent)?;
                Ok(None)
            }
            Heard::Calls(call, close) => {
                let going = self.begin_call(link, close, &call)?;
                Ok(going)
            }
        }
    }

    /// A call of a link goes on with the answer of its question, up to the next one.
    fn go_on_in_call(
        &mut self,
        link: LinkId,
        left: Calling,
        reply: Reply,
    ) -> Result<Option<Calling>, AllocError>
        ensures kept { MovesOn self.old self.new }
        ensures goes { IfOk result (λ now.
            Stops (calling_answered link left reply) (calling link now) self.old self.new) }
    {
        match left {
            Calling::Read(reading) => {
                self.answer_read(link, &reading, reply)?;
                Ok(None)
            }
            Calling::Act(acting) => match self.go_on_acting(link, acting, reply)? {
                None => Ok(None),
                Some(acting) => Ok(Some(Calling::Act(acting))),
            },
        }
    }

    /// The requests of the call of a link go on with the answer of the question, up to the next one.
    fn go_on_acting(
        &mut self,
        link: LinkId,
        acting: Acting,
        reply: Reply,
    ) -> Result<Option<Acting>, AllocError>
        ensures kept { MovesOn self.old self.new }
        ensures goes { IfOk result (λ now. Stops
            (acting_answered link acting reply) (acting_of link now) self.old self.new) }
    {
        let Acting { wanting, left } = acting;
        match self.go_on_wanting(link, wanting, reply)? {
            Some(wanting) => Ok(Some(Acting { wanting, left })),
            None => {
                let acting = self.act_left(link, left)?;
                Ok(acting)
            }
        }
    }

    /// Several calls in one of a link go on with the answer of the question, up to the next one.
    pub(crate) fn go_on_going(
        &mut self,
        link: LinkId,
        going: Going,
        reply: Reply,
    ) -> Result<Option<Going>, AllocError>
        ensures kept { MovesOn self.old self.new }
        ensures goes { IfOk result (λ now. Stops
            (going_answered link going reply) (going_of link now) self.old self.new) }
    {
        let Going { calling, left } = going;
        match self.go_on_in_call(link, calling, reply)? {
            Some(calling) => Ok(Some(Going { calling, left })),
            None => {
                let going = self.call_left(link, left)?;
                Ok(going)
            }
        }
    }
}
