//! Step 5 of a turn: the calls in hand and the requests of the links, up to a question, and More where it is due.
ghost use Rattle.std.specs.Prelude.{◌≡◌, IfOk, OnOk, drop, slice_get};
ghost use Rattle.sv_core.specs.Frames.{AnswersCalls, Makes, MovesOn, Stops};
ghost use Rattle.sv_core.specs.Left.{asking, asking_answered, asking_of, going_of, serving};
ghost use Rattle.sv_core.specs.Left.{serving_answered};
ghost use Rattle.sv_core.specs.Serving.{gives_more, serves_all, serves_asks, serves_from};
ghost use Rattle.sv_core.specs.Serving.{serves_left, serves_links, serves_next};

use crate::machine::Machine;
use crate::part::Reply;
use crate::place::{Asking, Going, Serving};
use std::alloc::AllocError;
use sv_base::ids::LinkId;
use sv_calls::answers::hear;
use sv_out::order::Order;

/// The link in this place of a list.
fn link_at(links: &[LinkId], place: usize) -> Option<LinkId>
    ensures { result ≡ slice_get links.now place }
{
    links.get(place).copied()
}

impl Machine {
    /// The next request of a link is taken up, if there is one and no other is in hand.
    fn serve_next(&mut self, link: LinkId) -> Result<Option<Going>, AllocError>
        ensures kept { MovesOn self.old self.new }
        ensures serves { IfOk result (λ now.
            Stops (serves_next link) (going_of link now) self.old self.new) }
    {
        match self.links.take_ask(link) {
            None => Ok(None),
            Some(ask) => {
                let heard = hear(self.alloc, ask)?;
                let going = self.take_up(link, heard)?;
                Ok(going)
            }
        }
    }

    /// So many requests of a link, up to a question.
    fn serve_asks(&mut self, link: LinkId, count: usize) -> Result<Option<Asking>, AllocError>
        ensures kept { MovesOn self.old self.new }
        ensures serves { IfOk result (λ now.
            Stops (serves_asks count link) (asking link now) self.old self.new) }
    {
        let mut left = count;
        while left > 0 {
            left -= 1;
            match self.serve_next(link)? {
                None => {}
                Some(going) => return Ok(Some(Asking { going, left })),
            }
        }
        Ok(None)
    }

    /// A link gets More where that is due.
    fn give_more(&mut self, link: LinkId) -> Result<(), AllocError>
        ensures kept { AnswersCalls self.old self.new }
        ensures gives { OnOk result (Makes (gives_more link) self.old self.new) }
    {
        if self.links.give_more(link) {
            self.hand.given.push(Order::More { link })?;
        }
        Ok(())
    }

    /// So many requests of a link, up to a question, and then its More.
    fn serve_left(&mut self, link: LinkId, left: usize) -> Result<Option<Asking>, AllocError>
        ensures kept { MovesOn self.old self.new }
        ensures serves { IfOk result (λ now.
            Stops (serves_left left link) (asking_of link now) self.old self.new) }
    {
        match self.serve_asks(link, left)? {
            Some(asking) => Ok(Some(asking)),
            None => {
                self.give_more(link)?;
                Ok(None)
            }
        }
    }

    /// The call in hand of a link goes on, and then so many requests are begun, up to a question.
    fn serve_from(&mut self, link: LinkId, left: usize) -> Result<Option<Asking>, AllocError>
        ensures kept { MovesOn self.old self.new }
        ensures serves { IfOk result (λ now.
            Stops (serves_from left link) (asking_of link now) self.old self.new) }
    {
        match self.go_on_calling(link)? {
            Some(going) => Ok(Some(Asking { going, left })),
            None => {
                let asking = self.serve_left(link, left)?;
                Ok(asking)
            }
        }
    }

    /// These links from a place on, up to a question.
    fn serve_all(&mut self, links: Vec<LinkId>, from: usize) -> Result<Option<Serving>, AllocError>
        ensures kept { MovesOn self.old self.new }
        ensures serves { IfOk result (λ now.
            Stops (serves_all (drop from links.items)) (serving now) self.old self.new) }
    {
        let mut next = from;
        while let Some(link) = link_at(links.as_slice(), next) {
            next += 1;
            let left = self.links.left(link);
            match self.serve_from(link, left)? {
                None => {}
                Some(asking) => {
                    return Ok(Some(Serving {
                        links,
                        next,
                        link,
                        asking,
                    }));
                }
            }
        }
        Ok(None)
    }

    /// Step 5: each link that is open or has a request in hand, in rising number, up to a question.
    pub(crate) fn serve_links(&mut self) -> Result<Option<Serving>, AllocError>
        ensures kept { MovesOn self.old self.new }
        ensures serves { IfOk result (λ now.
            Stops serves_links (serving now) self.old self.new) }
    {
        let links = self.links.busy_links(self.alloc)?;
        let left = self.serve_all(links, 0)?;
        Ok(left)
    }

    /// A link goes on with the answer of the question, up to the next one.
    fn go_on_asking(
        &mut self,
        link: LinkId,
        asking: Asking,
        reply: Reply,
    ) -> Result<Option<Asking>, AllocError>
        ensures kept { MovesOn self.old self.new }
        ensures goes { IfOk result (λ now. Stops
            (asking_answered link asking reply) (asking_of link now) self.old self.new) }
    {
        let Asking { going, left } = asking;
        match self.go_on_going(link, going, reply)? {
            Some(going) => Ok(Some(Asking { going, left })),
            None => {
                let asking = self.serve_left(link, left)?;
                Ok(asking)
            }
        }
    }

    /// Step 5 goes on with the answer of its question, up to the next one: its link, and the other links.
    pub(crate) fn go_on_serving(
        &mut self,
        left: Serving,
        reply: Reply,
    ) -> Result<Option<Serving>, AllocError>
        ensures kept { MovesOn self.old self.new }
        ensures goes { IfOk result (λ now. Stops
            (serving_answered left reply) (serving now) self.old self.new) }
    {
        let Serving {
            links,
            next,
            link,
            asking,
        } = left;
        match self.go_on_asking(link, asking, reply)? {
            Some(asking) => Ok(Some(Serving {
                links,
                next,
                link,
                asking,
            })),
            None => {
                let serving = self.serve_all(links, next)?;
                Ok(serving)
            }
        }
    }
}
