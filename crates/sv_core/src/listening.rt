//! What listeners say, and what becomes of the events that they hold.
ghost use Rattle.std.specs.Prelude.{◌≡◌, OnOk};
ghost use Rattle.sv_core.specs.Frames.{GivesOrders, HearsListeners, Makes, StartsRuns};
ghost use Rattle.sv_core.specs.Listening.{exits, exits_of, gives_back, hears, id_of, is_done_with};
ghost use Rattle.sv_core.specs.Listening.{loses_of, loses_stdin, takes_result, tells, tells_all};
ghost use Rattle.sv_core.specs.Listening.{tells_by};

use crate::machine::Machine;
use std::alloc::AllocError;
use sv_base::bytes::{Bytes, Piece};
use sv_base::ids::{ChildId, Run};
use sv_base::state::How;
use sv_children::News;
use sv_pipes::Token;

/// The number of the child of a place, which has 32 bits.
pub(crate) fn id_of(place: usize) -> ChildId
    ensures { result.0 ≡ id_of place }
{
    ChildId((place as u64 % (1 << 32)) as u32)
}

impl Machine {
    /// The event that a listener holds is done with.
    fn acknowledge(&mut self, child: usize)
        ensures kept { GivesOrders self.old self.new }
        ensures done { Makes (is_done_with child) self.old self.new }
    {
        self.pools.acknowledge(id_of(child));
    }

    /// The event that a listener holds goes back, and what its pool drops for it is reported.
    fn give_back(&mut self, child: usize) -> Result<(), AllocError>
        ensures kept { GivesOrders self.old self.new }
        ensures gives { OnOk result (Makes (gives_back child) self.old self.new) }
    {
        let mut reports = Vec::new(self.alloc);
        self.pools.reject(id_of(child), &mut reports)?;
        self.tell_drops(reports)?;
        Ok(())
    }

    /// A listener told its result.
    fn take_result(&mut self, child: usize, body: &Bytes) -> Result<(), AllocError>
        ensures kept { GivesOrders self.old self.new }
        ensures takes { OnOk result (Makes (takes_result child body.now) self.old self.new) }
    {
        if body.as_slice() == b"OK".as_slice() {
            self.acknowledge(child);
        } else {
            self.give_back(child)?;
        }
        Ok(())
    }

    /// A listener told something.
    fn tell(&mut self, child: usize, token: &Token) -> Result<(), AllocError>
        ensures kept { GivesOrders self.old self.new }
        ensures tells { OnOk result (Makes (tells child token.now) self.old self.new) }
    {
        match token {
            Token::Ready => Ok(()),
            Token::Result(body) => {
                self.take_result(child, body)?;
                Ok(())
            }
            Token::Wrong => {
                self.give_back(child)?;
                Ok(())
            }
        }
    }

    /// And so one after the other.
    fn tell_all(&mut self, child: usize, tokens: &[Token]) -> Result<(), AllocError>
        ensures kept { GivesOrders self.old self.new }
        ensures tells { OnOk result (Makes (tells_all child tokens.now) self.old self.new) }
    {
        match tokens {
            [] => Ok(()),
            [token, rest @ ..] => {
                self.tell(child, token)?;
                self.tell_all(child, rest)?;
                Ok(())
            }
        }
    }

    /// Where it is a listener that tells it.
    fn tell_by(&mut self, teller: Option<usize>, tokens: &[Token]) -> Result<(), AllocError>
        ensures kept { GivesOrders self.old self.new }
        ensures tells { OnOk result (Makes (tells_by teller tokens.now) self.old self.new) }
    {
        match teller {
            None => Ok(()),
            Some(child) => {
                self.tell_all(child, tokens)?;
                Ok(())
            }
        }
    }

    /// Bytes came on the stdout of a run.
    pub(crate) fn listen(&mut self, run: Run, piece: &Piece) -> Result<(), AllocError>
        ensures kept { HearsListeners self.old self.new }
        ensures hears { OnOk result (Makes (hears run piece.now) self.old self.new) }
    {
        let teller = self.runs.teller(run);
        let tokens = self.runs.hear(self.alloc, run, piece.as_slice())?;
        self.tell_by(teller, tokens.as_slice())?;
        Ok(())
    }

    /// The process of a run ended.
    pub(crate) fn exit(&mut self, run: Run, how: How) -> Result<(), AllocError>
        ensures kept { StartsRuns self.old self.new }
        ensures exits { OnOk result (Makes (exits run how) self.old self.new) }
    {
        let child = self.runs.living(run);
        self.exit_of(child, run, how)?;
        Ok(())
    }

    /// The process of a run of this child ended: the child takes its step, and then the event that it holds goes back.
    fn exit_of(&mut self, child: Option<usize>, run: Run, how: How) -> Result<(), AllocError>
        ensures kept { StartsRuns self.old self.new }
        ensures exits { OnOk result (Makes (exits_of child run how) self.old self.new) }
    {
        match child {
            None => Ok(()),
            Some(child) => {
                self.bring(&News::Exit(run, how), child)?;
                self.runs.end_process(run);
                self.give_back(child)?;
                Ok(())
            }
        }
    }

    /// A write to a run failed: its stdin is closed.
    pub(crate) fn lose_stdin(&mut self, run: Run) -> Result<(), AllocError>
        ensures kept { HearsListeners self.old self.new }
        ensures loses { OnOk result (Makes (loses_stdin run) self.old self.new) }
    {
        let child = self.runs.living(run);
        self.runs.lose_stdin(run);
        self.lose_of(child, run)?;
        Ok(())
    }

    /// A listener that a write failed to, and that holds an event, counts as UNKNOWN from then on.
    fn lose_of(&mut self, child: Option<usize>, run: Run) -> Result<(), AllocError>
        ensures kept { HearsListeners self.old self.new }
        ensures loses { OnOk result (Makes (loses_of child run) self.old self.new) }
    {
        match child {
            None => Ok(()),
            Some(child) => {
                if self.pools.holds(id_of(child)) {
                    self.runs.lose(run);
                    self.give_back(child)?;
                }
                Ok(())
            }
        }
    }
}
