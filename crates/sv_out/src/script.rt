//! Connections in memory: each reads what was written down for it.
ghost use Rattle.std.specs.Prelude.{◌≡◌, ◌≤◌, Some, [], take, length};
ghost use Rattle.sv_out.specs.Exchanges.{fresh};

use crate::calls::Calls;
use crate::connection::{Exchange, Link};
use crate::dialing::{Dial, DialFault};
use crate::failed::Failed;
use crate::source::copy_front;
use std::alloc::{AllocError, Global};
use std::collections::VecDeque;
use sv_base::{Bytes, Place};

/// What a connection in memory is made of: the bytes that it gives, how many of them at most in each read and of what
/// is written in each write, and the calls of it that are to fail, the first one being 1.
#[derive(Drop)]
pub struct Script {
    bytes: Vec<u8>,
    most: usize,
    failing: Vec<u64>,
    ghost some: { 1 ≤ most },
}

impl Script {
    ghost use Rattle.sv_out.specs.Plans.{script_failing};

    /// A script that gives these bytes, at most `most` in each call, and then its end.
    pub fn new(bytes: Vec<u8>, most: usize, failing: Vec<u64>) -> Script
        requires { 1 ≤ most }
        ensures { script_failing result ≡ failing.items }
    {
        Script {
            bytes,
            most,
            failing,
        }
    }
}

/// A connection in memory, which tells its exchange.
pub struct ScriptLink {
    place: Place,
    bytes: Vec<u8>,
    at: usize,
    most: usize,
    sent: Vec<u8>,
    ended: bool,
    calls: Calls,
    ghost within: { at ≤ length bytes.items },
    ghost some: { 1 ≤ most },
}

impl Drop for ScriptLink {
    fn drop(self) {
        let Self {
            place: _,
            bytes: _,
            at: _,
            most: _,
            sent: _,
            ended: _,
            calls: _,
        } = self;
    }
}

impl ScriptLink {
    ghost use Rattle.sv_out.specs.Plans.{link_plan, none_made, script_failing};

    /// A connection to this place, over which nothing went yet.
    pub fn new(alloc: Global, place: Place, script: Script) -> ScriptLink
        ensures plan { link_plan result ≡ none_made (script_failing script) }
        ensures told { ⟦<ScriptLink as Link>⟧.told result ≡ Some (fresh place) }
        ensures faults { ⟦<ScriptLink as Link>⟧.faults result ≡ 0 }
    {
        let Script {
            bytes,
            most,
            failing,
        } = script;
        ScriptLink {
            place,
            bytes,
            at: 0,
            most,
            sent: Vec::new(alloc),
            ended: false,
            calls: Calls::new(failing),
        }
    }

    /// How many calls failed.
    pub fn faults(&self) -> u64
        ensures { result ≡ ⟦<ScriptLink as Link>⟧.faults self.now }
    {
        self.calls.faults()
    }

    /// What went over it.
    fn into_exchange(self) -> Exchange
        ensures { Some result ≡ ⟦<ScriptLink as Link>⟧.told self }
    {
        let ScriptLink {
            place,
            mut bytes,
            at,
            most: _,
            sent,
            ended,
            calls: _,
        } = self;
        bytes.truncate(at);
        Exchange {
            place,
            sent: Bytes::from_vec(sent),
            heard: Bytes::from_vec(bytes),
            ended,
        }
    }
}

impl Link for ScriptLink {
    ghost use Rattle.std.specs.Prelude.{◌<◌, IfOk, IsErr, IsTrue, is_err, option_map};
    ghost use Rattle.std.specs.Io.{ReadsAtMost, WritesAtMost};
    ghost use Rattle.sv_out.specs.Exchanges.{after_read, after_write};
    ghost use Rattle.sv_out.specs.Faults.{HasCause};
    ghost use Rattle.sv_out.specs.Plans.{GoesAsPlanned, called, is_to_fail, link_plan};
    ghost use Rattle.sv_out.specs.Scripts.{link_faults, told_exchange};

    ghost told = { λ s. Some (record {
      place = s.place;
      sent = s.sent.items;
      heard = take s.at s.bytes.items;
      ended = s.ended;
    }) };

    ghost faults = { λ s. s.calls.faults };

    #[tactic(auto, using(crate::proofs::Scripts::heard_next))]
    fn read(&mut self, into: &mut [u8]) -> Result<usize, Failed>
        ensures bound { ReadsAtMost result into.new }
        ensures told { told_exchange self.new
            ≡ option_map (after_read result into.new) (told_exchange self.old) }
        ensures cause { HasCause (link_faults self.old) (link_faults self.new) result }
        ensures planned { GoesAsPlanned (link_plan self.old) (link_plan self.new) (IsErr result) }
    {
        if self.calls.next_fails() {
            return Err(Failed);
        }
        let (_, rest) = self.bytes.as_slice().split_at(self.at);
        let count = copy_front(rest, self.most, into);
        self.ended = self.ended || (count == 0 && !into.is_empty());
        self.at += count;
        Ok(count)
    }

    fn write(&mut self, piece: &[u8]) -> Result<usize, Failed>
        ensures bound { WritesAtMost result piece.now }
        ensures progress { IfOk result (λ n. 0 < length piece.now → 0 < n) }
        ensures told { told_exchange self.new
            ≡ option_map (after_write result piece.now) (told_exchange self.old) }
        ensures cause { HasCause (link_faults self.old) (link_faults self.new) result }

        // It fails at its calls, and where memory is refused; each call is counted.
        ensures fails { IsTrue (is_to_fail (link_plan self.old)) → IsErr result }
        ensures plan { link_plan self.new ≡ called (link_plan self.old) (is_err result) }
    {
        if self.calls.next_fails() {
            return Err(Failed);
        }
        let count = piece.len().min(self.most);
        if self.sent.extend_from_slice(&piece[..count]).is_err() {
            self.calls.count_fault();
            return Err(Failed);
        }
        Ok(count)
    }
}

/// A dial in memory, which tells the exchanges of the links that it took back. Each connection reads the next script,
/// and one past the scripts is at its end at once.
pub struct ScriptDial {
    scripts: VecDeque<Script>,
    exchanges: Vec<Exchange>,
    calls: Calls,
}

impl Drop for ScriptDial {
    fn drop(self) {
        let Self {
            scripts: _,
            exchanges: _,
            calls: _,
        } = self;
    }
}

impl ScriptDial {
    ghost use Rattle.sv_out.specs.Plans.{dial_plan, none_made};

    /// A dial with these scripts in the order of the connections, which fails at the calls that it was made to fail at,
    /// the first call being 1.
    pub fn new(alloc: Global, scripts: VecDeque<Script>, failing: Vec<u64>) -> ScriptDial
        ensures plan { dial_plan result ≡ none_made failing.items }
        ensures told { ⟦<ScriptDial as Dial>⟧.told result ≡ Some [] }
        ensures faults { ⟦<ScriptDial as Dial>⟧.faults result ≡ 0 }
    {
        ScriptDial {
            scripts,
            exchanges: Vec::new(alloc),
            calls: Calls::new(failing),
        }
    }

    /// What went over the links that were taken back, in that order.
    pub fn exchanges(&self) -> &[Exchange]
        ensures { ⟦<ScriptDial as Dial>⟧.told self.now ≡ Some result.now }
    {
        self.exchanges.as_slice()
    }

    /// How many calls failed, and how many links with faults were taken back.
    pub fn faults(&self) -> u64
        ensures { result ≡ ⟦<ScriptDial as Dial>⟧.faults self.now }
    {
        self.calls.faults()
    }

    fn next_script(&mut self, alloc: Global) -> Script
        ensures exchanges { self.new.exchanges ≡ self.old.exchanges }
        ensures calls { self.new.calls ≡ self.old.calls }
    {
        match self.scripts.pop_front() {
            Some(script) => script,
            None => Script::new(Vec::new(alloc), 1, Vec::new(alloc)),
        }
    }
}

impl Dial for ScriptDial {
    type Link = ScriptLink;

    ghost use Rattle.std.specs.Prelude.{IfOk, OnErr, OnOk};
    ghost use Rattle.sv_out.specs.Exchanges.{IsFresh, IsRefused, Keeps};
    ghost use Rattle.sv_out.specs.Faults.{RisesWhere};
    ghost use Rattle.sv_out.specs.Plans.{GoesAsPlanned, dial_plan};
    ghost use Rattle.sv_out.specs.Rises.{RisesWith};
    ghost use Rattle.sv_out.specs.Scripts.{dial_faults, link_faults, told_exchange, told_exchanges};

    ghost told = { λ s. Some s.exchanges.items };

    ghost faults = { λ s. s.calls.faults };

    fn connect(&mut self, alloc: Global, place: &Place) -> Result<ScriptLink, DialFault>
        ensures fresh { IfOk result (λ link.
            IsFresh place.now (told_exchanges self.old) (told_exchange link)) }
        ensures unharmed { IfOk result (λ link. link_faults link ≡ 0) }
        ensures kept { told_exchanges self.new ≡ told_exchanges self.old }
        ensures cause { RisesWhere (dial_faults self.old) (dial_faults self.new)
            (IsRefused result) }
        ensures same { IfOk result (λ _. dial_faults self.new ≡ dial_faults self.old) }
        ensures planned { GoesAsPlanned (dial_plan self.old) (dial_plan self.new)
            (IsRefused result) }
    {
        if self.calls.next_fails() {
            return Err(DialFault::Failed);
        }
        let place = place.clone()?;
        let script = self.next_script(alloc);
        Ok(ScriptLink::new(alloc, place, script))
    }

    fn close(&mut self, alloc: Global, link: ScriptLink) -> Result<(), AllocError>
        ensures kept { OnOk result
            (Keeps (told_exchanges self.old) (told_exchanges self.new) (told_exchange link)) }
        ensures lost { OnErr result (told_exchanges self.new ≡ told_exchanges self.old) }
        ensures count { RisesWith (dial_faults self.old) (dial_faults self.new) (link_faults link) }
        ensures plan { dial_plan self.new
            ≡ record (dial_plan self.old) { faults = dial_faults self.new } }
    {
        if 0 < link.faults() {
            self.calls.count_fault();
        }
        self.exchanges.push(link.into_exchange())?;
        Ok(())
    }
}
