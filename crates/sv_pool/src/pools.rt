//! All event pools of a daemon.
ghost use Rattle.std.specs.Prelude.{◌≡◌, ◌++◌, ◌+◌, ◌≤◌, ◌||◌, IfOk, List, OnOk, length, map};
ghost use Rattle.std.specs.List.{flat_map, list_any};
ghost use Rattle.sv_base.specs.Limits.{process_limit};
ghost use Rattle.sv_groups.specs.StartOrder.{processes};
ghost use Rattle.sv_pool.specs.EventPools.{EventPool, EventPools, opened_for, opening, pool_of};
ghost use Rattle.sv_pool.specs.EventPools.{pools_from};
ghost use Rattle.sv_pool.specs.Listeners.{acknowledged_by, acknowledges, hand_orders, handed};
ghost use Rattle.sv_pool.specs.Listeners.{handed_by, has_waiting, holds, is_handed, is_holding};
ghost use Rattle.sv_pool.specs.Listeners.{may_get, orders_to, rejected_by, rejection_reports};
ghost use Rattle.sv_pool.specs.Listeners.{rejects, reports_of_rejection, some_wait};
ghost use Rattle.sv_pool.specs.Offers.{event_with, is_asked_for, offer_reports, offered};
ghost use Rattle.sv_pool.specs.Offers.{offered_to, reports_of_offer};
ghost use Rattle.sv_pool.specs.StandsFor.{AreKept, Keeps, StandsFor};

use crate::Pool;
use crate::group_pool::GroupPool;
use std::alloc::{AllocError, Global};
use sv_base::bytes::Bytes;
use sv_base::ids::{ChildId, Run};
use sv_base::kind::Kind;
use sv_base::spec::{GroupSpec, PoolSpec};
use sv_events::{Fact, body};
use sv_groups::Roster;
use sv_out::order::Order;

/// The event pools of a daemon, in the start order of their groups. They take the memory of their buffers when they are
/// made.
#[derive(Drop)]
pub struct Pools {
    pub(crate) each: Vec<GroupPool>,
    /// The number that the next event gets among all events, modulo 2^64.
    pub(crate) next_serial: u64,
}

impl Pools {
    /// The pools of these groups, before any event.
    pub fn new(alloc: Global, roster: &Roster) -> Result<Pools, AllocError>
        ensures { IfOk result (λ x. StandsFor x (opening roster.now)) }
    {
        let mut each = Vec::new(alloc);
        open_all(alloc, 0, roster.groups(), &mut each)?;
        Ok(Pools {
            each,
            next_serial: 0,
        })
    }

    /// Offers what happened to each pool, as an event of this type; each pool that asks for it takes it. What full
    /// buffers drop is reported. The event gets its number where some pool takes it.
    pub fn offer(
        &mut self,
        alloc: Global,
        kind: Kind,
        fact: &Fact,
        given: &mut Vec<Order>,
    ) -> Result<(), AllocError>
        ensures offered { OnOk result ((ps : EventPools) → StandsFor self.old ps
            → StandsFor self.new (offered kind fact.now ps)) }
        ensures given { OnOk result ((ps : EventPools) → StandsFor self.old ps
            → given.new.items ≡ given.old.items ++ offer_reports kind fact.now ps) }
    {
        if !self.is_asked_for(kind) {
            return Ok(());
        }
        let serial = self.next_serial;
        let text = body(alloc, fact)?;
        offer_all(alloc, self.each.as_mut_slice(), kind, serial, &text, given)?;
        self.next_serial = serial.wrapping_add(1);
        Ok(())
    }

    /// Whether some pool asks for events of this type.
    fn is_asked_for(&self, kind: Kind) -> bool
        ensures { (ps : EventPools) → StandsFor self.now ps → result ≡ is_asked_for kind ps.each }
    {
        some_asks_for(self.each.as_slice(), kind)
    }

    /// Whether an event waits in some pool. Where none does, nothing can be handed out.
    pub fn some_wait(&self) -> bool
        ensures { (ps : EventPools) → StandsFor self.now ps → result ≡ some_wait ps }
    {
        some_has_waiting(self.each.as_slice())
    }

    /// Whether this process is a listener that holds an event.
    pub fn holds(&self, listener: ChildId) -> bool
        ensures { (ps : EventPools) → StandsFor self.now ps → result ≡ holds listener.0 ps }
    {
        some_holds(self.each.as_slice(), listener)
    }

    /// Hands the event that waits first in the listener's pool to it, if it holds none and one waits: it is to be
    /// written to this run. Answers whether one was. `server` is the daemon's name for itself.
    pub fn hand_to(
        &mut self,
        alloc: Global,
        server: &str,
        listener: ChildId,
        run: Run,
        given: &mut Vec<Order>,
    ) -> Result<bool, AllocError>
        ensures handed { OnOk result ((ps : EventPools) → StandsFor self.old ps
            → StandsFor self.new (handed listener.0 ps)) }
        ensures given { OnOk result ((ps : EventPools) → StandsFor self.old ps
            → given.new.items ≡ given.old.items ++ hand_orders server.now run listener.0 ps) }
        ensures told { IfOk result (λ told. (ps : EventPools) → StandsFor self.old ps
            → told ≡ is_handed listener.0 ps) }
    {
        hand_all(
            alloc,
            self.each.as_mut_slice(),
            server,
            listener,
            run,
            given,
        )
    }

    /// The listener is done with the event that it holds, if it holds one.
    pub fn acknowledge(&mut self, listener: ChildId)
        ensures { (ps : EventPools) → StandsFor self.old ps
            → StandsFor self.new (acknowledges listener.0 ps) }
    {
        acknowledge_all(self.each.as_mut_slice(), listener);
    }

    /// The event that the listener holds goes back to the front of its pool, if it holds one; what a full buffer drops
    /// for it is reported.
    pub fn reject(&mut self, listener: ChildId, given: &mut Vec<Order>) -> Result<(), AllocError>
        ensures rejected { OnOk result ((ps : EventPools) → StandsFor self.old ps
            → StandsFor self.new (rejects listener.0 ps)) }
        ensures given { OnOk result ((ps : EventPools) → StandsFor self.old ps
            → given.new.items ≡ given.old.items ++ rejection_reports listener.0 ps) }
    {
        reject_all(self.each.as_mut_slice(), listener, given)
    }
}

/// Adds the pools of these groups, whose first process has this place in the start order.
fn open_all(
    alloc: Global,
    first: u32,
    groups: &[GroupSpec],
    each: &mut Vec<GroupPool>,
) -> Result<(), AllocError>
    requires { first + length (processes groups.now) ≤ process_limit }
    ensures { OnOk result ((ps : List EventPool) → AreKept each.old.items ps
        → AreKept each.new.items (ps ++ pools_from first groups.now)) }
{
    match groups {
        [] => Ok(()),
        [group, rest @ ..] => {
            open(alloc, first, group, each)?;
            let listeners = group.members.as_slice().len() as u32;
            open_all(alloc, first + listeners, rest, each)
        }
    }
}

/// Adds the pool of a group, if it has one.
#[tactic(auto, using(crate::proofs::Kept::kept_more))]
fn open(
    alloc: Global,
    first: u32,
    group: &GroupSpec,
    each: &mut Vec<GroupPool>,
) -> Result<(), AllocError>
    requires { length group.now.members ≤ process_limit }
    ensures { OnOk result ((ps : List EventPool) → AreKept each.old.items ps
        → AreKept each.new.items (ps ++ pool_of first group.now group.now.pool)) }
{
    match &group.pool {
        None => Ok(()),
        Some(pool) => {
            let pool = opened_for(alloc, first, group, pool)?;
            each.push(pool)?;
            Ok(())
        }
    }
}

/// The pool of a group whose first process has this place.
fn opened_for(
    alloc: Global,
    first: u32,
    group: &GroupSpec,
    pool: &PoolSpec,
) -> Result<GroupPool, AllocError>
    requires { length group.now.members ≤ process_limit }
    ensures { IfOk result (λ x. Keeps x (opened_for first group.now pool.now)) }
{
    let listeners = group.members.as_slice().len() as u32;
    Ok(GroupPool {
        group: group.name.clone()?,
        kinds: pool.kinds.clone()?,
        first,
        pool: Pool::new(alloc, pool.buffer.get(), listeners)?,
    })
}

/// Whether one of these pools asks for events of this type.
fn some_asks_for(pools: &[GroupPool], kind: Kind) -> bool
    ensures { (ps : List EventPool) → AreKept pools.now ps → result ≡ is_asked_for kind ps }
{
    match pools {
        [] => false,
        [pool, rest @ ..] => pool.asks_for(kind) || some_asks_for(rest, kind),
    }
}

/// Whether an event waits in one of these pools.
fn some_has_waiting(pools: &[GroupPool]) -> bool
    ensures { (ps : List EventPool) → AreKept pools.now ps → result ≡ list_any has_waiting ps }
{
    match pools {
        [] => false,
        [pool, rest @ ..] => pool.has_waiting() || some_has_waiting(rest),
    }
}

/// Whether the listener holds an event of one of these pools.
fn some_holds(pools: &[GroupPool], listener: ChildId) -> bool
    ensures { (ps : List EventPool) → AreKept pools.now ps
        → result ≡ list_any (is_holding listener.0) ps }
{
    match pools {
        [] => false,
        [pool, rest @ ..] => pool.is_holding(listener) || some_holds(rest, listener),
    }
}

/// Offers an event to each pool.
fn offer_all(
    alloc: Global,
    pools: &mut [GroupPool],
    kind: Kind,
    serial: u64,
    body: &Bytes,
    given: &mut Vec<Order>,
) -> Result<(), AllocError>
    ensures kept { OnOk result ((ps : List EventPool) → AreKept pools.old ps
        → AreKept pools.new (map (offered_to (event_with kind serial body.now)) ps)) }
    ensures given { OnOk result ((ps : List EventPool) → AreKept pools.old ps
        → given.new.items
        ≡ given.old.items ++ flat_map (reports_of_offer (event_with kind serial body.now)) ps) }
{
    for place in 0..pools.len() {
        pools[place].offer(alloc, kind, serial, body, given)?;
    }
    Ok(())
}

/// Hands an event to the listener, of the pools of which it is one.
fn hand_all(
    alloc: Global,
    pools: &mut [GroupPool],
    server: &str,
    listener: ChildId,
    run: Run,
    given: &mut Vec<Order>,
) -> Result<bool, AllocError>
    ensures kept { OnOk result ((ps : List EventPool) → AreKept pools.old ps
        → AreKept pools.new (map (handed_by listener.0) ps)) }
    ensures given { OnOk result ((ps : List EventPool) → AreKept pools.old ps
        → given.new.items ≡ given.old.items ++ flat_map (orders_to server.now run listener.0) ps) }
    ensures told { IfOk result (λ told. (ps : List EventPool) → AreKept pools.old ps
        → told ≡ list_any (may_get listener.0) ps) }
{
    let mut is_handed = false;
    for place in 0..pools.len() {
        let here = pools[place].hand_to(alloc, server, listener, run, given)?;
        is_handed = either(is_handed, here);
    }
    Ok(is_handed)
}

fn either(one: bool, other: bool) -> bool
    ensures { result ≡ (one || other) }
{
    one || other
}

/// The listener is done with what it holds of each pool.
fn acknowledge_all(pools: &mut [GroupPool], listener: ChildId)
    ensures { (ps : List EventPool) → AreKept pools.old ps
        → AreKept pools.new (map (acknowledged_by listener.0) ps) }
{
    for place in 0..pools.len() {
        pools[place].acknowledge(listener);
    }
}

/// What the listener holds of each pool goes back.
fn reject_all(
    pools: &mut [GroupPool],
    listener: ChildId,
    given: &mut Vec<Order>,
) -> Result<(), AllocError>
    ensures kept { OnOk result ((ps : List EventPool) → AreKept pools.old ps
        → AreKept pools.new (map (rejected_by listener.0) ps)) }
    ensures given { OnOk result ((ps : List EventPool) → AreKept pools.old ps
        → given.new.items ≡ given.old.items ++ flat_map (reports_of_rejection listener.0) ps) }
{
    for place in 0..pools.len() {
        pools[place].reject(listener, given)?;
    }
    Ok(())
}
