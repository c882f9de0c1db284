//! The event pool of one listener group.
ghost use Rattle.std.specs.Prelude.{◌≡◌, ◌++◌, ◌-◌, ◌≤◌, IfOk, OnOk};
ghost use Rattle.std.specs.Option.{SomeIff, option_map, option_to_list};
ghost use Rattle.sv_pool.specs.Covering.{ask_for, covers};
ghost use Rattle.sv_pool.specs.EventPools.{EventPool};
ghost use Rattle.sv_pool.specs.Listeners.{acknowledged_by, handed_by, has_waiting, is_holding};
ghost use Rattle.sv_pool.specs.Listeners.{may_get, orders_to, rejected_by, reports_of_rejection};
ghost use Rattle.sv_pool.specs.Offers.{drop_report, event_with, offered_to, reports_of_offer};
ghost use Rattle.sv_pool.specs.StandsFor.{Keeps};

use crate::{Dropped, Pool};
use std::alloc::{AllocError, Global};
use sv_base::bytes::Bytes;
use sv_base::ids::{ChildId, Run};
use sv_base::items::Items;
use sv_base::kind::Kind;
use sv_base::text::Text;
use sv_events::covers::covers;
use sv_events::event::{Event, envelope};
use sv_out::order::Order;

/// The event pool of a listener group. Its listeners stand side by side in the start order.
pub struct GroupPool {
    /// The name of the group, by which reports and events name the pool.
    pub(crate) group: Text,
    /// The event types that the pool asks for.
    pub(crate) kinds: Items<Kind>,
    /// The place of its first listener in the start order.
    pub(crate) first: u32,
    pub(crate) pool: Pool,
}

impl Drop for GroupPool {
    fn drop(self) {
        let Self {
            group: _,
            kinds: _,
            first: _,
            pool: _,
        } = self;
    }
}

/// Whether the first event type covers the second.
fn is_covering(upper: Kind, lower: Kind) -> bool
    ensures { result ≡ covers upper lower }
{
    covers(upper, lower)
}

impl GroupPool {
    /// Whether the pool asks for events of this type.
    pub(crate) fn asks_for(&self, kind: Kind) -> bool
        ensures { result ≡ ask_for self.now.kinds kind }
    {
        self.kinds
            .as_slice()
            .iter()
            .any(|asked| is_covering(*asked, kind))
    }

    /// Whether an event waits in the pool.
    pub(crate) fn has_waiting(&self) -> bool
        ensures { (p : EventPool) → Keeps self.now p → result ≡ has_waiting p }
    {
        self.pool.next_for().is_some()
    }

    /// Takes an event of this type, number and body, if the pool asks for it; what is dropped for it is reported.
    pub(crate) fn offer(
        &mut self,
        alloc: Global,
        kind: Kind,
        serial: u64,
        body: &Bytes,
        given: &mut Vec<Order>,
    ) -> Result<(), AllocError>
        ensures kept { OnOk result ((p : EventPool) → Keeps self.old p
            → Keeps self.new (offered_to (event_with kind serial body.now) p)) }
        ensures given { OnOk result ((p : EventPool) → Keeps self.old p
            → given.new.items
            ≡ given.old.items ++ reports_of_offer (event_with kind serial body.now) p) }
    {
        if !self.asks_for(kind) {
            return Ok(());
        }
        let event = Event {
            kind,
            serial,
            body: Bytes::from_slice(alloc, body.as_slice())?,
        };
        let dropped = self.pool.accept(event)?;
        self.report(dropped, given)?;
        Ok(())
    }

    /// Reports an event that was dropped, if one was.
    fn report(&self, dropped: Option<Dropped>, given: &mut Vec<Order>) -> Result<(), AllocError>
        ensures { OnOk result (given.new.items
            ≡ given.old.items ++ option_to_list (option_map (drop_report self.now.group) dropped)) }
    {
        if let Some(Dropped { serial, poolserial }) = dropped {
            given.push(Order::Dropped {
                pool: self.group.clone()?,
                serial,
                poolserial,
            })?;
        }
        Ok(())
    }

    /// The number of a process among the pool's listeners, if it stands after the first of them.
    fn seat(&self, listener: ChildId) -> Option<u32>
        ensures { SomeIff result (self.now.first ≤ listener.0) (listener.0 - self.now.first) }
    {
        listener.0.checked_sub(self.first)
    }

    /// Whether the process is one of the pool's listeners and holds an event.
    pub(crate) fn is_holding(&self, listener: ChildId) -> bool
        ensures { (p : EventPool) → Keeps self.now p → result ≡ is_holding listener.0 p }
    {
        match self.seat(listener) {
            Some(seat) => self.pool.is_holding(seat),
            None => false,
        }
    }

    /// Hands the event that waits first to a listener, if it may get one, and answers whether it did.
    pub(crate) fn hand_to(
        &mut self,
        alloc: Global,
        server: &str,
        listener: ChildId,
        run: Run,
        given: &mut Vec<Order>,
    ) -> Result<bool, AllocError>
        ensures kept { OnOk result ((p : EventPool) → Keeps self.old p
            → Keeps self.new (handed_by listener.0 p)) }
        ensures given { OnOk result ((p : EventPool) → Keeps self.old p
            → given.new.items ≡ given.old.items ++ orders_to server.now run listener.0 p) }
        ensures told { IfOk result (λ is_handed. (p : EventPool) → Keeps self.old p
            → is_handed ≡ may_get listener.0 p) }
    {
        match self.seat(listener) {
            Some(seat) if self.pool.is_free(seat) => match self.pool.next_for() {
                Some((event, poolserial)) => {
                    let bytes = envelope(alloc, server, self.group.as_str(), poolserial, event)?;
                    given.push(Order::Stdin { run, bytes })?;
                    self.pool.took(seat);
                    Ok(true)
                }
                None => Ok(false),
            },
            _ => Ok(false),
        }
    }

    /// The listener is done with the event that it holds, if it holds one of this pool.
    pub(crate) fn acknowledge(&mut self, listener: ChildId)
        ensures { (p : EventPool) → Keeps self.old p
            → Keeps self.new (acknowledged_by listener.0 p) }
    {
        match self.seat(listener) {
            Some(seat) if self.pool.is_holding(seat) => self.pool.acknowledged(seat),
            _ => {}
        }
    }

    /// The event that the listener holds goes back to the front, if it holds one of this pool; what is dropped for it is
    /// reported.
    pub(crate) fn reject(
        &mut self,
        listener: ChildId,
        given: &mut Vec<Order>,
    ) -> Result<(), AllocError>
        ensures kept { OnOk result ((p : EventPool) → Keeps self.old p
            → Keeps self.new (rejected_by listener.0 p)) }
        ensures given { OnOk result ((p : EventPool) → Keeps self.old p
            → given.new.items ≡ given.old.items ++ reports_of_rejection listener.0 p) }
    {
        match self.seat(listener) {
            Some(seat) if self.pool.is_holding(seat) => {
                let dropped = self.pool.rejected(seat);
                self.report(dropped, given)?;
                Ok(())
            }
            _ => Ok(()),
        }
    }
}
