//! An event, and the text that a listener gets of it.
ghost use Rattle.std.specs.Prelude.{◌≡◌, ◌^◌, ◌<◌, List, ℕ, IfOk, IsTrue, Some, length};
ghost use Rattle.std.specs.Prelude.{string_bytes};
ghost use Rattle.std.specs.List.{before_first, after_first};
ghost use Rattle.sv_events.specs.declared.event.Event.{Event};
ghost use Rattle.sv_events.specs.EventText.{envelope_of, envelope_head};
ghost use Rattle.sv_events.specs.OneLine.{is_one_line, is_line_feed};

use crate::write::{push_field, push_number, with_lines};
use std::alloc::{AllocError, Global};
use sv_base::bytes::Bytes;
use sv_base::kind::Kind;
use sv_base::words::kind_of;

/// An event: its type, its number among all events of the daemon's life, and its body.
#[derive(Drop)]
pub struct Event {
    pub kind: Kind,
    pub serial: u64,
    pub body: Bytes,
}

/// The event as a pool hands it to a listener: a head on a line of its own, which ends with the number of the body's
/// bytes, and then the body. `server` is the daemon's name for itself.
pub fn envelope(
    alloc: Global,
    server: &str,
    pool: &str,
    poolserial: u64,
    event: &Event,
) -> Result<Bytes, AllocError>
    ensures { IfOk result (λ b. b ≡ envelope_of server.now pool.now poolserial event.now) }
{
    let head = envelope_head(alloc, server, pool, poolserial, event)?;
    with_lines(head, event.body.as_slice())
}

fn envelope_head(
    alloc: Global,
    server: &str,
    pool: &str,
    poolserial: u64,
    event: &Event,
) -> Result<String, AllocError>
    ensures { IfOk result (λ s. string_bytes s
        ≡ envelope_head server.now pool.now poolserial event.now) }
{
    let mut head = String::from_str(alloc, "ver:3.0 server:")?;
    head.push_str(server)?;
    push_number(alloc, &mut head, " serial:", event.serial)?;
    push_field(&mut head, " pool:", pool)?;
    push_number(alloc, &mut head, " poolserial:", poolserial)?;
    push_field(&mut head, " eventname:", event.kind.name())?;
    push_number(
        alloc,
        &mut head,
        " len:",
        event.body.as_slice().len() as u64,
    )?;
    Ok(head)
}

/// A law: where neither the daemon's name for itself nor the pool's has a line feed, the first line feed of an envelope
/// ends its head, and all after it is the body. The head ends with the number of the body's bytes, so a reader can
/// cut a stream of envelopes.
pub fn first_line_feed_ends_the_head()
    ensures head { (server pool : List ℕ) (poolserial : ℕ) (event : Event)
        → IsTrue (is_one_line server) → IsTrue (is_one_line pool) → poolserial < 2 ^ 64
        → event.serial < 2 ^ 64 → length event.body < 2 ^ 64
        → before_first is_line_feed (envelope_of server pool poolserial event)
        ≡ envelope_head server pool poolserial event }
    ensures body { (server pool : List ℕ) (poolserial : ℕ) (event : Event)
        → IsTrue (is_one_line server) → IsTrue (is_one_line pool) → poolserial < 2 ^ 64
        → event.serial < 2 ^ 64 → length event.body < 2 ^ 64
        → after_first is_line_feed (envelope_of server pool poolserial event) ≡ event.body }
{}

/// A law: each type of event is read back from its name, as an envelope writes it.
pub fn each_name_is_read_back(kind: Kind) -> Option<Kind>
    ensures { result ≡ Some kind }
{
    kind_of(kind.name())
}
