//! A listener's loop: it says that it is ready, handles each event of its stream, and answers it.

ghost use Rattle.std.specs.Prelude.{◌≡◌, ◌≤◌, ◌<◌, ◌^◌, ◌∷◌, ◌++◌, [], IfOk, IfErr, OnErr, OnOk};
ghost use Rattle.std.specs.Prelude.{Err, Some, length, take};
ghost use Rattle.std.specs.Io.KnownBytes.{Appends, Consumes, IsAtEnd, Keeps};
ghost use Rattle.sv_listener.specs.Answers.{answer_of, answers};
ghost use Rattle.sv_listener.specs.Listening.{Answers, Goes, IsStop, IsUnhandled, Listens, Says};
ghost use Rattle.sv_listener.specs.Listening.{Stops, StopsIn, end_number};
ghost use Rattle.sv_out.specs.Faults.{HasCause, Rose};
ghost use Rattle.sv_out.specs.Written.{AppendsFront};

use crate::events::Heard;
use crate::handler::{HandleFault, Handler, Verdict};
use crate::side::ListenerSide;
use std::alloc::Global;
use sv_out::failed::Failed;
use sv_out::sink::{Sink, write_all};
use sv_out::source::Source;

/// How many bytes are asked for at once.
const PIECE: usize = 16_384;

/// The most bytes that are taken.
const MOST_TAKEN: u64 = 9_223_372_036_854_775_808;

/// How a listener's loop ended.
#[derive(Clone, Copy, PartialEq, Eq)]
pub enum ListenEnd {
    /// The input ended between two events.
    Ended,
    /// The source failed; its count of faults rose.
    SourceFailed,
    /// The input ended inside an event, or it has a fault.
    Broken,
    OutOfMemory,
    /// The sink failed; its count of faults rose.
    SinkFailed,
    /// The handler failed; its count of faults rose.
    HandlerFailed,
    /// 2^63 bytes were taken.
    TooMuch,
}

impl ListenEnd {
    /// The number by which a program tells it.
    pub fn number(self) -> u8
        ensures { result ≡ end_number self }
    {
        match self {
            ListenEnd::Ended => 0,
            ListenEnd::SourceFailed => 1,
            ListenEnd::Broken => 2,
            ListenEnd::OutOfMemory => 3,
            ListenEnd::SinkFailed => 4,
            ListenEnd::HandlerFailed => 5,
            ListenEnd::TooMuch => 6,
        }
    }
}

/// Listens: says `READY`, then takes each event of the source as soon as its last byte is there, gives it to the handler,
/// and says the result and `READY`, before more is asked for. The answers to events that came in one read are said with
/// one write, in order.
///
/// The answer is `Ended` where the source ended between two events; `SourceFailed` where it failed; `Broken` where it
/// ended inside an event, or where a header line is faulty or a body too long; `OutOfMemory`; `SinkFailed` where the sink
/// failed; `HandlerFailed` where the handler failed; `TooMuch` where 2^63 bytes were taken.
pub fn listen<R: Source, K: Sink, H: Handler>(
    alloc: Global,
    source: &mut R,
    sink: &mut K,
    handler: &mut H,
) -> ListenEnd
    ensures listens { Listens result (R.left source.old) (R.left source.new)
        (K.written sink.old) (K.written sink.new) (H.told handler.old handler.new) }
    ensures source_failed { result ≡ ListenEnd.SourceFailed
        → Rose (R.faults source.old) (R.faults source.new) }
    ensures sink_failed { result ≡ ListenEnd.SinkFailed
        → Rose (K.faults sink.old) (K.faults sink.new) }
    ensures handler_failed { result ≡ ListenEnd.HandlerFailed
        → Rose (H.faults handler.old) (H.faults handler.new) }
{
    match write_all(sink, b"READY\n") {
        Ok(()) => hear(alloc, source, sink, handler),
        Err(_) => ListenEnd::SinkFailed,
    }
}

/// Reads the stream to its end, and works off its events.
fn hear<R: Source, K: Sink, H: Handler>(
    alloc: Global,
    source: &mut R,
    sink: &mut K,
    handler: &mut H,
) -> ListenEnd
    ensures says { Says answers result (R.left source.old) (R.left source.new)
        (K.written sink.old) (K.written sink.new) (H.told handler.old handler.new) }
    ensures sink_later { K.faults sink.old ≤ K.faults sink.new }
    ensures source_failed { result ≡ ListenEnd.SourceFailed
        → Rose (R.faults source.old) (R.faults source.new) }
    ensures sink_failed { result ≡ ListenEnd.SinkFailed
        → Rose (K.faults sink.old) (K.faults sink.new) }
    ensures handler_failed { result ≡ ListenEnd.HandlerFailed
        → Rose (H.faults handler.old) (H.faults handler.new) }
{
    let mut side = ListenerSide::new(alloc);
    let mut heard = Vec::new(alloc);
    let mut text = Vec::new(alloc);
    let mut buffer = [0u8; PIECE];
    let mut room = MOST_TAKEN;
    while room > 0 {
        let count = match read_piece(source, &mut buffer, room) {
            Ok(count) => count,
            Err(_) => return ListenEnd::SourceFailed,
        };
        if count == 0 {
            if side.between() {
                return ListenEnd::Ended;
            }
            return ListenEnd::Broken;
        }
        let (piece, _) = buffer.split_at(count);
        match take_piece(
            alloc, piece, &mut side, &mut heard, &mut text, sink, handler,
        ) {
            Ok(()) => {}
            Err(end) => return end,
        }
        if side.fault().is_some() {
            return ListenEnd::Broken;
        }
        room -= count as u64;
    }
    ListenEnd::TooMuch
}

/// Reads the next bytes into the front of the buffer, at most so many.
fn read_piece<R: Source>(source: &mut R, buffer: &mut [u8], most: u64) -> Result<usize, Failed>
    requires some { 0 < most }
    requires room { 0 < length buffer.old }
    ensures within { IfOk result (λ n. n ≤ length buffer.new) }
    ensures most { IfOk result (λ n. n ≤ most) }
    ensures bytes { IfOk result (λ n. Consumes (R.left source.old) (R.left source.new)
        (take n buffer.new)) }
    ensures end { IfOk result (λ n. n ≡ 0 → IsAtEnd (R.left source.new)) }
    ensures kept { OnErr result (Keeps (R.left source.old) (R.left source.new)) }
    ensures cause { HasCause (R.faults source.old) (R.faults source.new) result }
{
    let want = (buffer.len() as u64).min(most) as usize;
    let count = source.read(&mut buffer[..want])?;
    Ok(count)
}

/// Takes the next bytes of the stream: the events that they complete are handled and answered. The two lists are for
/// these events and for their answers; what they held goes.
fn take_piece<K: Sink, H: Handler>(
    alloc: Global,
    piece: &[u8],
    side: &mut ListenerSide,
    heard: &mut Vec<Heard>,
    text: &mut Vec<u8>,
    sink: &mut K,
    handler: &mut H,
) -> Result<(), ListenEnd>
    ensures goes { OnOk result (Goes side.old piece.now side.new
        (K.written sink.old) (K.written sink.new) (H.told handler.old handler.new)) }
    ensures stops { IfErr result (λ end. StopsIn end side.old piece.now
        (K.written sink.old) (K.written sink.new) (H.told handler.old handler.new)) }
    ensures stop { IfErr result IsStop }
    ensures sink_later { K.faults sink.old ≤ K.faults sink.new }
    ensures handler_later { H.faults handler.old ≤ H.faults handler.new }
    ensures sink_failed { result ≡ Err ListenEnd.SinkFailed
        → Rose (K.faults sink.old) (K.faults sink.new) }
    ensures handler_failed { result ≡ Err ListenEnd.HandlerFailed
        → Rose (H.faults handler.old) (H.faults handler.new) }
{
    match side.feed_into(alloc, piece, heard) {
        Ok(()) => answer_all(heard.as_slice(), text, sink, handler),
        Err(_) => Err(ListenEnd::OutOfMemory),
    }
}

/// Handles these events, which came together, and says their answers together. Where one isn't handled, those before it
/// are answered. The answers are put together in the text.
fn answer_all<K: Sink, H: Handler>(
    events: &[Heard],
    text: &mut Vec<u8>,
    sink: &mut K,
    handler: &mut H,
) -> Result<(), ListenEnd>
    ensures answered { OnOk result (Answers (K.written sink.old) (K.written sink.new)
        (H.told handler.old handler.new) events.now) }
    ensures stops { IfErr result (λ end. Stops end (K.written sink.old) (K.written sink.new)
        (H.told handler.old handler.new) events.now) }
    ensures stop { IfErr result IsStop }
    ensures sink_later { K.faults sink.old ≤ K.faults sink.new }
    ensures handler_later { H.faults handler.old ≤ H.faults handler.new }
    ensures sink_failed { result ≡ Err ListenEnd.SinkFailed
        → Rose (K.faults sink.old) (K.faults sink.new) }
    ensures handler_failed { result ≡ Err ListenEnd.HandlerFailed
        → Rose (H.faults handler.old) (H.faults handler.new) }
{
    text.clear();
    let handled = handle_all(events, handler, text);
    let said = say(text.as_slice(), sink);
    match handled {
        Ok(()) => said,
        Err(end) => Err(end),
    }
}

/// Handles these events, and adds their answers to the text.
fn handle_all<H: Handler>(
    events: &[Heard],
    handler: &mut H,
    text: &mut Vec<u8>,
) -> Result<(), ListenEnd>
    ensures answered { OnOk result (Answers (Some text.old.items) (Some text.new.items)
        (H.told handler.old handler.new) events.now) }
    ensures stops { IfErr result (λ end. Stops end (Some text.old.items) (Some text.new.items)
        (H.told handler.old handler.new) events.now) }
    ensures unhandled { IfErr result IsUnhandled }
    ensures handler_later { H.faults handler.old ≤ H.faults handler.new }
    ensures handler_failed { result ≡ Err ListenEnd.HandlerFailed
        → Rose (H.faults handler.old) (H.faults handler.new) }
{
    for event in events {
        match answer(event, handler, text) {
            Ok(()) => {}
            Err(end) => return Err(end),
        }
    }
    Ok(())
}

/// Handles an event, and adds its answer to the text.
fn answer<H: Handler>(event: &Heard, handler: &mut H, text: &mut Vec<u8>) -> Result<(), ListenEnd>
    ensures answered { OnOk result (Answers (Some text.old.items) (Some text.new.items)
        (H.told handler.old handler.new) (event.now ∷ [])) }
    ensures stops { IfErr result (λ end. Stops end (Some text.old.items) (Some text.new.items)
        (H.told handler.old handler.new) (event.now ∷ [])) }
    ensures unhandled { IfErr result IsUnhandled }
    ensures handler_later { H.faults handler.old ≤ H.faults handler.new }
    ensures handler_failed { result ≡ Err ListenEnd.HandlerFailed
        → Rose (H.faults handler.old) (H.faults handler.new) }
{
    match handler.handle(event) {
        Ok(verdict) => add_answer(verdict, text),
        Err(HandleFault::Failed) => Err(ListenEnd::HandlerFailed),
        Err(HandleFault::OutOfMemory) => Err(ListenEnd::OutOfMemory),
    }
}

/// Adds to the text the result of a verdict, and that the listener is ready for the next event.
fn add_answer(verdict: Verdict, text: &mut Vec<u8>) -> Result<(), ListenEnd>
    ensures added { OnOk result (text.new.items ≡ text.old.items ++ answer_of verdict) }
    ensures kept { OnErr result (text.new.items ≡ text.old.items) }
    ensures end { IfErr result (λ end. end ≡ ListenEnd.OutOfMemory) }
{
    match text.extend_from_slice(verdict.answer()) {
        Ok(()) => Ok(()),
        Err(_) => Err(ListenEnd::OutOfMemory),
    }
}

/// Says this text.
fn say<K: Sink>(text: &[u8], sink: &mut K) -> Result<(), ListenEnd>
    ensures said { OnOk result (Appends (K.written sink.old) (K.written sink.new) text.now) }
    ensures unsaid { OnErr result
        (AppendsFront (K.written sink.old) (K.written sink.new) text.now) }
    ensures stop { IfErr result (λ end. end ≡ ListenEnd.SinkFailed) }
    ensures later { K.faults sink.old ≤ K.faults sink.new }
    ensures failed { OnErr result (Rose (K.faults sink.old) (K.faults sink.new)) }
{
    match write_all(sink, text) {
        Ok(()) => Ok(()),
        Err(_) => Err(ListenEnd::SinkFailed),
    }
}
