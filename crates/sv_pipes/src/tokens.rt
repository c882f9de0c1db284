//! What a listener says, and the states of a listener.

use sv_base::bytes::Bytes;

/// What a listener says (the manual's chapter on events, "Event Notification Protocol").
#[derive(Drop)]
pub enum Token {
    /// `READY` and a line feed.
    Ready,
    /// The bytes of a result.
    Result(Bytes),
    /// The first byte that is outside the talk, which ends it.
    Wrong,
}

/// The state of a listener (the manual's chapter on events, "Event Listener States").
#[derive(Clone, Copy, PartialEq, Eq)]
pub enum TalkState {
    /// Its last result was taken, or it said nothing yet.
    Acknowledged,
    /// It waits for an event.
    Ready,
    /// It has an event.
    Busy,
    /// It said something outside the talk.
    Unknown,
}
