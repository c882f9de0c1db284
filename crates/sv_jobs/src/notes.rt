//! What jobs and the loop tell each other.

use sv_base::{Bytes, DaemonSignal, How, LinkId, Piece, Run, Side, Stream, Text};

/// What a job tells the loop.
#[derive(Drop)]
pub enum Note {
    /// A second passed.
    Tick,
    /// A run's process ended.
    Exit(Run, How),
    /// A run wrote a piece to one of its output streams.
    Out(Run, Stream, Piece),
    /// One of a run's output streams is at its end, or is read no more.
    OutEnd(Run, Stream),
    /// A client connected at this side; its link was posted before.
    Open(Side),
    /// A client sent a piece over its link.
    Piece(LinkId, Piece),
    /// A link is over.
    LinkEnd(LinkId),
    /// The console asks for a signal to the daemon.
    Signal(DaemonSignal),
    /// The console asks for a start.
    Start(Text),
    /// The console asks for a stop.
    Stop(Text),
    /// Bytes for a run's standard input were written whole.
    Wrote(Run),
    /// Nothing more is written to a run's standard input.
    StdinEnd(Run),
    /// Bytes for a link were written whole.
    Sent(LinkId),
    /// Memory was refused to a job.
    NoMemory,
}

/// What the loop tells the job of a link.
#[derive(Drop)]
pub enum LinkWord {
    /// Writes these bytes over the link.
    Send(Bytes),
    /// Reads one piece more.
    More,
    /// Ends.
    Close,
}

/// What the loop tells the job of a run's standard input.
#[derive(Drop)]
pub enum StdinWord {
    /// Writes these bytes.
    Write(Bytes),
    /// Ends.
    Close,
}
