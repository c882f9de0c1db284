//! What the machine is told.

use crate::rising::RisingNames;
use sv_base::bytes::{Bytes, Piece};
use sv_base::ids::{LinkId, Run};
use sv_base::moment::Moment;
use sv_base::number::Pid;
use sv_base::signal::DaemonSignal;
use sv_base::state::{How, Side, Stream};
use sv_base::text::Text;

/// One thing that the machine is told: an event of the outside with its moment, or the answer to a question.
#[derive(Drop)]
pub enum Input {
    /// A clock moment.
    Tick {
        at: Moment,
    },
    /// A child ended.
    Exit {
        at: Moment,
        run: Run,
        how: How,
    },
    /// A child wrote a piece to one of its output streams.
    Out {
        at: Moment,
        run: Run,
        stream: Stream,
        bytes: Piece,
    },
    /// One of a child's output streams ended.
    OutEnd {
        at: Moment,
        run: Run,
        stream: Stream,
    },
    /// A client connected on one of the sides at which the daemon listens.
    Open {
        at: Moment,
        link: LinkId,
        side: Side,
    },
    /// A client sent a piece over its link.
    Piece {
        at: Moment,
        link: LinkId,
        bytes: Piece,
    },
    /// A link ended: its client sends nothing more.
    LinkEnd {
        at: Moment,
        link: LinkId,
    },
    /// The console asks for a start.
    Start {
        at: Moment,
        name: Text,
    },
    /// The console asks for a stop.
    Stop {
        at: Moment,
        name: Text,
    },
    /// The daemon itself was sent a signal.
    Signal {
        at: Moment,
        signal: DaemonSignal,
    },
    /// Answers a spawn: the new process's number.
    Pid(Pid),
    /// Answers a spawn: there is no such file.
    NoFile,
    /// Answers a spawn: the file can't be executed.
    NotExecutable,
    /// Answers a spawn: refused, for the reason given.
    Refused(Text),
    /// Answers a read of a file: its bytes, fewer than were asked for where the file ends before.
    Read(Bytes),
    /// Answers a clearing of a file: it is empty now.
    Done,
    /// Answers a read, a clearing or the question for a size: there is no such file.
    Missing,
    /// Answers the question for names: those that the pattern matches.
    Names(RisingNames),
    /// Answers the question for a size: how many bytes the file has.
    Size(u64),
    /// The order of this number couldn't be carried out. Orders are numbered from 0 over the daemon's life, modulo
    /// 2^64.
    Failed(u64),
}
