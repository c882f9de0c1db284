//! What a listener hears: an event, or the first fault of the stream.

use sv_base::bytes::Bytes;
use sv_base::text::Text;

/// An event as a listener gets it.
#[derive(Drop)]
pub struct Heard {
    /// The name of the event's type, as `TICK_5`.
    pub eventname: Text,
    /// The name of the pool that handed it out.
    pub pool: Text,
    /// Its number among all events of the daemon's life.
    pub serial: u64,
    /// Its number among the events of its pool.
    pub poolserial: u64,
    pub body: Bytes,
}

/// Why no further event is heard.
#[derive(Clone, Copy, PartialEq, Eq)]
pub enum HeardFault {
    /// A header line that isn't one of the protocol's, or one of more than 4,096 bytes.
    BadHeader,
    /// A body of more than 33,554,432 bytes.
    TooLong,
}

impl HeardFault {
    ghost use Rattle.std.specs.Prelude.{◌≡◌};
    ghost use Rattle.sv_listener.specs.FaultNumbers.{fault_number};

    /// The fault's number.
    pub fn number(self) -> u8
        ensures { result ≡ fault_number self }
    {
        match self {
            HeardFault::BadHeader => 1,
            HeardFault::TooLong => 2,
        }
    }
}
