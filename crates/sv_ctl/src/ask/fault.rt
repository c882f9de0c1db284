//! Why a call has no answer.
ghost use Rattle.std.specs.Prelude.{◌≡◌};

use std::alloc::AllocError;
use thiserror::Error;

/// Why a call has no answer.
#[derive(Clone, Copy, Debug, Error)]
pub enum AskFault {
    /// There is no connection; the dial counted it.
    #[error("refused connection")]
    Refused,
    /// The link failed, and counted it.
    #[error("broke off")]
    LinkFailed,
    /// The link gave its end before the reply was whole.
    #[error("the reply ended too early")]
    Ended,
    /// What was read is no reply, or a reply whose body spells none.
    #[error("bad reply")]
    BadReply,
    /// The reply has this status, which isn't 200.
    #[error("status {0}")]
    Status(u16),
    #[error("out of memory")]
    OutOfMemory,
}

impl From<AllocError> for AskFault {
    ghost use Rattle.sv_ctl.specs.declared.ask.fault.AskFault.TheVariants.{OutOfMemory};

    ghost from_gives = { λ error fault. fault ≡ OutOfMemory };

    fn from(_: AllocError) -> AskFault {
        AskFault::OutOfMemory
    }
}
