//! What a stream asks.
use crate::status::Refusal;
use sv_base::bytes::Bytes;

/// What a request asks.
#[derive(Drop)]
pub enum Ask {
    /// A call with this body. Where `close` is set, the link closes after the reply.
    Call { body: Bytes, close: bool },
    /// The request is refused, and so is all that follows it.
    Bad(Refusal),
}
