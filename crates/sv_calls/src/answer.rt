//! What a call is answered.
use sv_xmlcall::Answered;

/// What a call of a link is answered.
#[derive(Drop)]
pub struct Answer {
    /// Whether the link closes after the reply.
    pub close: bool,
    pub answered: Answered,
}
