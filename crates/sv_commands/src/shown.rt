//! What an answer prints.
use crate::status::Status;
use sv_base::Bytes;

/// What an answer prints, and the status that it asks for.
#[derive(Drop)]
pub struct Shown {
    pub text: Bytes,
    pub status: Status,
}
