//! The client (the manual's chapter on supervisorctl): what its words ask of the daemon's server, over a dial, and what it
//! prints of the answers; its options, one question over a link, and the conversation line by line.
#![tactic(auto)]

pub mod ask;
pub mod controlling;
pub mod options;
pub mod refusal;
mod serving;
mod span;
pub mod talk;

pub use controlling::{control, refuse};
pub use options::{Options, options_of};
pub use refusal::Refusal;
pub use serving::server_of;
pub use span::parted;
