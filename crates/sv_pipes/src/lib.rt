//! Pipes: what a listener says on its standard output, and what a captured stream holds.
//!
//! Both readers take a stream in pieces, cut anywhere, and keep only bytes that aren't decided yet. A value stands
//! for the whole stream so far: what it answers is what is new in the one cut of that stream.
#![tactic(auto)]

pub mod captured;
pub mod laws;
pub mod parts;
pub mod talk;
pub mod tokens;
mod word;

pub use captured::Capture;
pub use parts::{Part, Side};
pub use talk::ListenerTalk;
pub use tokens::{TalkState, Token};
