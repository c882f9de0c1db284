//! Calls and replies of XML-RPC, read: which texts spell one, and how any other is refused, say the definitions of `sv_xmlcall`.
#![tactic(auto)]

pub mod read;

pub use crate::read::{read_call, read_reply};
