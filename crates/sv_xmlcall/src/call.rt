//! Calls and replies, and why a text is refused.
use crate::value::Value;
use sv_base::text::Text;
use thiserror::Error;

/// A call of a method.
#[derive(Drop)]
pub struct Call {
    pub method: Text,
    pub params: Vec<Value>,
}

/// What a call is answered.
#[derive(Drop)]
pub enum Answered {
    /// The value of the method.
    Value(Value),
    /// A fault: its number and its text.
    Fault(i64, Text),
}

/// Why a text is no call, or no reply. The good prefix of a text is the longest of its prefixes with which a text begins that
/// spells a call, or a reply, in whose fault any value may stand until it is whole. The causes are tried in the order given
/// here.
#[derive(Clone, Copy, Debug, PartialEq, Eq, Error)]
pub enum CallFault {
    /// The good prefix opens a value inside 32 others.
    #[error("2 TooDeep")]
    TooDeep,
    /// The good prefix opens more than 65,536 values.
    #[error("3 TooManyValues")]
    TooManyValues,
    /// Nothing is spelled. The number is the length of the good prefix in bytes.
    #[error("1 NotACall {0}")]
    NotACall(usize),
    /// There was no memory left for the answer.
    #[error("out of memory")]
    OutOfMemory,
}
