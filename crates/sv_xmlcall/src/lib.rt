//! The texts of XML-RPC, read and written: `specs/Spells.antt` and `specs/SpelledTexts.antt` say which texts spell a call
//! or a reply; `specs/Judged.antt` says how a text is refused, by the longest prefix with which such a text begins
//! (`specs/Beginnings.antt`) and by the values that this opens (`specs/Openings.antt`); `specs/Written.antt` says which one
//! text is written for a call or a reply. Nesting and the number of values are bounded while a text is read, before
//! anything is built beyond them.
#![tactic(auto)]

pub mod atoms;
pub mod call;
mod content;
pub mod document;
mod integer;
pub mod laws;
pub mod log;
pub mod nested;
mod room;
mod simple;
pub mod stop;
pub mod tag;
pub mod value;
pub mod write;

pub use crate::call::{Answered, Call, CallFault};
pub use crate::log::text_of_log;
pub use crate::value::Value;
pub use crate::write::{write_call, write_fault, write_reply};
