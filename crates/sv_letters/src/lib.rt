//! Which byte may follow which in a text: in any text of UTF-8, in a program's name, in a text of XML, or among any
//! bytes (`specs/Letters.antt`).
#![tactic(auto)]

mod bad_byte;
pub mod laws;
mod letters;

pub use crate::bad_byte::BadByte;
pub use crate::letters::{Awaits, Letters};
