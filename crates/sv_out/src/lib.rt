//! What goes into the machine and what comes out of it, and the traits by which the outside is reached. Each object of
//! the outside counts its faults, and a call fails only where that count rose in it; an object that can, tells what it
//! has left or what was written to it.
#![tactic(auto)]

pub use connection::{Exchange, Link, send_all};
pub use dialing::{Dial, DialFault};
pub use files::{Shelf, ShelfFault};
pub use map_files::MapShelf;
pub use pattern::matches;
pub use rising::RisingNames;
pub use script::{Script, ScriptDial, ScriptLink};

mod calls;
pub mod connection;
pub mod dialing;
pub mod failed;
pub mod files;
pub mod input;
pub mod map_files;
pub mod order;
pub mod pattern;
pub mod rising;
pub mod script;
pub mod sink;
pub mod source;
