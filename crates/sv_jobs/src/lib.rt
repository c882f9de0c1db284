//! The functions of the jobs: what runs beside the loop, and posts what it reads as notes. Each says what it read, wrote,
//! took and posted, over objects of the outside that tell it.
#![tactic(auto)]

pub use accepting::accept_links;
pub use any_job::{AnyJob, NoBoard};
pub use consoling::console;
pub use links::{LinkJob, LinksJob};
pub use notes::{LinkWord, Note, StdinWord};
pub use pumping::pump;
pub use runs::{ErrPump, OutPump, StdinJob, WatchJob};
pub use serving::serve_link;
pub use short::{ConsoleJob, TickerJob};
pub use stdin_writing::write_stdin;
pub use ticking::ticker;
pub use watching::watch;

mod accepting;
pub mod any_job;
mod console_line;
mod consoling;
mod ending;
mod line_in_hand;
pub mod links;
mod notes;
mod pumping;
mod reading;
mod room;
pub mod runs;
mod serving;
pub mod short;
mod stdin_writing;
mod ticking;
mod watching;
