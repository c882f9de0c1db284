//! The commands of the client (the manual's chapter on supervisorctl): the calls that each makes, and what their answers
//! print. Nothing here reads or writes.
#![tactic(auto)]

pub mod act;
mod calls;
mod lines;
mod members;
mod rows;
pub mod shown;
pub mod status;
pub mod step;
pub mod steps;
mod subjects;
mod tables;
pub mod verb;

pub use act::Act;
pub use lines::reply_shown;
pub use shown::Shown;
pub use status::Status;
pub use step::{Line, Show, Step};
pub use steps::steps_of;
pub use verb::Verb;
