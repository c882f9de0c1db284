//! The client's conversation with the daemon's server: the calls of a command, or of the commands of the lines of an input,
//! each over a connection of its own, and what is printed of the answers.
mod calling;
pub mod course;
mod printing;
pub mod server;
mod talking;
pub mod told;
mod words;

pub use calling::run_command;
pub use course::Course;
pub use printing::say;
pub use server::Server;
pub use talking::talk;
pub use told::{Told, bad_reply, told_of};
