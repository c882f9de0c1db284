//! One call to the daemon's server: where its URL leads, the request over one connection, and what the reply comes to.
mod asking;
mod fault;
mod hearing;
mod server;
mod url;

pub use asking::ask;
pub use fault::AskFault;
pub use server::ask_server;
pub use url::{host_of, place_of};
