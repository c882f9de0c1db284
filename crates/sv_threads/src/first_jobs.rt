//! The jobs that a world of threads begins with: the console's, the ticker's and those of the servers.
pub use handing::{hand_console, hand_links, hand_ticker};

mod handing;
