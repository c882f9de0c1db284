//! The sizes that the log files of a configuration have on a shelf: each file once, by rising names.
mod fault;
mod sizes;

pub use fault::SizesFault;
pub use sizes::sizes_of;
