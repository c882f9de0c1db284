//! The loop's side of files: orders to write files become calls of the shelf, and those that ask for something are
//! answered by what the shelf gives.
pub use asking::{FileAnswer, clear_file, file_names, file_size, read_file};
pub use writing::{append, fresh, shift};

mod asking;
mod writing;
