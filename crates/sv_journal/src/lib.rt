//! The lines of a journal, read and written: a header line, an input or an order has exactly one line
//! (`specs/JournalLine.antt`), and reading gives the one value that has the line, or refuses the line exactly where no
//! value has it. Lines are taken and given without their line feed. Reading takes time linear in the bytes.
#![tactic(auto)]

pub mod code_list;
mod exit_codes;
pub mod fault;
pub mod fits;
pub mod header;
mod header_line;
mod input_line;
pub mod laws;
mod names_line;
mod number;
pub mod order_laws;
mod order_line;
mod order_words;
mod piece;
pub mod program_name;
pub mod read;
pub mod reading_orders;
pub mod round_trip;
mod stop;
mod text_byte;
mod token;
mod word;
mod words;
pub mod write;
pub mod writing_headers;

pub use crate::code_list::ExitCodes;
pub use crate::fault::LineFault;
pub use crate::header::{Header, Program, Version};
pub use crate::program_name::ProgramName;
pub use crate::read::{LINE_LIMIT, read_header, read_input, read_tick};
pub use crate::reading_orders::read_order;
pub use crate::write::{put_input, put_order, write_input, write_order};
pub use crate::writing_headers::write_header;
