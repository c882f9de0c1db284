//! The loop's side of what runs beside it, each in a room of its own: runs of processes, links of clients, and files.
#![tactic(auto)]

pub mod files;
pub mod links;
pub mod runs;
