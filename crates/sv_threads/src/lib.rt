//! The world made of threads: pipes, links, exits, console and clock have jobs of their own, which post what they read;
//! here notes become inputs, and orders become calls and words to jobs. The first jobs are those that begin with the world.
#![tactic(auto)]

pub use world::ThreadWorld;

mod acting;
mod answers;
pub mod first_jobs;
mod handing;
mod hearing;
mod link_words;
mod opening;
mod starting;
mod world;
