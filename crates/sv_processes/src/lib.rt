//! The processes of the machine: what starts programs, sends them signals and waits for their ends. Each object counts its
//! errors, and tells nothing of what a program does.
#![tactic(auto)]

mod accounts;
mod chain;
mod ends;
mod left;
mod links;
mod living;
mod lookup;
mod pipes;
mod programs;
mod rules;
mod signaller;
mod signals;
mod starting;
mod state;
mod tools;
mod waiter;

pub use accounts::{Account, account_in, unknown_users};
pub use chain::{Links, MaskLink, SignalLink, UserLink, words_before};
pub use ends::{fault_of, how_of};
pub use living::Living;
pub use lookup::{Caller, is_program, may_execute};
pub use pipes::PipeSource;
pub use programs::OsSpawner;
pub use rules::ProgramRules;
pub use signals::kill_line;
pub use state::ProcessState;
pub use tools::Tools;
pub use waiter::OsWaiter;
