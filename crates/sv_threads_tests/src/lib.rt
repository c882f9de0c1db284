//! The tests of `sv_threads`: worlds over parts in memory, with a gate that holds its jobs and with one that starts threads, and daemons
//! over such worlds. A crate of their own, so that `sv_threads` is proved once.
#![tactic(auto)]

#[cfg(test)]
mod checks;
#[cfg(test)]
mod client_tests;
#[cfg(test)]
mod clients;
#[cfg(test)]
mod course;
#[cfg(test)]
mod daemon;
#[cfg(test)]
mod daemon_tests;
#[cfg(test)]
mod held_tests;
#[cfg(test)]
mod memory_tests;
#[cfg(test)]
mod parts;
#[cfg(test)]
mod programs;
#[cfg(test)]
mod real_tests;
#[cfg(test)]
mod start_gate;
#[cfg(test)]
mod thread_tests;
