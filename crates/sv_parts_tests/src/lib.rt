//! The tests of `sv_parts::runs` and of `sv_parts::links`: runs over a spawner and a gate in memory, and links over such a gate, worked by
//! hand, from their start to their end. A crate of their own, so that these are proved once.
#![tactic(auto)]

#[cfg(test)]
mod checks;
#[cfg(test)]
mod link_tests;
#[cfg(test)]
mod quiet;
#[cfg(test)]
mod run_tests;
