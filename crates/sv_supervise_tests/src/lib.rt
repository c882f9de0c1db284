//! The tests of `sv_supervise`: how a daemon begins, goes on and ends, worked by hand over worlds, shelves and sinks in memory. A crate of their own,
//! so that `sv_supervise` is proved once and not a second time with its tests.
#![tactic(auto)]

#[cfg(test)]
mod arguments_tests;
#[cfg(test)]
mod checks;
#[cfg(test)]
mod courses;
#[cfg(test)]
mod daemon_tests;
#[cfg(test)]
mod outcome_tests;
#[cfg(test)]
mod record_tests;
#[cfg(test)]
mod row_tests;
#[cfg(test)]
mod rows;
#[cfg(test)]
mod servers_tests;
#[cfg(test)]
mod tests;
