//! The tests of `sv_ctl::ask` and `sv_ctl`: calls and conversations over dials in memory, worked by hand. A crate of their own, so
//! that these are proved once and not a second time with their tests.
#![tactic(auto)]

#[cfg(test)]
mod ask_tests;
#[cfg(test)]
mod checks;
#[cfg(test)]
mod commands;
#[cfg(test)]
mod failures;
#[cfg(test)]
mod replies;
#[cfg(test)]
mod sessions;
#[cfg(test)]
mod tests;
