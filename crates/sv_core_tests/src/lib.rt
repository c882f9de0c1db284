//! The tests of `sv_core`: journals that were worked out by hand, with the orders of each input. A crate of their own, so
//! that `sv_core` is proved once and not a second time with its tests.
#![tactic(auto)]

#[cfg(test)]
mod checks;
#[cfg(test)]
mod tests;
