//! The tests of `sv_follow`: logs followed over dials in memory, worked by hand. A crate of their own, so that it is proved once
//! and not a second time with them.
#![tactic(auto)]

#[cfg(test)]
mod calls;
#[cfg(test)]
mod checks;
#[cfg(test)]
mod logs;
#[cfg(test)]
mod sessions;
#[cfg(test)]
mod tests;
