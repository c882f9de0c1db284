//! The tests of `sv_journal`: tables of lines, each with the column at which it breaks, and the lines of values. A crate of
//! their own, so that `sv_journal` is proved once and not a second time with its tests.
#![tactic(auto)]

#[cfg(test)]
mod checks;
#[cfg(test)]
mod columns;
#[cfg(test)]
mod limits;
#[cfg(test)]
mod lines;
#[cfg(test)]
mod order_lines;
#[cfg(test)]
mod orders;
#[cfg(test)]
mod tests;
