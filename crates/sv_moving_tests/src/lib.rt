//! The tests of `sv_moving`: texts, and what Supervisor 4.2.5 reads in them.
#![tactic(auto)]

#[cfg(test)]
mod tests;
