//! The tests of `sv_pipes`, `sv_runs`, `sv_runs::streams`, `sv_links`, `sv_multi`, `sv_calls` and `sv_calls::answers`, worked by hand: what
//! comes from processes and clients, and what is said to them. A crate of their own, so that these are proved once.
#![tactic(auto)]

#[cfg(test)]
mod answers_tests;
#[cfg(test)]
mod calls_tests;
#[cfg(test)]
mod capture_tests;
#[cfg(test)]
mod checks;
#[cfg(test)]
mod links_tests;
#[cfg(test)]
mod multi_tests;
#[cfg(test)]
mod parts;
#[cfg(test)]
mod pipes_tests;
#[cfg(test)]
mod runs_tests;
#[cfg(test)]
mod streams_tests;
