//! The tests of `sv_child`, `sv_groups`, `sv_children`, `sv_timers`, `sv_events`, `sv_pool`, `sv_pool::pools`, `sv_logs::dates`, `sv_logs`, `sv_logs::known`,
//! `sv_children::edge_facts`, `sv_children::lines` and `sv_generated::draw`, worked by hand: the parts of which the machine is made. A crate of their own, so that
//! these are proved once.
#![tactic(auto)]

#[cfg(test)]
mod checks;
#[cfg(test)]
mod child_tests;
#[cfg(test)]
mod children_tests;
#[cfg(test)]
mod claims;
#[cfg(test)]
mod dates_tests;
#[cfg(test)]
mod events_tests;
#[cfg(test)]
mod facts_tests;
#[cfg(test)]
mod files_tests;
#[cfg(test)]
mod generate_tests;
#[cfg(test)]
mod groups_tests;
#[cfg(test)]
mod lines_tests;
#[cfg(test)]
mod logs_tests;
#[cfg(test)]
mod one_child;
#[cfg(test)]
mod orders;
#[cfg(test)]
mod pool_tests;
#[cfg(test)]
mod pools_tests;
#[cfg(test)]
mod sample;
#[cfg(test)]
mod timers_tests;
