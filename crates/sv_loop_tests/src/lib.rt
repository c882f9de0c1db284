//! The tests of `sv_loop` that aren't journals with what their replay gives (those are the input of `sv_loop_cases`): its limits,
//! cuts, adapters and generated runs. A crate of their own, so that `sv_loop` is proved once and not a second time with its tests.
#![tactic(auto)]

#[cfg(test)]
mod adapter_tests;
#[cfg(test)]
mod checks;
#[cfg(test)]
mod generated_tests;
#[cfg(test)]
mod order_tests;
#[cfg(test)]
mod tests;
