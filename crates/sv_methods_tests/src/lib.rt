//! Calls of methods with what comes of them, and waits with their answers, in tables of texts that were worked out
//! by hand. A crate of its own, so that `sv_methods` is proved once and not a second time with its tests.
#![tactic(auto)]

#[cfg(test)]
mod act_tests;
#[cfg(test)]
mod checks;
#[cfg(test)]
mod info_tests;
#[cfg(test)]
mod log_tests;
#[cfg(test)]
mod made;
#[cfg(test)]
mod multi_tests;
#[cfg(test)]
mod params_tests;
#[cfg(test)]
mod said;
#[cfg(test)]
mod sample;
#[cfg(test)]
mod scenes;
#[cfg(test)]
mod told;
#[cfg(test)]
mod wait_tests;
