//! The tests of what stands in place of the world, and of the threads beside it: the outside, the gate and the files in memory, the jobs over
//! lanes, and the board, worked by hand. A crate of their own, so that what they test is proved once.
#![tactic(auto)]

#[cfg(test)]
mod board_tests;
#[cfg(test)]
mod checks;
#[cfg(test)]
mod console_tests;
#[cfg(test)]
mod file_orders_tests;
#[cfg(test)]
mod gate_tests;
#[cfg(test)]
mod job_types_tests;
#[cfg(test)]
mod lane_tests;
#[cfg(test)]
mod link_tests;
#[cfg(test)]
mod out_tests;
#[cfg(test)]
mod outside_tests;
#[cfg(test)]
mod pump_tests;
#[cfg(test)]
mod short_tests;
#[cfg(test)]
mod stdin_tests;
#[cfg(test)]
mod telling;
#[cfg(test)]
mod thread_tests;
#[cfg(test)]
mod world_tests;
