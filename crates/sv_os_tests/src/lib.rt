//! The tests of `sv_os` over its public calls: real files, streams, sockets, programs and threads, and the jobs of a real
//! program and of a real address in threads of the real gate. A crate of their own, so that `sv_os` doesn't stand on the
//! jobs, and is proved once and not a second time with its tests.
#![tactic(auto)]

#[cfg(test)]
mod checks;
#[cfg(test)]
mod gate_tests;
#[cfg(test)]
mod job_tests;
#[cfg(test)]
mod link_tests;
#[cfg(test)]
mod listen_tests;
#[cfg(test)]
mod machine_tests;
#[cfg(test)]
mod os_tests;
#[cfg(test)]
mod program_tests;
#[cfg(test)]
mod report_tests;
#[cfg(test)]
mod start_tests;
