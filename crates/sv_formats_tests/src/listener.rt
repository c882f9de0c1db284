//! The tests of `sv_listener`: streams, bodies and whole runs of a listener, worked by hand from the protocol.

mod hearing_tests;
mod report_tests;
mod verdict_tests;
