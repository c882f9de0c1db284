//! The tests of `sv_ini`: texts and what they say, and texts of the most bytes.

mod limit_tests;
mod tests;
