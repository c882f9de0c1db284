//! The tests of `sv_xmlcall`: tables of texts that were worked out from the grammar, and what reading, writing and keeping them gives.

mod limits;
mod tables;
mod tests;
