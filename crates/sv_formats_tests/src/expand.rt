//! The tests of `sv_expand`: tables of templates, words and pairs with what they give, and texts at the limits.

mod limits;
mod tables;
