//! The tests of the crates that read and write texts, over their public calls: `sv_base`, `sv_commands`, `sv_expand`, `sv_http`, `sv_ini`,
//! `sv_listener` and `sv_xmlcall`. They stand in one crate, since each crate of tests reads the libraries and links a program anew.
#![tactic(auto)]

#[cfg(test)]
mod base;
#[cfg(test)]
mod checks;
#[cfg(test)]
mod commands;
#[cfg(test)]
mod expand;
#[cfg(test)]
mod http;
#[cfg(test)]
mod ini;
#[cfg(test)]
mod listener;
#[cfg(test)]
mod xmlcall;
