//! Several calls in one: the calls that the value of `system.multicall` asks for, and the one value that their answers make.
//! `specs/MultiCall.antt` is the definition. Nothing here carries a call out.
#![tactic(auto)]

mod copy;
pub mod fault;
pub mod gather;
pub mod part;
pub mod parts;

pub use crate::fault::MultiFault;
pub use crate::gather::Gather;
pub use crate::part::Part;
