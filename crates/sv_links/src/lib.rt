//! The links of the daemon, its accepted connections: what their bytes ask, which requests are begun and answered, and when
//! they get More. A link is kept until it is over and its request in hand is answered, and is found by its number in
//! logarithmic time.
#![tactic(auto)]

mod kept_link;
pub mod laws;
mod links;
mod open_link;

pub use links::{LINK_LIMIT, Links};
