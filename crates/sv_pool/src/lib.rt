//! The event pools of the manual's chapter on events: each event that a pool takes waits, is held by a listener, and is
//! acknowledged or goes back to the front. An event that a full buffer drops is reported, so none is lost unseen.
#![tactic(auto)]

pub mod account;
mod group_pool;
pub mod pool;
mod pools;
pub mod taken;

pub use crate::account::{a_rejected_event_is_the_front, each_event_is_in_one_place};
pub use crate::pool::Pool;
pub use crate::taken::{Dropped, Taken};
pub use group_pool::GroupPool;
pub use pools::Pools;
