//! The loop's side of links: orders to send, to read on and to close become words to the lane of a link's job; and what the
//! notes of a link change.
pub use life::{LinkLife, link_lane};
pub use live_links::{LiveLinks, Waiting};
pub use starting::start_link;

mod closing;
mod ends;
mod life;
mod live_links;
mod sending;
mod starting;
