//! A lane between threads: many seats post, one taker takes. For each seat, what was taken of it, then what of it is in
//! the channel, is what it posted; `Taker::finish` tells it, once all posters are back.
#![tactic(auto)]

mod finishing;
mod making;
mod parts;
mod poster;
mod role;
mod rule;
mod seats;
mod steps;
mod taker;
mod two;

pub use making::lane;
pub use poster::Poster;
pub use seats::Seats;
pub use taker::Taker;
pub use two::post_from_two;
