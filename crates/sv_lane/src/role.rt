//! What a pass of a lane stands for.

use std::collections::LinkedList;

/// What a pass of a lane stands for, and what it knows of the lane. No value of it is made.
pub enum Role<T> {
    /// The first pass. The channel holds nothing, and no seat was made.
    Opening,
    /// The pass of `Seats`: the most items in the channel, how many seats were made, and what the first of them posted,
    /// whose posters were taken in.
    Seating {
        room: u64,
        made: u64,
        closed: LinkedList<LinkedList<T>>,
    },
    /// The pass of a poster: the most items in the channel, its seat's number, and what it posted.
    Posting {
        room: u64,
        seat: u64,
        posted: LinkedList<T>,
    },
    /// The pass of the taker: the most items in the channel, and what was taken, each item with its seat's number.
    Taking {
        room: u64,
        taken: LinkedList<(u64, T)>,
    },
    /// The pass that took in all others: what each seat posted, what was taken, and the most items in the channel now.
    Finishing {
        closed: LinkedList<LinkedList<T>>,
        taken: LinkedList<(u64, T)>,
        left: u64,
    },
    /// A pass that was taken in.
    Spent,
}
