//! A worked example in one thread, four threads that post, and the public call.

use std::alloc::AllocError;
use std::sync::Wait;
use std::thread;
use sv_lane::{Poster, lane, post_from_two};

/// How many items each of the four threads posts.
const ITEMS: u32 = 10_000;

#[test]
fn two_seats_in_their_order(rt: HostRuntime) -> Result<(), AllocError> {
    let alloc = rt.alloc();
    let (mut taker, mut seats) = lane(alloc, 4)?;
    let mut first = seats.seat()?;
    let mut second = seats.seat()?;
    first.post(&rt, 'a');
    second.post(&rt, 'c');
    first.post(&rt, 'b');
    let taken = [taker.take(&rt), taker.take(&rt), taker.take(&rt)];
    let of_first: [Option<usize>; 2] = ['a', 'b'].map(|item| taken.iter().position(|x| *x == item));
    assert!(rt;
        of_first[0].is_some() && of_first[0] < of_first[1],
        "a before b"
    );
    assert_eq!(rt; taken.iter().filter(|x| **x == 'c').count(), 1);
    let mut posters = Vec::with_capacity(alloc, 2)?;
    posters.push_reserved(first);
    posters.push_reserved(second);
    assert!(rt;
        taker.finish(&rt, seats, posters).is_empty(),
        "nothing is left"
    );
    Ok(())
}

/// Posts the numbers below `ITEMS` in their order, each with this mark.
fn post_numbers<R: Wait>(rt: &R, poster: Poster<(u8, u32)>, mark: u8) {
    let mut poster = poster;
    for number in 0..ITEMS {
        poster.post(rt, (mark, number));
    }
}

#[test]
fn four_threads_each_in_its_order(rt: HostRuntime) -> Result<(), AllocError> {
    let alloc = rt.alloc();
    let (mut taker, mut seats) = lane(alloc, 16)?;
    let mut threads = Vec::new(alloc);
    for mark in 0u8..4 {
        let poster = seats.seat()?;
        threads.push(thread::spawn(&rt, move || post_numbers(&rt, poster, mark))?)?;
    }
    let mut next = [0u32; 4];
    for _ in 0..4 * ITEMS {
        let (mark, number) = taker.take(&rt);
        if let Some(place) = next.get_mut(usize::from(mark)) {
            assert_eq!(rt; number, *place, "the next item of seat {mark}");
            *place = number.wrapping_add(1);
        }
    }
    for thread in threads {
        thread.join(&rt);
    }
    assert_eq!(rt; next, [ITEMS; 4]);
    Ok(())
}

#[test]
fn the_lists_are_put_together(rt: HostRuntime) -> Result<(), AllocError> {
    let alloc = rt.alloc();
    for takes in [995, 1_000] {
        let mut even = Vec::new(alloc);
        let mut odd = Vec::new(alloc);
        for number in 0u64..500 {
            even.push(2 * number)?;
            odd.push(2 * number + 1)?;
        }
        let all = post_from_two(&rt, alloc, 8, even, odd, takes)?;
        for first in 0u64..2 {
            let mut next = first;
            for item in all.iter().filter(|x| **x % 2 == first) {
                assert_eq!(rt; *item, next);
                next = next.wrapping_add(2);
            }
            assert_eq!(rt; next, 1_000 + first);
        }
        assert_eq!(rt; all.len(), 1_000);
    }
    Ok(())
}
