//! Which link loses its place, where all places are taken.
ghost use Rattle.std.specs.Prelude.{◌≡◌, ◌≤◌, ◌<◌, MatchOption};
ghost use Rattle.sv_sockets.specs.Idle.{HasLongest, claim};

/// For so many milliseconds a link that was never served keeps its place: a client that has just connected is given the
/// time to say what it wants.
const FIRST: u64 = 250;

/// For so many milliseconds after its last reply a link keeps its place: who asks one thing after the other goes on.
const NEXT: u64 = 2_000;

/// By so many milliseconds more a link is idle that was never served, so that it loses its place before any that was.
const UNSERVED: u64 = 1_000_000;

/// How a link stands. Moments are milliseconds, all by one clock.
#[derive(Clone, Copy)]
pub struct Standing {
    /// Whether it is its peer that has to say something: no reply is owed to it.
    pub waits: bool,
    /// Whether it ever got a reply of status 200.
    pub served: bool,
    /// When it got the last such reply, else when it was accepted.
    pub since: u64,
}

/// How much a link has to lose its place at this moment, in milliseconds; 0 where it keeps it: one that waits for its
/// reply, one that got a reply in the last two seconds, and one that was accepted in the last quarter of a second. So one
/// that only drips bytes counts as the more idle, the longer it does so.
pub fn claim(now: u64, link: Standing) -> u64
    ensures { result ≡ claim now link }
{
    let idle = now.saturating_sub(link.since);
    if !link.waits {
        return 0;
    }
    if link.served {
        return if idle < NEXT { 0 } else { idle };
    }
    if idle < FIRST {
        0
    } else {
        idle.saturating_add(UNSERVED)
    }
}

/// The place in this list of the link that is to lose its own: the first with the greatest claim. None where each keeps
/// it.
pub fn longest_idle(now: u64, links: &[Standing]) -> Option<usize>
    ensures { HasLongest now links.now result }
{
    let mut most: u64 = 0;
    let mut found: Option<usize> = None;
    for place in 0..links.len() {
        let next = claim(now, links[place]);
        if most < next {
            most = next;
            found = Some(place);
        }
    }
    found
}
