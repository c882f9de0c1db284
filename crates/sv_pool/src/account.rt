//! Laws over the lists of a pool: no event is lost or doubled.
ghost use Rattle.std.specs.Prelude.{◌≡◌, ◌≤◌, ◌<◌, ◌^◌, ℕ, List, IsSome, slice_get};
ghost use Rattle.sv_pool.specs.Account.{Step, IsAccount, after_all};
ghost use Rattle.sv_pool.specs.PoolLists.{Lists, opened, holding, rejected};

/// A law: whatever is done with a pool that takes fewer than 2^64 events, each event that it took is in one place: it
/// waits, is held, was acknowledged, dropped or given up. No more events wait than the buffer can hold.
pub fn each_event_is_in_one_place()
    ensures { (buffer listeners : ℕ) (steps : List Step) → 1 ≤ buffer
        → (after_all (opened buffer listeners) steps).taken < 2 ^ 64
        → IsAccount buffer (after_all (opened buffer listeners) steps) }
{}

/// A law: an event that is rejected is handed out next, so of two that are rejected one after the other the later one.
pub fn a_rejected_event_is_the_front()
    ensures { (listener : ℕ) (lists : Lists) → IsSome (holding listener lists.held)
        → slice_get (rejected listener lists).waiting 0 ≡ holding listener lists.held }
{}
