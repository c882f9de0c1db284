//! What holds of the definitions that the contracts cite.

ghost use Rattle.std.specs.Prelude.{◌≡◌, ◌+◌, ℕ, List, Some, length, true};
ghost use Rattle.sv_links.specs.LinkBook.{LinkRecord, is_open, link_at};
ghost use Rattle.sv_links.specs.LinkDeeds.{AreInOrder, Deed, OnlyLastCloses, in_hand_of};
ghost use Rattle.sv_links.specs.LinkDeeds.{links_after, replies_on};

/// A law: whatever is done, and in whatever pieces its bytes come, the replies that are sent on a link are those to its first
/// requests, in order, each once. While it is open these are all that were begun, but the one in hand. None is sent after one
/// that closes the link.
pub fn replies_are_in_order()
    ensures in_order { (deeds : List Deed) (number : ℕ) (r : LinkRecord)
        → link_at number (links_after deeds) ≡ Some r → AreInOrder (replies_on number deeds) r }
    ensures all_begun { (deeds : List Deed) (number : ℕ) (r : LinkRecord)
        → link_at number (links_after deeds) ≡ Some r → is_open r ≡ true
        → length (replies_on number deeds) + in_hand_of r ≡ r.begun }
    ensures close { (deeds : List Deed) (number : ℕ) → OnlyLastCloses (replies_on number deeds) }
{}
