//! What holds of the definitions that the contracts cite.

ghost use Rattle.std.specs.Prelude.{◌≡◌, ◌<◌, List, ℕ, []};
ghost use Rattle.std.specs.List.{flat_map};
ghost use Rattle.sv_pipes.specs.StreamCut.{closed_of};
ghost use Rattle.sv_runs.specs.Streams.StreamBook.{decided_in, logged_in, parts_through};

/// A law: without capture what was given to a channel is what was logged of it in the end, in whatever pieces it came.
pub fn all_is_logged()
    ensures { (pieces : List (List ℕ))
        → logged_in (parts_through 0 [] pieces) ≡ flat_map (λ piece. piece) pieces }
{}

/// A law: with capture the parts of a channel up to its end are what the end of the whole channel decides, in whatever pieces
/// it came.
pub fn pieces_decide_the_whole()
    ensures { (limit : ℕ) (pieces : List (List ℕ)) → 0 < limit
        → decided_in (parts_through limit [] pieces)
        ≡ closed_of limit (flat_map (λ piece. piece) pieces) }
{}
