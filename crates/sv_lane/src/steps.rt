//! What each step of a lane does to the roles of the passes that it touches.

ghost use Rattle.std.specs.Prelude.{ℕ};

use crate::role::Role;
use crossbeam_channel::protocol::{Join, Lesson, Outcome, Split};
use std::marker::{Brand, PhantomData};

/// The most items in a channel, which is known only at run time.
pub(crate) trait Room {
    ghost room: { ℕ };
}

impl Room for Brand {
    ghost room = { 0 };
}

/// The first pass becomes the taker's, and the pass of `Seats` is made.
pub(crate) struct Opens<N> {
    of: PhantomData<N>,
}

impl<T, N: Room> Split<Role<T>> for Opens<N> {
    ghost use Rattle.std.specs.Prelude.{[]};
    ghost use Rattle.sv_lane.specs.declared.role.Role.TheVariants.{Seating, Taking};

    ghost left = { λ role. Taking N.room [] };

    ghost right = { λ role. Seating N.room 0 [] };
}

/// A seat is made, and the pass of its poster.
pub(crate) struct NewSeat;

impl<T> Split<Role<T>> for NewSeat {
    ghost use Rattle.sv_lane.specs.Roles.{new_seat, with_seat};

    ghost left = { with_seat };

    ghost right = { new_seat };
}

/// An item is sent.
pub(crate) struct Posts;

impl<T> Outcome<T, Role<T>> for Posts {
    ghost use Rattle.std.specs.Prelude.{◌≡◌};
    ghost use Rattle.sv_lane.specs.Roles.{with_posted};

    ghost then = { λ role item new. new ≡ with_posted role item };
}

impl<T> Lesson<T, Role<T>> for Posts {
    ghost use Rattle.std.specs.Prelude.{⊤};

    ghost fact = { λ role items. ⊤ };
}

/// An item is received, which is of some seat.
pub(crate) struct Takes;

impl<T> Outcome<T, Role<T>> for Takes {
    ghost use Rattle.std.specs.Prelude.{◌≡◌, ℕ};
    ghost use Rattle.sv_lane.specs.Roles.{with_taken};

    ghost then = { λ role item new. (seat : ℕ) × (new ≡ with_taken role seat item) };
}

impl<T> Lesson<T, Role<T>> for Takes {
    ghost use Rattle.std.specs.Prelude.{⊤};

    ghost fact = { λ role items. ⊤ };
}

/// A poster is taken in by the pass of `Seats`.
pub(crate) struct Gathers;

impl<T> Join<Role<T>> for Gathers {
    ghost use Rattle.sv_lane.specs.declared.role.Role.TheVariants.{Spent};
    ghost use Rattle.sv_lane.specs.Roles.{with_closed};

    ghost both = { with_closed };

    ghost spent = { Spent };
}

/// The pass of `Seats`, which took in all posters, is taken in by the taker's.
pub(crate) struct Closes;

impl<T> Join<Role<T>> for Closes {
    ghost use Rattle.sv_lane.specs.declared.role.Role.TheVariants.{Spent};
    ghost use Rattle.sv_lane.specs.Roles.{finishing};

    ghost both = { finishing };

    ghost spent = { Spent };
}

/// An item is received that was left. Where none is, the items taken of each seat are what it posted.
pub(crate) struct Empties;

impl<T> Outcome<T, Role<T>> for Empties {
    ghost use Rattle.std.specs.Prelude.{◌≡◌, ◌<◌, ℕ};
    ghost use Rattle.sv_lane.specs.Roles.{left_in, with_taken};

    ghost then = { λ role item new.
        (seat : ℕ) × (0 < left_in role) × (new ≡ with_taken role seat item) };
}

impl<T> Lesson<T, Role<T>> for Empties {
    ghost use Rattle.std.specs.Prelude.{◌≡◌, ℕ, []};
    ghost use Rattle.sv_lane.specs.Order.{of_seat, posted_by};
    ghost use Rattle.sv_lane.specs.Roles.{closed_in, taken_in};

    ghost fact = { λ role items. items ≡ []
        → (seat : ℕ) → of_seat seat (taken_in role) ≡ posted_by (closed_in role) seat };
}
