//! The rule of the board, and what each step does to the role of the pass that takes it.

use crate::role::Role;
use crate::row::Report;
use crate::shown::Shown;
use crossbeam_utils::rule::{Outcome, Protocol};
use std::marker::{Brand, PhantomData};

/// The rule of the board.
pub struct Rule;

impl Protocol<Shown, Role> for Rule {
    ghost use Rattle.std.specs.Prelude.{[]};
    ghost use Rattle.sv_board.specs.declared.role.Role.TheVariants.{Reading};
    ghost use Rattle.sv_board.specs.BoardRule.{BoardRule};

    ghost holds = { BoardRule };

    ghost first = { Reading [] };
}

/// The report that is published.
pub(crate) trait Published {
    ghost use Rattle.sv_board.specs.declared.row.Report.{Report};

    ghost report: { Report };
}

impl Published for Brand {
    ghost use Rattle.std.specs.Prelude.{[]};
    ghost use Rattle.sv_base.specs.declared.state.State.TheVariants.{Unknown};

    ghost report = { record { group = []; name = []; to = Unknown } };
}

/// A report is published.
pub(crate) struct Publishes<N> {
    of: PhantomData<N>,
}

impl<N: Published> Outcome<Shown, Role> for Publishes<N> {
    ghost use Rattle.std.specs.Prelude.{◌≡◌, [], ◌∷◌, ◌++◌};
    ghost use Rattle.sv_board.specs.Roles.{seen_in};
    ghost use Rattle.sv_board.specs.declared.role.Role.TheVariants.{Writing};

    ghost then = { λ role old new after. after ≡ Writing (seen_in role ++ N.report ∷ []) };
}

/// A reader takes the rows that are shown.
pub(crate) struct Reads;

impl Outcome<Shown, Role> for Reads {
    ghost use Rattle.sv_board.specs.Roles.{Reads};

    ghost then = { λ role old new after. Reads role after old };
}
