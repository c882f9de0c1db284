//! The writer of a board.

ghost use Rattle.std.specs.Prelude.{◌≡◌, [], ◌∷◌, ◌++◌, ◌+◌, MatchResult, drop, false};
ghost use Rattle.left_right.specs.Sides.{view};
ghost use Rattle.sv_board.specs.Board.{after};
ghost use Rattle.sv_board.specs.Roles.{Shows, seen_in, writing};

use crate::home::Home;
use crate::role::Role;
use crate::row::Report;
use crate::rule::{Published, Publishes, Rule};
use crate::shown::Shown;
use crate::ticket::Ticket;
use core::mem::replace_with;
use left_right::writer::Writer;
use std::alloc::AllocError;
use std::marker::Brand;
use std::snapshot::Snapshot;
use std::sync::Wait;

/// The one writer of a board. Its drop waits for readers that are reading; after it they read no more.
pub struct BoardWriter<R: Wait + Drop> {
    pub(crate) end: Writer<Shown, Report, Role, Rule>,
    pub(crate) rt: R,
    /// Memory ran out.
    pub(crate) is_over: bool,
    pub(crate) home: Home,
    ghost writing: { view end.desk.place
        ≡ writing end.desk.shown.value.count (seen_in (view end.desk.place)) },
    ghost shows: { Shows end.desk.shown.value (seen_in (view end.desk.place)) },
    ghost idle: { is_over ≡ false → drop end.behind end.log.items ≡ [] },
}

impl<R: Wait + Drop> BoardWriter<R> {
    ghost use Rattle.std.specs.Prelude.{length, IfOk, IsErr, true, not, is_ok, if◌then◌else◌};
    ghost use Rattle.sv_board.specs.Ends.{IsSameWriter, IsTicketOf, reported, told};

    /// Reports and publishes. Waits for readers that still read the rows from before the last report. Once memory ran
    /// out it reports no more, and readers go on with what was published.
    pub fn report(&mut self, report: &Report) -> Result<Ticket, AllocError>
        ensures reported { reported self.new
            ≡ reported self.old ++ (if is_ok result then report.now ∷ [] else []) }
        ensures told { IfOk result (λ t. told t ≡ length (reported self.new)) }
        ensures ticket { IfOk result (λ t. IsTicketOf self.new t) }
        ensures refuses { self.old.is_over ≡ true → IsErr result }
        ensures over { self.new.is_over ≡ not (is_ok result) }
        ensures same { IsSameWriter self.old self.new }
    {
        if self.is_over {
            return Err(AllocError);
        }
        self.is_over = true;
        publish::<Brand, R>(&mut self.end, &self.rt, report)?;
        self.is_over = false;
        Ok(Ticket {
            count: self.end.published().count,
            home: Snapshot::of(&self.home),
        })
    }
}

/// Publishes this report.
fn publish<N: Published, R: Wait>(
    end: &mut Writer<Shown, Report, Role, Rule>,
    rt: &R,
    report: &Report,
) -> Result<(), AllocError>
    requires report { N.report ≡ report.now }
    requires idle { drop end.old.behind end.old.log.items ≡ [] }
    requires writing { view end.old.desk.place
        ≡ writing end.old.desk.shown.value.count (seen_in (view end.old.desk.place)) }
    requires shows { Shows end.old.desk.shown.value (seen_in (view end.old.desk.place)) }
    ensures writing { view end.new.desk.place
        ≡ writing end.new.desk.shown.value.count (seen_in (view end.new.desk.place)) }
    ensures shows { Shows end.new.desk.shown.value (seen_in (view end.new.desk.place)) }
    ensures reported { MatchResult result
        (λ _. (seen_in (view end.new.desk.place)
        ≡ seen_in (view end.old.desk.place) ++ N.report ∷ [])
        × (drop end.new.behind end.new.log.items ≡ []))
        (λ _. seen_in (view end.new.desk.place) ≡ seen_in (view end.old.desk.place)) }
{
    end.append(report.clone()?).map_err(|_| AllocError)?;
    replace_with(end, rt, |end, rt| publish_one::<N, R>(end, rt))
}

/// Publishes the one report that waits.
fn publish_one<N: Published, R: Wait>(
    end: Writer<Shown, Report, Role, Rule>,
    rt: &R,
) -> (Writer<Shown, Report, Role, Rule>, Result<(), AllocError>)
    requires waits { drop end.behind end.log.items ≡ N.report ∷ [] }
    requires writing { view end.desk.place
        ≡ writing end.desk.shown.value.count (seen_in (view end.desk.place)) }
    requires shows { Shows end.desk.shown.value (seen_in (view end.desk.place)) }
    ensures writing { view result.0.desk.place
        ≡ writing result.0.desk.shown.value.count (seen_in (view result.0.desk.place)) }
    ensures shows { Shows result.0.desk.shown.value (seen_in (view result.0.desk.place)) }
    ensures reported { MatchResult result.1
        (λ _. (seen_in (view result.0.desk.place)
        ≡ seen_in (view end.desk.place) ++ N.report ∷ [])
        × (drop result.0.behind result.0.log.items ≡ []))
        (λ _. seen_in (view result.0.desk.place) ≡ seen_in (view end.desk.place)) }
{
    end.publish_as::<Publishes<N>, R>(rt)
}

impl<R: Wait + Drop> Drop for BoardWriter<R> {
    fn drop(self) {
        let Self {
            end,
            rt,
            is_over: _,
            home: _home,
        } = self;
        drop(end.take(&rt));
    }
}
