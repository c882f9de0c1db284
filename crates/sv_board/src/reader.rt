//! A reader of a board.

ghost use Rattle.std.specs.Prelude.{◌≡◌, ◌≤◌, length, IfOk};
ghost use Rattle.left_right.specs.Sides.{view};
ghost use Rattle.sv_board.specs.Board.{IsFront, board};
ghost use Rattle.sv_board.specs.Roles.{IsReading, seen_in};

use crate::home::Home;
use crate::role::Role;
use crate::row::Row;
use crate::rule::{Reads, Rule};
use crate::shown::Shown;
use crate::ticket::Ticket;
use core::mem::replace_with;
use left_right::reader::Reader;
use std::alloc::AllocError;
use std::snapshot::Snapshot;
use std::sync::Wait;
use std::thread;

/// A reader of a board, which may be in a thread of its own.
#[derive(Drop)]
pub struct BoardReader {
    pub(crate) end: Reader<Shown, Role, Rule>,
    /// How many reports the last read showed.
    pub(crate) count: u64,
    /// How many reports the tickets that were learnt tell of, at most.
    pub(crate) learnt: u64,
    pub(crate) home: Snapshot<Home>,
    ghost reading: { IsReading (view end.place) },
    ghost counted: { count ≤ length (seen_in (view end.place)) },
}

impl BoardReader {
    ghost use Rattle.std.specs.Prelude.{max, IfErr};
    ghost use Rattle.sv_board.specs.Ends.{IsOfOneBoard, IsSameReader, learnt, seen, told};

    /// Learns that the ticket's report was published. Each later read shows it, and all reports before it.
    pub fn learn(&mut self, ticket: Ticket)
        requires { IsOfOneBoard ticket self.old }
        ensures learnt { learnt self.new ≡ max (learnt self.old) (told ticket) }
        ensures seen { seen self.new ≡ seen self.old }
        ensures same { IsSameReader self.old self.new }
    {
        if self.learnt < ticket.count {
            self.learnt = ticket.count;
        }
    }

    /// The rows after a prefix of what was reported, no shorter than that of each earlier read and each ticket that was
    /// learnt. Refused where memory runs out, or the writer is gone; the reader is then as it was.
    pub fn read<R: Wait>(&mut self, rt: &R) -> Result<Vec<Row>, AllocError>
        ensures rows { IfOk result (λ rows. rows.items ≡ board (seen self.new)) }
        ensures front { IsFront (seen self.old) (seen self.new) }
        ensures told { IfOk result (λ _. learnt self.old ≤ length (seen self.new)) }
        ensures unchanged { IfErr result (λ _. seen self.new ≡ seen self.old) }
        ensures learnt { learnt self.new ≡ learnt self.old }
        ensures same { IsSameReader self.old self.new }
    {
        let (rows, count) = look_until(&mut self.end, rt, self.learnt)?;
        self.count = count;
        Ok(rows)
    }
}

/// A copy of the rows that are shown, once at least so many reports made them, and how many did.
fn look_until<R: Wait>(
    end: &mut Reader<Shown, Role, Rule>,
    rt: &R,
    least: u64,
) -> Result<(Vec<Row>, u64), AllocError>
    requires reading { IsReading (view end.old.place) }
    ensures reading { IsReading (view end.new.place) }
    ensures front { IsFront (seen_in (view end.old.place)) (seen_in (view end.new.place)) }
    ensures rows { IfOk result (λ x. x.0.items ≡ board (seen_in (view end.new.place))) }
    ensures count { IfOk result (λ x. x.1 ≡ length (seen_in (view end.new.place))) }
    ensures least { IfOk result (λ x. least ≤ x.1) }
{
    for _ in rt.forever() {
        let looked = replace_with(end, (), |end, ()| look(end))?;
        if least <= looked.1 {
            return Ok(looked);
        }
        thread::yield_now();
    }
    unreachable!()
}

/// A copy of the rows that are shown, and how many reports made them.
fn look(
    end: Reader<Shown, Role, Rule>,
) -> (
    Reader<Shown, Role, Rule>,
    Result<(Vec<Row>, u64), AllocError>,
)
    requires reading { IsReading (view end.place) }
    ensures reading { IsReading (view result.0.place) }
    ensures front { IsFront (seen_in (view end.place)) (seen_in (view result.0.place)) }
    ensures rows { IfOk result.1 (λ x. x.0.items ≡ board (seen_in (view result.0.place))) }
    ensures count { IfOk result.1 (λ x. x.1 ≡ length (seen_in (view result.0.place))) }
{
    match end.enter_as::<Reads>() {
        Ok(reading) => {
            let shown = reading.get();
            let count = shown.count;
            let rows = copy(&shown.rows);
            (reading.leave(), rows.map(|rows| (rows, count)))
        }
        Err(end) => (end, Err(AllocError)),
    }
}

/// A copy of these rows.
fn copy(rows: &Vec<Row>) -> Result<Vec<Row>, AllocError>
    ensures { IfOk result (λ copy. copy.items ≡ rows.now.items) }
{
    rows.clone()
}
