//! The value that readers take: the rows, and how many reports made them.

ghost use Rattle.std.specs.Prelude.{◌≡◌, IfOk, MatchResult};
ghost use Rattle.std.specs.List.{position};
ghost use Rattle.sv_board.specs.Board.{after, is_of, row_of};

use crate::row::{Report, Row};
use left_right::Absorb;
use std::alloc::AllocError;

/// The rows that readers take.
#[derive(Drop)]
pub struct Shown {
    pub(crate) rows: Vec<Row>,
    /// How many reports made them.
    pub(crate) count: u64,
}

impl Absorb<Report> for Shown {
    ghost use Rattle.std.specs.Prelude.{◌+◌};

    // A clause reads an array as a list, of any length.
    type State = ([Row; 0], u64);

    ghost state = { λ s. (s.rows.items, s.count) };

    ghost applied = { λ s report. (after s.0 report, s.1 + 1) };

    fn absorb_first(&mut self, report: &Report, _other: &Shown) -> Result<(), AllocError> {
        let Some(count) = self.count.checked_add(1) else {
            return Err(AllocError);
        };
        put(&mut self.rows, report)?;
        self.count = count;
        Ok(())
    }
}

/// Changes the row of the report's process, or adds it.
fn put(rows: &mut Vec<Row>, report: &Report) -> Result<(), AllocError>
    ensures { MatchResult result
        (λ _. rows.new.items ≡ after rows.old.items report.now)
        (λ _. rows.new.items ≡ rows.old.items) }
{
    let Some(place) = place_of(rows.as_slice(), report) else {
        let row = first_row(report)?;
        return rows.push(row).map_err(|_| AllocError);
    };
    rows[place].state = report.to;
    Ok(())
}

/// Where the row of the report's process is.
fn place_of(rows: &[Row], report: &Report) -> Option<usize>
    ensures { result ≡ position (is_of report.now) rows.now }
{
    rows.iter()
        .position(|row| row.group == report.group && row.name == report.name)
}

/// The row of a process that had none.
fn first_row(report: &Report) -> Result<Row, AllocError>
    ensures { IfOk result (λ row. row ≡ row_of report.now) }
{
    Ok(Row {
        group: report.group.clone()?,
        name: report.name.clone()?,
        state: report.to,
    })
}
