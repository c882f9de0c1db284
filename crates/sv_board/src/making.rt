//! The making of a board.

ghost use Rattle.std.specs.Prelude.{◌≡◌, ◌≤◌, [], length, IfOk, false};
ghost use Rattle.sv_board.specs.Ends.{AreNewReaders, reported};

use crate::home::Home;
use crate::reader::BoardReader;
use crate::role::Role;
use crate::row::Report;
use crate::rule::Rule;
use crate::shown::Shown;
use crate::writer::BoardWriter;
use left_right::reader::Factory;
use left_right::writer::Writer;
use std::alloc::{AllocError, Global};
use std::snapshot::Snapshot;
use std::sync::Wait;

/// Makes an empty board with its one writer, and 1 to 64 readers.
pub fn board<R: Wait + Drop>(
    alloc: Global,
    rt: R,
    readers: u32,
) -> Result<(BoardWriter<R>, Vec<BoardReader>), AllocError>
    requires { (1 ≤ readers) × (readers ≤ 64) }
    ensures reported { IfOk result (λ b. reported b.0 ≡ []) }
    ensures works { IfOk result (λ b. b.0.is_over ≡ false) }
    ensures count { IfOk result (λ b. length b.1.items ≡ readers) }
    ensures readers { IfOk result (λ b. AreNewReaders b.0.home b.1.items) }
{
    let places = readers as usize;
    let end: Writer<Shown, Report, Role, Rule> = Writer::new(
        alloc,
        nothing(alloc),
        nothing(alloc),
        places,
    )?;
    match make_readers(alloc, end.factory(), readers) {
        Ok((home, made)) => {
            let writer = BoardWriter {
                end,
                rt,
                is_over: false,
                home,
            };
            Ok((writer, made))
        }
        Err(refused) => {
            drop(end.take(&rt));
            Err(refused)
        }
    }
}

/// Makes so many readers, and the mark of the board.
fn make_readers(
    alloc: Global,
    from: &Factory<Shown, Role, Rule>,
    readers: u32,
) -> Result<(Home, Vec<BoardReader>), AllocError>
    ensures count { IfOk result (λ x. length x.1.items ≡ readers) }
    ensures readers { IfOk result (λ x. AreNewReaders x.0 x.1.items) }
{
    let home = Home {
        from: from.another()?,
    };
    let mut made = Vec::with_capacity(alloc, readers as usize)?;
    for _ in 0..readers {
        made.push_reserved(BoardReader {
            end: from.reader()?,
            count: 0,
            learnt: 0,
            home: Snapshot::of(&home),
        });
    }
    Ok((home, made))
}

/// No rows, of no reports.
fn nothing(alloc: Global) -> Shown
    ensures { (result.rows.items ≡ []) × (result.count ≡ 0) }
{
    Shown {
        rows: Vec::new(alloc),
        count: 0,
    }
}
