//! Reports, reads and tickets that were worked out by hand.

use crate::checks::check;
use std::alloc::AllocError;
use std::sync::Wait;
use std::thread;
use sv_base::state::State;
use sv_base::text::Text;
use sv_board::{BoardReader, Report, Row, board};

/// A report of a process of its own group.
fn report(name: &'static str, to: State) -> Report {
    Report {
        group: Text::fixed(name),
        name: Text::fixed(name),
        to,
    }
}

/// Whether the row is of this process of its own group, with this state.
fn is_row(row: &Row, name: &str, state: State) -> bool {
    row.group.as_str() == name && row.name.as_str() == name && row.state == state
}

#[test]
fn a_read_after_its_ticket(rt: HostRuntime) -> Result<(), AllocError> {
    let (mut writer, mut readers) = board(rt.alloc(), &rt, 1)?;
    if let Some(mut reader) = readers.pop() {
        writer.report(&report("x", State::Starting))?;
        let ticket = writer.report(&report("x", State::Running))?;
        reader.learn(ticket);
        let rows = reader.read(&rt)?;
        check(&rt, rows.len() == 1);
        check(&rt, rows.iter().all(|row| is_row(row, "x", State::Running)));
    }
    Ok(())
}

#[test]
fn a_read_before_any_report(rt: HostRuntime) -> Result<(), AllocError> {
    let (_writer, readers) = board(rt.alloc(), &rt, 64)?;
    check(&rt, readers.len() == 64);
    for mut reader in readers {
        check(&rt, reader.read(&rt)?.is_empty());
    }
    Ok(())
}

#[test]
fn rows_in_the_order_of_first_reports(rt: HostRuntime) -> Result<(), AllocError> {
    let (mut writer, mut readers) = board(rt.alloc(), &rt, 2)?;
    writer.report(&report("x", State::Starting))?;
    writer.report(&report("y", State::Starting))?;
    writer.report(&report("x", State::Backoff))?;
    let ticket = writer.report(&report("z", State::Stopped))?;
    if let Some(mut reader) = readers.pop() {
        reader.learn(ticket);
        let rows = reader.read(&rt)?;
        let told: [bool; 3] = [
            rows.first()
                .is_some_and(|row| is_row(row, "x", State::Backoff)),
            rows.get(1)
                .is_some_and(|row| is_row(row, "y", State::Starting)),
            rows.get(2)
                .is_some_and(|row| is_row(row, "z", State::Stopped)),
        ];
        check(&rt, told == [true; 3]);
        check(&rt, rows.len() == 3);
    }
    Ok(())
}

/// Reads until the process has this state, and says how many rows there are.
fn read_until_running<R: Wait>(rt: &R, reader: BoardReader) -> usize {
    let mut reader = reader;
    for _ in rt.forever() {
        match reader.read(rt) {
            Ok(rows) if rows.iter().any(|row| row.state == State::Running) => return rows.len(),
            Ok(_) => thread::yield_now(),
            Err(_) => return 0,
        }
    }
    unreachable!()
}

#[test]
fn a_reader_in_a_thread_of_its_own(rt: HostRuntime) -> Result<(), AllocError> {
    let (mut writer, mut readers) = board(rt.alloc(), &rt, 1)?;
    if let Some(reader) = readers.pop() {
        let thread = thread::spawn(&rt, move || read_until_running(&rt, reader))?;
        writer.report(&report("x", State::Starting))?;
        writer.report(&report("x", State::Running))?;
        check(&rt, thread.join(&rt) == 1);
    }
    Ok(())
}
