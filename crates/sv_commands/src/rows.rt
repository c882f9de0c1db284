//! What a status array prints.
ghost use Rattle.std.specs.Prelude.{◌≡◌, ◌++◌, Some, None, IfOk, OnOk, pos, if◌then◌else◌};
ghost use Rattle.std.specs.List.{flat_map, list_all};
ghost use Rattle.std.specs.Ordering.{int_eq};
ghost use Rattle.sv_xmlcall.specs.Trees.{view, trees_view, members_view};
ghost use Rattle.sv_commands.specs.declared.status.Status.TheVariants.{Done};
ghost use Rattle.sv_commands.specs.Lines.{are_done, array_shown, is_done, row_in, row_line, row_of};
ghost use Rattle.sv_commands.specs.Lines.{rows_in, rows_shown, status_if};

use crate::act::Act;
use crate::lines::{fault_words, put_done, put_error, status_if};
use crate::members::{integer_in, text_in};
use crate::shown::Shown;
use crate::status::Status;
use crate::subjects::printed;
use std::alloc::{AllocError, Global};
use sv_base::{Bytes, Items, Text};
use sv_xmlcall::Value;

/// A row of a status array.
#[derive(Drop)]
pub struct Row {
    pub group: Text,
    pub name: Text,
    /// The number of a fault, or 80.
    pub status: i64,
}

/// What a status array prints; none exactly where the value is none.
pub(crate) fn array_shown(
    alloc: Global,
    act: Act,
    counts: bool,
    value: &Value,
) -> Result<Option<Shown>, AllocError>
    ensures { IfOk result (λ shown. shown ≡ array_shown act counts (view value.now)) }
{
    match value {
        Value::Array(values) => match rows_in(alloc, values)? {
            Some(rows) => Ok(Some(rows_shown(alloc, act, counts, rows.as_slice())?)),
            None => Ok(None),
        },
        _ => Ok(None),
    }
}

/// The rows of values, in order; none where one of them isn't a row.
#[tactic(auto, using(crate::proofs::OneByOne::one_more, crate::proofs::OneByOne::no_more))]
fn rows_in(alloc: Global, values: &[Value]) -> Result<Option<Items<Row>>, AllocError>
    ensures { IfOk result (λ rows. rows ≡ rows_in (trees_view values.now)) }
{
    let mut rows = Items::new(alloc);
    let mut left = values;
    while let [value, rest @ ..] = left {
        match row_of(value)? {
            Some(row) => rows.push(row)?,
            None => return Ok(None),
        }
        left = rest;
    }
    Ok(Some(rows))
}

/// A row, where the value is one.
fn row_of(value: &Value) -> Result<Option<Row>, AllocError>
    ensures { IfOk result (λ row. row ≡ row_of (view value.now)) }
{
    match value {
        Value::Struct(members) => Ok(row_in(members)?),
        _ => Ok(None),
    }
}

fn row_in(members: &Vec<(Text, Value)>) -> Result<Option<Row>, AllocError>
    ensures { IfOk result (λ row. row ≡ row_in (members_view members.now.items)) }
{
    let Some(group) = text_in(members, "group") else {
        return Ok(None);
    };
    let Some(name) = text_in(members, "name") else {
        return Ok(None);
    };
    let Some(status) = integer_in(members, "status") else {
        return Ok(None);
    };
    Ok(Some(Row {
        group: group.clone()?,
        name: name.clone()?,
        status,
    }))
}

/// What rows print.
fn rows_shown(alloc: Global, act: Act, counts: bool, rows: &[Row]) -> Result<Shown, AllocError>
    ensures { IfOk result (λ shown. shown ≡ rows_shown act counts rows.now) }
{
    let text = rows_text(alloc, act, rows)?;
    let status = rows_status(counts, rows);
    Ok(Shown {
        text: Bytes::from_vec(text),
        status,
    })
}

fn rows_status(counts: bool, rows: &[Row]) -> Status
    ensures { result ≡ (if are_done rows.now then Done else status_if counts) }
{
    if are_done(rows) {
        Status::Done
    } else {
        status_if(counts)
    }
}

fn are_done(rows: &[Row]) -> bool
    ensures { result ≡ are_done rows.now }
{
    rows.iter().all(|row| is_done(row.status))
}

fn is_done(status: i64) -> bool
    ensures { result ≡ is_done status }
{
    status == 80
}

fn rows_text(alloc: Global, act: Act, rows: &[Row]) -> Result<Vec<u8>, AllocError>
    ensures { IfOk result (λ text. text.items ≡ flat_map (row_line act) rows.now) }
{
    let mut text = Vec::new(alloc);
    let mut left = rows;
    while let [row, rest @ ..] = left {
        put_row(alloc, &mut text, act, row)?;
        left = rest;
    }
    Ok(text)
}

/// Writes the line of a row.
fn put_row(alloc: Global, out: &mut Vec<u8>, act: Act, row: &Row) -> Result<(), AllocError>
    ensures { OnOk result (out.new.items ≡ out.old.items ++ row_line act row.now) }
{
    let name = printed(alloc, &row.group, &row.name)?;
    if is_done(row.status) {
        return put_done(out, act, name.as_str());
    }
    let words = fault_words(alloc, act.is_start(), false, row.status)?;
    put_error(out, name.as_str(), words.as_str())
}
