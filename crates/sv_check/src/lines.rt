//! The lines of a report.

use crate::escaped::put_escaped;
use std::alloc::{AllocError, Global};
use sv_base::{Items, Text};
use sv_moving::{Difference, Meaning, Refusal, Row, Spot};

/// Adds `FILE:LINE: ` for this place, and `FILE: ` where the line isn't known.
fn put_spot(alloc: Global, out: &mut String, names: &[Text], spot: Spot) -> Result<(), AllocError> {
    if let Some(name) = names.get(spot.text) {
        put_escaped(out, name.as_str())?;
    }
    if spot.line > 0 {
        let line = spot.line;
        out.push_str(format!(in alloc; ":{line}")?.as_str())?;
    }
    out.push_str(": ")
}

/// Adds `[SECTION]`, or `[SECTION] KEY`.
fn put_subject(out: &mut String, meaning: &Meaning) -> Result<(), AllocError> {
    out.push_str("[")?;
    put_escaped(out, meaning.section.as_str())?;
    out.push_str("]")?;
    if !meaning.key.as_str().is_empty() {
        out.push_str(" ")?;
        put_escaped(out, meaning.key.as_str())?;
    }
    Ok(())
}

/// Adds a value between backquotes.
fn put_value(out: &mut String, value: &str) -> Result<(), AllocError> {
    out.push_str("`")?;
    put_escaped(out, value)?;
    out.push_str("`")
}

/// The line of a difference of the two readings.
pub fn put_difference(
    alloc: Global,
    out: &mut String,
    names: &[Text],
    difference: &Difference,
) -> Result<(), AllocError> {
    match difference {
        Difference::OnlyThere(meaning) => {
            put_head(alloc, out, names, meaning)?;
            put_one(out, meaning, "Supervisor", "isn't there here")
        }
        Difference::OnlyHere(meaning) => {
            put_head(alloc, out, names, meaning)?;
            put_one(out, meaning, "this reading", "isn't there in Supervisor")
        }
        Difference::Changed(meaning, here) => {
            put_head(alloc, out, names, meaning)?;
            put_value(out, meaning.value.as_str())?;
            out.push_str(" in Supervisor, ")?;
            put_value(out, here.as_str())?;
            out.push_str(" here\n")
        }
    }
}

fn put_head(
    alloc: Global,
    out: &mut String,
    names: &[Text],
    meaning: &Meaning,
) -> Result<(), AllocError> {
    put_spot(alloc, out, names, meaning.spot)?;
    put_subject(out, meaning)?;
    out.push_str(": ")
}

/// What only one of the readings has.
fn put_one(
    out: &mut String,
    meaning: &Meaning,
    reader: &str,
    other: &str,
) -> Result<(), AllocError> {
    if meaning.key.as_str().is_empty() {
        out.push_str("a section in ")?;
    } else {
        put_value(out, meaning.value.as_str())?;
        out.push_str(" in ")?;
    }
    out.push_str(reader)?;
    out.push_str("; ")?;
    out.push_str(other)?;
    out.push_str("\n")
}

/// The line of a row of the table that speaks of this.
pub fn put_row(
    alloc: Global,
    out: &mut String,
    names: &[Text],
    meaning: &Meaning,
    row: &Row,
) -> Result<(), AllocError> {
    put_head(alloc, out, names, meaning)?;
    out.push_str(row.says)?;
    out.push_str("\n")
}

/// The lines of a refusal of Supervisor's: one for each faulty line.
pub fn put_refusal(
    alloc: Global,
    out: &mut String,
    names: &[Text],
    refusal: &Refusal,
) -> Result<(), AllocError> {
    match refusal {
        Refusal::NoHeader(text, line) => {
            let spot = Spot {
                text: *text,
                line: *line,
            };
            put_spot(alloc, out, names, spot)?;
            out.push_str("Supervisor refuses a line before any section\n")
        }
        Refusal::BadLines(text, lines) => put_bad_lines(alloc, out, names, *text, lines),
        Refusal::NotUtf8(text, place) => {
            put_spot(
                alloc,
                out,
                names,
                Spot {
                    text: *text,
                    line: 0,
                },
            )?;
            out.push_str(format!(in alloc;
                "Supervisor refuses the byte {place}, at which no character begins\n"
            )?.as_str())
        }
        Refusal::OutOfMemory => Err(AllocError),
    }
}

fn put_bad_lines(
    alloc: Global,
    out: &mut String,
    names: &[Text],
    text: usize,
    lines: &Items<usize>,
) -> Result<(), AllocError> {
    for line in lines.as_slice() {
        put_spot(alloc, out, names, Spot { text, line: *line })?;
        out.push_str("Supervisor refuses a line that is neither a section nor a key\n")?;
    }
    Ok(())
}

/// The line of an entry: its place, section, key and value, parted by tabs.
pub fn put_entry(alloc: Global, out: &mut String, meaning: &Meaning) -> Result<(), AllocError> {
    let Spot { text, line } = meaning.spot;
    out.push_str(format!(in alloc; "{text}:{line}\t")?.as_str())?;
    put_escaped(out, meaning.section.as_str())?;
    out.push_str("\t")?;
    put_escaped(out, meaning.key.as_str())?;
    out.push_str("\t")?;
    put_escaped(out, meaning.value.as_str())?;
    out.push_str("\n")
}
