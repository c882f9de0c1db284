//! Whether a case comes out as it is written.

use crate::case::{Case, Form, put_line};
use crate::playing::{breaks, gives, play};
use crate::scripts::spell;
use std::alloc::{AllocError, Global};

/// The line of a piece that is cut, up to its token.
const PIECE: &str = "0 piece 1 ";

/// Whether a token may be cut here: not within an escape.
fn may_cut(token: &str, at: usize) -> bool {
    !token.chars().enumerate().any(|(place, letter)| {
        letter == '%' && place < at && at < place.saturating_add(3)
    })
}

/// The token in two pieces, each on a line of its own.
fn put_cut(journal: &mut String, token: &str, at: usize) -> Result<(), AllocError> {
    journal.push_str(PIECE)?;
    for (place, letter) in token.chars().enumerate() {
        if place == at {
            put_line(journal, "")?;
            journal.push_str(PIECE)?;
        }
        journal.push(letter)?;
    }
    put_line(journal, "")
}

/// A line of the journal whose piece is cut at a place.
fn put_line_cut(journal: &mut String, line: &str, at: usize) -> Result<(), AllocError> {
    match line.strip_prefix(PIECE) {
        Some(token) => put_cut(journal, token, at),
        None => put_line(journal, line),
    }
}

/// The journal whose piece is cut at a place.
fn cut(alloc: Global, lines: &str, at: usize) -> Result<String, AllocError> {
    let mut journal = String::new(alloc);
    for line in lines.lines() {
        put_line_cut(&mut journal, line, at)?;
    }
    Ok(journal)
}

/// The token of the piece.
fn token_of(lines: &str) -> &str {
    for line in lines.lines() {
        if let Some(token) = line.strip_prefix(PIECE) {
            return token;
        }
    }
    ""
}

/// Whether it gives the same where its piece is cut at a place.
fn cuts_at(alloc: Global, case: &Case, at: usize) -> Result<bool, AllocError> {
    let journal = cut(alloc, case.lines.as_str(), at)?;
    let played = play(alloc, journal.as_str(), 4_096, 0, 0)?;
    Ok(played.is(case.status, case.wanted.as_str()))
}

/// Whether it gives the same wherever its piece is cut.
fn cuts(alloc: Global, case: &Case) -> Result<bool, AllocError> {
    let token = token_of(case.lines.as_str());
    let count = token.chars().count();
    for at in 1..count {
        if may_cut(token, at) && !cuts_at(alloc, case, at)? {
            return Ok(false);
        }
    }
    Ok(count > 1)
}

/// How a short journal begins. Reads and writes fail in these alone: they are enough, and there are many journals.
const SHORT: &str = "supervisor-journal 0\n";

/// Whether a journal gives this, and breaks off as it should.
fn holds(alloc: Global, journal: &str, status: u8, wanted: &str) -> Result<bool, AllocError> {
    if !gives(alloc, journal, status, wanted)? {
        return Ok(false);
    }
    if journal.starts_with(SHORT) {
        breaks(alloc, journal, status, wanted)
    } else {
        Ok(true)
    }
}

/// Whether a script gives what it says.
fn performs(alloc: Global, lines: &str) -> Result<bool, AllocError> {
    let spelled = spell(alloc, lines)?;
    holds(
        alloc,
        spelled.journal.as_str(),
        spelled.status,
        spelled.written.as_str(),
    )
}

/// Whether a case comes out as it is written.
pub(crate) fn is_as_written(alloc: Global, case: &Case) -> Result<bool, AllocError> {
    let (lines, wanted) = (case.lines.as_str(), case.wanted.as_str());
    match case.form {
        Form::Journal => holds(alloc, lines, case.status, wanted),
        Form::Unended => {
            let journal = lines.strip_suffix("\n").unwrap_or(lines);
            holds(alloc, journal, case.status, wanted)
        }
        Form::Cut => cuts(alloc, case),
        Form::Script => performs(alloc, lines),
    }
}
