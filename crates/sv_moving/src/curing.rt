//! Texts of Supervisor's written so that they mean the same here: keys at the line's start and in small letters, comments on lines of
//! their own, no blank line inside a value, and values in the forms that are read here.

use crate::comments::comment_in;
use crate::cures::cure;
use crate::draft::Draft;
use crate::keys::{Entry, Spot};
use crate::kind::{LineKind, kind_of};
use crate::meaning::{Meaning, meaning_of};
use crate::reader::{Reader, key_kept};
use crate::rows::Row;
use crate::sections::{Section, Sections};
use crate::spaces::trimmed;
use crate::table::ROWS;
use crate::{cuts, value};
use std::alloc::{AllocError, Global};
use std::str;
use sv_base::{Bytes, Text};

/// What stands before a line that can't be written so that it means the same here.
const LOOK: &str = "the next line means something else here";

/// The most lines of a text that is written; the others aren't looked at.
const LINES: usize = 1_000_000_000;

/// The text that is being written, and what is known of it.
#[derive(Clone, Copy)]
struct Around<'a> {
    alloc: Global,
    /// All sections of the configuration.
    sections: &'a [Section],
    /// The text's number, 0 for the main one.
    number: usize,
    /// The directory of the text's file.
    here: &'a str,
}

/// What is known of the lines before.
#[derive(Clone, Copy)]
struct Going {
    /// The open section says which files are included, and is written as comments.
    is_aside: bool,
    /// The value in hand was written whole with its first line.
    is_whole: bool,
}

/// The texts of a configuration, the main one first, written as one text that means the same here as they do in
/// Supervisor, where they say these sections. Each is written with the directory that its `%(here)s` stands for, and
/// what includes it as comments. What can't be written so has a comment before it, which begins with `; sv_check: `.
pub fn cured(
    alloc: Global,
    texts: &[Bytes],
    heres: &[Text],
    sections: &[Section],
) -> Result<String, AllocError> {
    let mut draft = Draft::new(alloc);
    for (number, bytes) in texts.iter().enumerate() {
        let around = Around {
            alloc,
            sections,
            number,
            here: here_of(heres, number),
        };
        if let Ok(text) = str::from_utf8(bytes.as_slice()) {
            cure_text(&mut draft, &around, text)?;
        }
    }
    Ok(draft.into_text())
}

/// The directory of the text of this number.
fn here_of(heres: &[Text], number: usize) -> &str {
    match heres.get(number) {
        Some(here) => here.as_str(),
        None => "",
    }
}

/// Writes a text behind what was written.
fn cure_text(draft: &mut Draft, around: &Around<'_>, text: &str) -> Result<(), AllocError> {
    if around.number > 0 {
        draft.line("", "")?;
    }
    let characters = cuts::fed(around.alloc, text)?;
    let sections = Sections::new(around.alloc);
    let mut reader = Reader::begin(around.alloc, around.number, sections);
    let mut going = Going {
        is_aside: false,
        is_whole: false,
    };
    for line in characters.as_slice().split(|c| *c == '\n') {
        if reader.spot.line < LINES && reader.blanks < LINES {
            let kind = kind_of(reader.going.is_some(), reader.depth, line);
            reader.read(around.alloc, line)?;
            put_comments(around.alloc, draft, line, &kind)?;
            going = put_line(draft, around, reader.spot, going, kind)?;
        }
    }
    draft.settle_inside()
}

/// Writes the comments and blank lines before a line of this kind, and that of the line itself; those behind a value
/// are kept back until it is known whether it goes on.
fn put_comments(
    alloc: Global,
    draft: &mut Draft,
    line: &[char],
    kind: &LineKind<'_>,
) -> Result<(), AllocError> {
    match kind {
        LineKind::Blank => draft.blank(),
        LineKind::Comment => draft.comment(value::text_of(alloc, trimmed(line))?.as_str()),
        LineKind::Further(_) => {
            draft.settle_inside()?;
            put_comment(alloc, draft, line)
        }
        LineKind::Opens(_) | LineKind::Sets(_, _) => {
            draft.settle()?;
            put_comment(alloc, draft, line)
        }
        LineKind::Keyless | LineKind::Faulty => Ok(()),
    }
}

/// Writes the comment of a line on a line of its own.
fn put_comment(alloc: Global, draft: &mut Draft, line: &[char]) -> Result<(), AllocError> {
    match comment_in(line) {
        Some(place) => {
            let comment = value::text_of(alloc, trimmed(line.split_at(place).1))?;
            draft.line("", comment.as_str())
        }
        None => Ok(()),
    }
}

/// Writes what the line at this spot says, which is of this kind.
fn put_line(
    draft: &mut Draft,
    around: &Around<'_>,
    spot: Spot,
    going: Going,
    kind: LineKind<'_>,
) -> Result<Going, AllocError> {
    match kind {
        LineKind::Further(content) if going.is_aside => {
            put_content(draft, around, "; ", content)?;
            Ok(going)
        }
        LineKind::Further(content) if !going.is_whole => {
            put_content(draft, around, " ", content)?;
            Ok(going)
        }
        LineKind::Opens(name) => put_section(draft, around, name),
        LineKind::Sets(key, content) => {
            let key = key_kept(around.alloc, key)?;
            put_key(draft, around, spot, going, key.as_str(), content)
        }
        _ => Ok(going),
    }
}

/// Writes the line of a section.
fn put_section(draft: &mut Draft, around: &Around<'_>, name: &[char]) -> Result<Going, AllocError> {
    let text = value::text_of(around.alloc, name)?;
    let is_aside = text.as_str() == "include";
    if is_aside {
        draft.look("what this section includes is written below")?;
        draft.line("; [include]", "")?;
    } else {
        if name.iter().any(|c| *c == ']') {
            draft.look(LOOK)?;
        }
        tell_section(around.alloc, draft, text.as_str())?;
        let line = format!(in around.alloc; "[{text}]")?;
        draft.line("", line.as_str())?;
    }
    Ok(Going {
        is_aside,
        is_whole: false,
    })
}

/// Writes what the table says of a section of this name.
fn tell_section(alloc: Global, draft: &mut Draft, name: &str) -> Result<(), AllocError> {
    let meaning = Meaning {
        section: Text::from_str(alloc, name)?,
        key: Text::fixed(""),
        value: Text::fixed(""),
        spot: Spot { text: 0, line: 0 },
    };
    tell(draft, &meaning)
}

/// Writes what the table says of this.
fn tell(draft: &mut Draft, meaning: &Meaning) -> Result<(), AllocError> {
    let rows: &[Row] = &ROWS;
    for row in rows {
        if row.applies(meaning) {
            draft.look(row.says)?;
        }
    }
    Ok(())
}

/// Writes the line of a key.
fn put_key(
    draft: &mut Draft,
    around: &Around<'_>,
    spot: Spot,
    going: Going,
    key: &str,
    content: &[char],
) -> Result<Going, AllocError> {
    let mut is_whole = false;
    if going.is_aside {
        let head = format!(in around.alloc; "; {key}=")?;
        put_content(draft, around, head.as_str(), content)?;
    } else {
        let head = format!(in around.alloc; "{key}=")?;
        is_whole = match said_at(around, spot)? {
            Some(meaning) => put_last(draft, around, head.as_str(), content, meaning)?,
            None => {
                put_content(draft, around, head.as_str(), content)?;
                false
            }
        };
    }
    Ok(Going {
        is_aside: going.is_aside,
        is_whole,
    })
}

/// Writes the line that sets a key for the last time, and gives whether that is its whole value.
fn put_last(
    draft: &mut Draft,
    around: &Around<'_>,
    head: &str,
    content: &[char],
    mut meaning: Meaning,
) -> Result<bool, AllocError> {
    match cure(around.alloc, &meaning)? {
        Some(text) => {
            meaning.value = Text::from_string(text);
            tell(draft, &meaning)?;
            put_text(draft, around, head, meaning.value.as_str())?;
            Ok(true)
        }
        None => {
            tell(draft, &meaning)?;
            put_content(draft, around, head, content)?;
            Ok(false)
        }
    }
}

/// What is said in the end by the key that the line at this spot sets; nothing where a later line sets it again.
fn said_at(around: &Around<'_>, spot: Spot) -> Result<Option<Meaning>, AllocError> {
    for section in around.sections {
        if let Some(entry) = entry_at(section.keys.as_slice(), spot) {
            return Ok(Some(meaning_of(around.alloc, &section.name, entry)?));
        }
    }
    Ok(None)
}

/// The key whose value begins at this spot.
fn entry_at(keys: &[Entry], spot: Spot) -> Option<&Entry> {
    for entry in keys {
        if entry.spot.text == spot.text && entry.spot.line == spot.line {
            return Some(entry);
        }
    }
    None
}

/// Writes a line of a value.
fn put_content(
    draft: &mut Draft,
    around: &Around<'_>,
    head: &str,
    content: &[char],
) -> Result<(), AllocError> {
    let text = value::text_of(around.alloc, content)?;
    put_text(draft, around, head, text.as_str())
}

fn put_text(
    draft: &mut Draft,
    around: &Around<'_>,
    head: &str,
    text: &str,
) -> Result<(), AllocError> {
    if text.contains(" ;") || text.contains("\t;") {
        draft.look(LOOK)?;
    }
    if around.number > 0 {
        let text = text.replace(around.alloc, "%(here)s", around.here)?;
        draft.line(head, text.as_str())
    } else {
        draft.line(head, text)
    }
}
