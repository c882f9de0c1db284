//! Calls and waits from the words of a table.

use crate::made::made;
use std::alloc::Global;
use std::process::Abort;
use sv_base::ids::ChildId;
use sv_base::items::Items;
use sv_base::text::Text;
use sv_methods::{Aim, Asked, Waiting};
use sv_xmlcall::call::Call;
use sv_xmlcall::value::Value;

fn text(rt: &impl Abort, alloc: Global, text: &str) -> Text {
    made(rt, Text::from_str(alloc, text))
}

/// The value of a word: a boolean, an empty array or struct, a double, an integer, else a text, before which `'` is
/// left out.
fn value(rt: &impl Abort, alloc: Global, word: &str) -> Value {
    match word {
        "true" => Value::Truth(true),
        "false" => Value::Truth(false),
        "[]" => Value::Array(Vec::new(alloc)),
        "{}" => Value::Struct(Vec::new(alloc)),
        "1.5" => Value::Other(Text::fixed("double"), Text::fixed("1.5")),
        word => text_or_number(rt, alloc, word),
    }
}

fn text_or_number(rt: &impl Abort, alloc: Global, word: &str) -> Value {
    match word.strip_prefix('\'') {
        Some(rest) => Value::Text(text(rt, alloc, rest)),
        None => match word.parse::<i64>() {
            Ok(number) => Value::Int(number),
            Err(_) => Value::Text(text(rt, alloc, word)),
        },
    }
}

/// The method of a word; where it has no dot, `supervisor.` stands before it.
fn method(rt: &impl Abort, alloc: Global, word: &str) -> Text {
    if word.contains('.') {
        return text(rt, alloc, word);
    }
    Text::from_string(made(rt, format!(in alloc; "supervisor.{word}")))
}

/// The parameters of these words.
fn params(rt: &impl Abort, alloc: Global, words: &str) -> Vec<Value> {
    let mut params = Vec::new(alloc);
    for word in words.split(' ') {
        if !word.is_empty() {
            params.push(value(rt, alloc, word)).expect(rt, "memory");
        }
    }
    params
}

/// The call of a line: the method, and a word for each parameter.
pub fn call(rt: &impl Abort, alloc: Global, line: &str) -> Call {
    let (name, words) = line.split_once(' ').unwrap_or((line, ""));
    Call {
        method: method(rt, alloc, name),
        params: params(rt, alloc, words),
    }
}

fn aim(word: &str) -> Aim {
    match word {
        "started" => Aim::Started,
        "stopped" => Aim::Stopped,
        "signalled" => Aim::Signalled,
        _ => Aim::Cleared,
    }
}

fn number(word: &str) -> Option<u32> {
    word.parse::<u32>().ok()
}

/// A row of a wait: `AIM CHILD`, or `AIM CHILD FAULT`; a child that is no number is the main log.
fn asked(row: &str) -> Asked {
    let (aim_word, rest) = row.split_once(' ').unwrap_or((row, ""));
    let (child, fault) = rest.split_once(' ').unwrap_or((rest, ""));
    Asked {
        child: number(child).map(|id| ChildId(id)),
        aim: aim(aim_word),
        fault: number(fault),
    }
}

/// The rows between semicolons, or `none`.
fn rows(rt: &impl Abort, alloc: Global, rows: &str) -> Items<Asked> {
    let mut asked_rows = Items::new(alloc);
    for row in rows.split(';') {
        if row != "none" {
            asked_rows.push(asked(row)).expect(rt, "memory");
        }
    }
    asked_rows
}

/// The name, or `-` where there is none.
fn name(rt: &impl Abort, alloc: Global, word: &str) -> Option<Text> {
    if word == "-" {
        None
    } else {
        Some(text(rt, alloc, word))
    }
}

/// The wait of a text: `wait` or `now`, `array` or `one`, the name or `-`, then ` | ` and rows between semicolons.
pub fn waiting(rt: &impl Abort, alloc: Global, line: &str) -> Waiting {
    let (head, cells) = line.split_once(" | ").expect(rt, "rows");
    let (wait, shape) = head.split_once(' ').expect(rt, "a shape");
    let (array, word) = shape.split_once(' ').expect(rt, "a name");
    Waiting {
        wait: wait == "wait",
        array: array == "array",
        name: name(rt, alloc, word),
        rows: rows(rt, alloc, cells),
    }
}
