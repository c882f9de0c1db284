//! What the answer of a call prints.
ghost use Rattle.std.specs.Prelude.{◌≡◌, ◌++◌, ◌∷◌, [], Some, None, IfOk, OnOk, codes, true};
ghost use Rattle.std.specs.Fmt.{signed_decimal};
ghost use Rattle.std.specs.Option.{option_copied, option_map};
ghost use Rattle.sv_xmlcall.specs.Trees.{view, members_view, trees_view, reply_view, truth, text};
ghost use Rattle.sv_commands.specs.Errors.{error_line};
ghost use Rattle.sv_commands.specs.Members.{integer_in};
ghost use Rattle.sv_commands.specs.Subjects.{printed_name};
ghost use Rattle.sv_commands.specs.Lines.{done_line, fault_shown, fault_words, known_words};
ghost use Rattle.sv_commands.specs.Lines.{names_group, starts, value_shown, reply_shown, if_true};
ghost use Rattle.sv_commands.specs.Lines.{text_shown, name_or_none, number_shown, pid_in, shown_of};
ghost use Rattle.sv_commands.specs.Lines.{status_if};

use crate::act::Act;
use crate::members::integer_in;
use crate::rows::array_shown;
use crate::shown::Shown;
use crate::status::Status;
use crate::step::{Line, Show};
use crate::subjects::{is_group, printed_name};
use crate::tables::table_of;
use itoa::Buffer;
use std::alloc::{AllocError, Global};
use sv_base::{Bytes, Text};
use sv_xmlcall::{Answered, Value};

/// What an answer prints, and the status that it asks for; none exactly where it isn't of the kind that the method gives.
pub fn reply_shown(
    alloc: Global,
    line: &Line,
    answered: &Answered,
) -> Result<Option<Shown>, AllocError>
    ensures { IfOk result (λ shown. shown ≡ reply_shown line.now (reply_view answered.now)) }
{
    match answered {
        Answered::Value(value) => value_shown(alloc, line, value),
        Answered::Fault(number, _) => Ok(Some(fault_shown(alloc, line, *number)?)),
    }
}

fn value_shown(alloc: Global, line: &Line, value: &Value) -> Result<Option<Shown>, AllocError>
    ensures { IfOk result (λ shown.
        shown ≡ value_shown line.now line.now.show (view value.now)) }
{
    match &line.show {
        Show::Done(act) => done_if_true(alloc, *act, &line.name, value),
        Show::Rows(act) => array_shown(alloc, *act, line.counts, value),
        Show::Table(names) => table_of(alloc, names.as_slice(), value),
        Show::Log => text_shown(alloc, b"", value),
        Show::Version => text_shown(alloc, b"\n", value),
        Show::Number => match value {
            Value::Int(number) => Ok(Some(number_shown(alloc, *number)?)),
            _ => Ok(None),
        },
        Show::Pid => pid_shown(alloc, value),
        Show::ShutDown => match value {
            Value::Truth(true) => Ok(Some(shown(Vec::from_slice(alloc, b"Shut down\n")?))),
            _ => Ok(None),
        },
    }
}

/// A text, with the status of a success.
fn shown(text: Vec<u8>) -> Shown
    ensures { result ≡ shown_of text.items }
{
    Shown {
        text: Bytes::from_vec(text),
        status: Status::Done,
    }
}

/// What a fault prints.
fn fault_shown(alloc: Global, line: &Line, number: i64) -> Result<Shown, AllocError>
    ensures { IfOk result (λ shown. shown ≡ fault_shown line.now number) }
{
    let words = fault_words(
        alloc,
        starts(&line.show),
        names_group(alloc, &line.name)?,
        number,
    )?;
    let mut text = Vec::new(alloc);
    put_named_error(alloc, &mut text, &line.name, words.as_str())?;
    Ok(Shown {
        text: Bytes::from_vec(text),
        status: status_if(line.counts),
    })
}

/// The status of a fault.
pub(crate) fn status_if(counts: bool) -> Status
    ensures { result ≡ status_if counts }
{
    match counts {
        true => Status::Faulted,
        false => Status::Done,
    }
}

/// Whether what is shown is to start processes.
fn starts(show: &Show) -> bool
    ensures { result ≡ starts show.now }
{
    match show {
        Show::Done(act) | Show::Rows(act) => act.is_start(),
        _ => false,
    }
}

fn names_group(alloc: Global, name: &Option<Text>) -> Result<bool, AllocError>
    ensures { IfOk result (λ group. group ≡ names_group name.now) }
{
    match name {
        Some(name) => is_group(alloc, name),
        None => Ok(false),
    }
}

/// The words of a fault.
pub(crate) fn fault_words(
    alloc: Global,
    start: bool,
    group: bool,
    number: i64,
) -> Result<Text, AllocError>
    ensures { IfOk result (λ words. words ≡ fault_words start group number) }
{
    match known_words(start, group, number) {
        Some(words) => Ok(Text::fixed(words)),
        None => number_words(alloc, number),
    }
}

fn number_words(alloc: Global, number: i64) -> Result<Text, AllocError>
    ensures { IfOk result (λ words. words ≡ codes "fault " ++ signed_decimal number) }
{
    let mut text = String::from_str(alloc, "fault ")?;
    let mut buffer = Buffer::new();
    text.push_str(buffer.format(number))?;
    Ok(Text::from_string(text))
}

/// The words of the faults that have some.
fn known_words(start: bool, group: bool, number: i64) -> Option<&'static str>
    ensures { option_map (λ words. words.now) result ≡ known_words start group number }
{
    match number {
        6 => Some("shutting down"),
        10 => Some(if group {
            "no such group"
        } else {
            "no such process"
        }),
        11 => Some("bad signal name"),
        20 => Some(if start { "no such file" } else { "no log file" }),
        21 => Some("file is not executable"),
        40 => Some("abnormal termination"),
        50 => Some("spawn error"),
        60 => Some("already started"),
        70 => Some("not running"),
        _ => None,
    }
}

/// Writes the line of a fault, of what the call names or of nothing.
fn put_named_error(
    alloc: Global,
    out: &mut Vec<u8>,
    name: &Option<Text>,
    words: &str,
) -> Result<(), AllocError>
    ensures { OnOk result (out.new.items
        ≡ out.old.items ++ error_line (option_map printed_name name.now) words.now) }
{
    match name {
        Some(name) => put_error(out, printed_name(alloc, name)?.as_str(), words),
        None => put_bare_error(out, words),
    }
}

/// Writes the line of a fault of this name.
#[tactic(auto, using(crate::proofs::Appended::four_parts))]
pub(crate) fn put_error(out: &mut Vec<u8>, name: &str, words: &str) -> Result<(), AllocError>
    ensures { OnOk result (out.new.items
        ≡ out.old.items ++ error_line (Some name.now) words.now) }
{
    out.extend_from_slice(name.as_bytes())?;
    out.extend_from_slice(b": ERROR (")?;
    out.extend_from_slice(words.as_bytes())?;
    out.extend_from_slice(b")\n")
}

#[tactic(auto, using(crate::proofs::Appended::three_parts))]
fn put_bare_error(out: &mut Vec<u8>, words: &str) -> Result<(), AllocError>
    ensures { OnOk result (out.new.items ≡ out.old.items ++ error_line None words.now) }
{
    out.extend_from_slice(b"ERROR (")?;
    out.extend_from_slice(words.as_bytes())?;
    out.extend_from_slice(b")\n")
}

/// Writes the line of what was done to what has this name.
#[tactic(auto, using(crate::proofs::Appended::four_parts))]
pub(crate) fn put_done(out: &mut Vec<u8>, act: Act, name: &str) -> Result<(), AllocError>
    ensures { OnOk result (out.new.items ≡ out.old.items ++ done_line act name.now) }
{
    out.extend_from_slice(name.as_bytes())?;
    out.extend_from_slice(b": ")?;
    out.extend_from_slice(act.done_word().as_bytes())?;
    out.extend_from_slice(b"\n")
}

/// `true`: the line of what was done.
fn done_if_true(
    alloc: Global,
    act: Act,
    name: &Option<Text>,
    value: &Value,
) -> Result<Option<Shown>, AllocError>
    ensures { IfOk result (λ shown.
        shown ≡ if_true (done_line act (name_or_none name.now)) (view value.now)) }
{
    match value {
        Value::Truth(true) => Ok(Some(done(alloc, act, name)?)),
        _ => Ok(None),
    }
}

fn done(alloc: Global, act: Act, name: &Option<Text>) -> Result<Shown, AllocError>
    ensures { IfOk result (λ shown. shown ≡ shown_of (done_line act (name_or_none name.now))) }
{
    let name = name_or_none(alloc, name)?;
    let mut text = Vec::new(alloc);
    put_done(&mut text, act, name.as_str())?;
    Ok(shown(text))
}

/// The name as it is printed, where there is one.
fn name_or_none(alloc: Global, name: &Option<Text>) -> Result<Text, AllocError>
    ensures { IfOk result (λ text. text ≡ name_or_none name.now) }
{
    match name {
        Some(name) => printed_name(alloc, name),
        None => Ok(Text::fixed("")),
    }
}

/// A text, with these bytes after it.
fn text_shown(alloc: Global, behind: &[u8], value: &Value) -> Result<Option<Shown>, AllocError>
    ensures { IfOk result (λ shown. shown ≡ text_shown behind.now (view value.now)) }
{
    match value {
        Value::Text(content) => {
            let mut text = Vec::from_slice(alloc, content.as_str().as_bytes())?;
            text.extend_from_slice(behind)?;
            Ok(Some(shown(text)))
        }
        _ => Ok(None),
    }
}

/// A number, on a line.
fn number_shown(alloc: Global, number: i64) -> Result<Shown, AllocError>
    ensures { IfOk result (λ given. Some given ≡ number_shown (Some number)) }
{
    let mut buffer = Buffer::new();
    let mut text = Vec::from_slice(alloc, buffer.format(number).as_bytes())?;
    text.push(b'\n')?;
    Ok(shown(text))
}

/// The process number of a process, on a line.
fn pid_shown(alloc: Global, value: &Value) -> Result<Option<Shown>, AllocError>
    ensures { IfOk result (λ shown. shown ≡ number_shown (pid_in (view value.now))) }
{
    match pid_in(value) {
        Some(number) => Ok(Some(number_shown(alloc, number)?)),
        None => Ok(None),
    }
}

fn pid_in(value: &Value) -> Option<i64>
    ensures { result ≡ pid_in (view value.now) }
{
    match value {
        Value::Struct(members) => pid_of(members),
        _ => None,
    }
}

fn pid_of(members: &Vec<(Text, Value)>) -> Option<i64>
    ensures { result ≡ integer_in (codes "pid") (members_view members.now.items) }
{
    integer_in(members, "pid")
}
