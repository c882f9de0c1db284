//! The table of processes.
ghost use Rattle.std.specs.Prelude.{◌≡◌, ◌++◌, ◌∷◌, ◌<◌, ◌^◌, [], IfOk, OnOk, filter};
ghost use Rattle.std.specs.Prelude.{if◌then◌else◌};
ghost use Rattle.std.specs.List.{flat_map, list_any, repeat};
ghost use Rattle.std.specs.Option.{option_map};
ghost use Rattle.sv_out.specs.Patterns.{is_further};
ghost use Rattle.sv_xmlcall.specs.Trees.{view, trees_view, members_view};
ghost use Rattle.sv_commands.specs.declared.status.Status.TheVariants.{Done, NotFound, NotRunning};
ghost use Rattle.sv_commands.specs.Tables.{are_running, finds_none, found, is_named, is_running};
ghost use Rattle.sv_commands.specs.Tables.{lines_of, listed, longest, missing_line, padded};
ghost use Rattle.sv_commands.specs.Tables.{process_in, process_line, process_of, processes_in};
ghost use Rattle.sv_commands.specs.Tables.{table_lines, table_of, table_shown, title, width};

use crate::lines::put_error;
use crate::members::text_in;
use crate::shown::Shown;
use crate::status::Status;
use crate::subjects::{is_group, printed, printed_name};
use std::alloc::{AllocError, Global};
use sv_base::{Bytes, Items, Text, split_name};
use sv_xmlcall::Value;

/// A process that the table may list.
#[derive(Drop)]
pub struct Process {
    pub group: Text,
    pub name: Text,
    pub state: Text,
    pub description: Text,
}

impl Clone for Process {
    ghost is_clone = { λ process copy. copy ≡ process };

    fn clone(&self) -> Result<Process, AllocError> {
        Ok(Process {
            group: self.group.clone()?,
            name: self.name.clone()?,
            state: self.state.clone()?,
            description: self.description.clone()?,
        })
    }
}

/// What the table of the processes of a value prints; none exactly where the value is no array of processes.
pub(crate) fn table_of(
    alloc: Global,
    names: &[Text],
    value: &Value,
) -> Result<Option<Shown>, AllocError>
    ensures { IfOk result (λ shown. shown ≡ table_of names.now (view value.now)) }
{
    match value {
        Value::Array(values) => table_in(alloc, names, values),
        _ => Ok(None),
    }
}

/// What the table of the processes of an array's values prints.
fn table_in(alloc: Global, names: &[Text], values: &[Value]) -> Result<Option<Shown>, AllocError>
    ensures { IfOk result (λ shown.
        shown ≡ option_map (table_shown names.now) (processes_in (trees_view values.now))) }
{
    match processes_in(alloc, values)? {
        Some(processes) => Ok(Some(table_shown(alloc, names, processes.as_slice())?)),
        None => Ok(None),
    }
}

/// The processes of values, in order; none where one of them isn't a process.
#[tactic(auto, using(crate::proofs::OneByOne::one_more, crate::proofs::OneByOne::no_more))]
fn processes_in(alloc: Global, values: &[Value]) -> Result<Option<Items<Process>>, AllocError>
    ensures { IfOk result (λ processes. processes ≡ processes_in (trees_view values.now)) }
{
    let mut processes = Items::new(alloc);
    let mut left = values;
    while let [value, rest @ ..] = left {
        match process_of(value)? {
            Some(process) => processes.push(process)?,
            None => return Ok(None),
        }
        left = rest;
    }
    Ok(Some(processes))
}

/// A process, where the value is one.
fn process_of(value: &Value) -> Result<Option<Process>, AllocError>
    ensures { IfOk result (λ process. process ≡ process_of (view value.now)) }
{
    match value {
        Value::Struct(members) => Ok(process_in(members)?),
        _ => Ok(None),
    }
}

fn process_in(members: &Vec<(Text, Value)>) -> Result<Option<Process>, AllocError>
    ensures { IfOk result (λ process. process ≡ process_in (members_view members.now.items)) }
{
    process_among(members)
}

fn process_among(members: &[(Text, Value)]) -> Result<Option<Process>, AllocError>
    ensures { IfOk result (λ process. process ≡ process_in (members_view members.now)) }
{
    let Some(group) = text_in(members, "group") else {
        return Ok(None);
    };
    let Some(name) = text_in(members, "name") else {
        return Ok(None);
    };
    let Some(state) = text_in(members, "statename") else {
        return Ok(None);
    };
    let Some(description) = text_in(members, "description") else {
        return Ok(None);
    };
    Ok(Some(Process {
        group: group.clone()?,
        name: name.clone()?,
        state: state.clone()?,
        description: description.clone()?,
    }))
}

/// What the table of these processes prints.
fn table_shown(alloc: Global, names: &[Text], processes: &[Process]) -> Result<Shown, AllocError>
    ensures { IfOk result (λ shown. shown ≡ table_shown names.now processes.now) }
{
    let listed = listed(alloc, names, processes)?;
    let size = longest(alloc, listed.as_slice())?;
    let text = table_lines(alloc, size, names, processes)?;
    let status = table_status(alloc, names, processes, listed.as_slice())?;
    Ok(Shown {
        text: Bytes::from_vec(text),
        status,
    })
}

/// The status of a table: whether a name finds none, or else whether a listed process doesn't run.
fn table_status(
    alloc: Global,
    names: &[Text],
    processes: &[Process],
    listed: &[Process],
) -> Result<Status, AllocError>
    ensures { IfOk result (λ status. status
        ≡ (if list_any (finds_none processes.now) names.now then NotFound
        else if are_running listed.now then Done else NotRunning)) }
{
    if any_finds_none(alloc, names, processes)? {
        return Ok(Status::NotFound);
    }
    if are_running(listed) {
        return Ok(Status::Done);
    }
    Ok(Status::NotRunning)
}

fn are_running(processes: &[Process]) -> bool
    ensures { result ≡ are_running processes.now }
{
    processes.iter().all(is_running)
}

fn is_running(process: &Process) -> bool
    ensures { result ≡ is_running process.now }
{
    process.state.as_str() == "RUNNING"
}

/// Whether one of the names finds no process.
fn any_finds_none(alloc: Global, names: &[Text], processes: &[Process]) -> Result<bool, AllocError>
    ensures { IfOk result (λ any. any ≡ list_any (finds_none processes.now) names.now) }
{
    let mut left = names;
    while let [name, rest @ ..] = left {
        if found(alloc, processes, name)?.as_slice().is_empty() {
            return Ok(true);
        }
        left = rest;
    }
    Ok(false)
}

/// The processes that a name finds.
fn found(alloc: Global, processes: &[Process], name: &Text) -> Result<Items<Process>, AllocError>
    ensures { IfOk result (λ given. given ≡ found processes.now name.now) }
{
    let mut given = Items::new(alloc);
    add_found(alloc, &mut given, processes, name)?;
    Ok(given)
}

/// Adds the processes that a name finds.
fn add_found(
    alloc: Global,
    given: &mut Items<Process>,
    processes: &[Process],
    name: &Text,
) -> Result<(), AllocError>
    ensures { OnOk result (given.new ≡ given.old ++ found processes.now name.now) }
{
    let (group, member) = split_name(alloc, name.as_str())?;
    add_named(given, &group, &member, processes)?;
    Ok(())
}

/// Adds the processes of this group, and of this name where one is told.
fn add_named(
    given: &mut Items<Process>,
    group: &Text,
    member: &Option<Text>,
    processes: &[Process],
) -> Result<(), AllocError>
    ensures { OnOk result (given.new
        ≡ given.old ++ filter (is_named group.now member.now) processes.now) }
{
    let mut left = processes;
    while let [process, rest @ ..] = left {
        add_if_named(given, group, member, process)?;
        left = rest;
    }
    Ok(())
}

/// Adds a process, where the name finds it.
fn add_if_named(
    given: &mut Items<Process>,
    group: &Text,
    member: &Option<Text>,
    process: &Process,
) -> Result<(), AllocError>
    ensures { OnOk result (given.new
        ≡ given.old ++ filter (is_named group.now member.now) (process.now ∷ [])) }
{
    if is_named(group, member, process) {
        return given.push(process.clone()?);
    }
    Ok(())
}

/// Whether a process is of this group, and has this name where one is told.
fn is_named(group: &Text, member: &Option<Text>, process: &Process) -> bool
    ensures { result ≡ is_named group.now member.now process.now }
{
    match member {
        Some(name) => process.group == *group && process.name == *name,
        None => process.group == *group,
    }
}

/// The processes that are listed: all where there are no names.
fn listed(
    alloc: Global,
    names: &[Text],
    processes: &[Process],
) -> Result<Items<Process>, AllocError>
    ensures { IfOk result (λ given. given ≡ listed names.now processes.now) }
{
    if names.is_empty() {
        return copied(alloc, processes);
    }
    let mut given = Items::new(alloc);
    let mut left = names;
    while let [name, rest @ ..] = left {
        add_found(alloc, &mut given, processes, name)?;
        left = rest;
    }
    Ok(given)
}

fn copied(alloc: Global, processes: &[Process]) -> Result<Items<Process>, AllocError>
    ensures { IfOk result (λ copy. copy ≡ processes.now) }
{
    let mut copy = Items::new(alloc);
    let mut left = processes;
    while let [process, rest @ ..] = left {
        copy.push(process.clone()?)?;
        left = rest;
    }
    Ok(copy)
}

/// The width of the longest name, and 30 at least.
fn longest(alloc: Global, processes: &[Process]) -> Result<usize, AllocError>
    ensures value { IfOk result (λ most. most ≡ longest 30 processes.now) }
    ensures bound { IfOk result (λ most. most < 2 ^ 63) }
{
    let mut most = 30;
    let mut left = processes;
    while let [process, rest @ ..] = left {
        most = most.max(width(title(alloc, process)?.as_str().as_bytes()));
        left = rest;
    }
    Ok(most)
}

fn title(alloc: Global, process: &Process) -> Result<Text, AllocError>
    ensures { IfOk result (λ text. text ≡ title process.now) }
{
    printed(alloc, &process.group, &process.name)
}

/// How many characters a text has.
fn width(text: &[u8]) -> usize
    ensures value { result ≡ width text.now }
    ensures bound { result < 2 ^ 63 }
{
    text.iter().filter(|byte| !is_further(**byte)).count()
}

/// Whether this byte is a further byte of a character of several bytes.
fn is_further(byte: u8) -> bool
    ensures { result ≡ is_further byte }
{
    128 <= byte && byte < 192
}

/// The lines of a table with these names.
fn table_lines(
    alloc: Global,
    size: usize,
    names: &[Text],
    processes: &[Process],
) -> Result<Vec<u8>, AllocError>
    requires { size < 2 ^ 63 }
    ensures { IfOk result (λ text. text.items ≡ table_lines size names.now processes.now) }
{
    let mut text = Vec::new(alloc);
    if names.is_empty() {
        put_processes(alloc, &mut text, size, processes)?;
        return Ok(text);
    }
    let mut left = names;
    while let [name, rest @ ..] = left {
        put_found(alloc, &mut text, size, processes, name)?;
        left = rest;
    }
    Ok(text)
}

/// Writes the lines of a name.
#[tactic(auto, unfolding(crate::specs::Tables::lines_of))]
fn put_found(
    alloc: Global,
    out: &mut Vec<u8>,
    size: usize,
    processes: &[Process],
    name: &Text,
) -> Result<(), AllocError>
    requires { size < 2 ^ 63 }
    ensures { OnOk result (out.new.items
        ≡ out.old.items ++ lines_of size processes.now name.now) }
{
    let found = found(alloc, processes, name)?;
    if found.as_slice().is_empty() {
        return put_missing(alloc, out, name);
    }
    put_processes(alloc, out, size, found.as_slice())
}

/// Writes that a name finds nothing.
fn put_missing(alloc: Global, out: &mut Vec<u8>, name: &Text) -> Result<(), AllocError>
    ensures { OnOk result (out.new.items ≡ out.old.items ++ missing_line name.now) }
{
    let words = if is_group(alloc, name)? {
        "no such group"
    } else {
        "no such process"
    };
    put_error(out, printed_name(alloc, name)?.as_str(), words)
}

/// Writes the lines of processes.
fn put_processes(
    alloc: Global,
    out: &mut Vec<u8>,
    size: usize,
    processes: &[Process],
) -> Result<(), AllocError>
    requires { size < 2 ^ 63 }
    ensures { OnOk result (out.new.items
        ≡ out.old.items ++ flat_map (process_line size) processes.now) }
{
    let mut left = processes;
    while let [process, rest @ ..] = left {
        put_process(alloc, out, size, process)?;
        left = rest;
    }
    Ok(())
}

/// Writes the line of a process.
#[tactic(auto, using(crate::proofs::Appended::four_parts))]
fn put_process(
    alloc: Global,
    out: &mut Vec<u8>,
    size: usize,
    process: &Process,
) -> Result<(), AllocError>
    requires { size < 2 ^ 63 }
    ensures { OnOk result (out.new.items ≡ out.old.items ++ process_line size process.now) }
{
    put_padded(out, size + 3, title(alloc, process)?.as_str())?;
    put_padded(out, 10, process.state.as_str())?;
    out.extend_from_slice(process.description.as_str().as_bytes())?;
    out.extend_from_slice(b"\n")
}

/// Writes a text with spaces after it, to so many characters.
fn put_padded(out: &mut Vec<u8>, size: usize, text: &str) -> Result<(), AllocError>
    ensures { OnOk result (out.new.items ≡ out.old.items ++ padded size text.now) }
{
    out.extend_from_slice(text.as_bytes())?;
    put_spaces(out, size.saturating_sub(width(text.as_bytes())))
}

fn put_spaces(out: &mut Vec<u8>, count: usize) -> Result<(), AllocError>
    ensures { OnOk result (out.new.items ≡ out.old.items ++ repeat count (32 ∷ [])) }
{
    let mut left = count;
    while 0 < left {
        out.push(b' ')?;
        left -= 1;
    }
    Ok(())
}
