//! The struct of a process, and the row of a status array.
ghost use Rattle.std.specs.Prelude.{◌≡◌, ◌++◌, IfOk, OnOk, pos};
ghost use Rattle.std.specs.Option.{option_copied};
ghost use Rattle.sv_info.specs.Info.{ends_part, full_name, info, log_names, logs_part, names_part};
ghost use Rattle.sv_info.specs.Info.{outcome_number, outcome_text, seconds_of, state_names};
ghost use Rattle.sv_info.specs.Info.{state_part, status, times_part};
ghost use Rattle.sv_info.specs.Members.{trees_by_name};
ghost use Rattle.sv_xmlcall.specs.Trees.{view};

use crate::describe::description;
use crate::fault::Fault;
use crate::members::{put_count, put_log, put_number, put_text, put_word};
use std::alloc::{AllocError, Global};
use sv_base::moment::Moment;
use sv_base::spec::Spec;
use sv_base::text::Text;
use sv_child::child::Child;
use sv_xmlcall::value::Value;

/// What is said of the process of a group: fourteen members. Moments are in whole seconds since 1970, 0 where there is none.
pub fn process_info(
    alloc: Global,
    group: &Text,
    spec: &Spec,
    child: &Child,
    now: Moment,
) -> Result<Value, AllocError>
    ensures { IfOk result (λ value. view value ≡ info group.now spec.now child.now now) }
{
    let mut members = Vec::with_capacity(alloc, 14)?;
    put_names(alloc, &mut members, group, spec, child, now)?;
    put_times(&mut members, child, now)?;
    put_state(&mut members, child)?;
    put_logs(&mut members, spec, child)?;
    Ok(Value::Struct(members))
}

/// Adds who it is.
fn put_names(
    alloc: Global,
    members: &mut Vec<(Text, Value)>,
    group: &Text,
    spec: &Spec,
    child: &Child,
    now: Moment,
) -> Result<(), AllocError>
    ensures { OnOk result (trees_by_name members.new.items
        ≡ trees_by_name members.old.items ++ names_part group.now spec.now child.now now) }
{
    put_text(members, "name", spec.name.clone()?)?;
    put_text(members, "group", group.clone()?)?;
    let description = description(alloc, spec.name.as_str(), child, now)?;
    put_text(members, "description", description)
}

/// Adds when it started and stopped.
fn put_times(members: &mut Vec<(Text, Value)>, child: &Child, now: Moment) -> Result<(), AllocError>
    ensures { OnOk result (trees_by_name members.new.items
        ≡ trees_by_name members.old.items ++ times_part child.now now) }
{
    put_number(members, "start", seconds_of(child.start))?;
    put_number(members, "stop", seconds_of(child.stop))?;
    put_number(members, "now", seconds_of(Some(now)))
}

/// Adds how it is.
fn put_state(members: &mut Vec<(Text, Value)>, child: &Child) -> Result<(), AllocError>
    ensures { OnOk result (trees_by_name members.new.items
        ≡ trees_by_name members.old.items ++ state_part child.now) }
{
    put_state_names(members, child)?;
    put_ends(members, child)
}

fn put_state_names(members: &mut Vec<(Text, Value)>, child: &Child) -> Result<(), AllocError>
    ensures { OnOk result (trees_by_name members.new.items
        ≡ trees_by_name members.old.items ++ state_names child.now) }
{
    put_count(members, "state", child.state.number())?;
    put_word(members, "statename", child.state.name())?;
    Ok(())
}

/// Adds how its last start and its last process ended.
fn put_ends(members: &mut Vec<(Text, Value)>, child: &Child) -> Result<(), AllocError>
    ensures { OnOk result (trees_by_name members.new.items
        ≡ trees_by_name members.old.items ++ ends_part child.now) }
{
    put_text(members, "spawnerr", child.fault.clone()?)?;
    put_number(members, "exitstatus", i64::from(child.exit))
}

/// Adds where its logs are, and its process.
fn put_logs(members: &mut Vec<(Text, Value)>, spec: &Spec, child: &Child) -> Result<(), AllocError>
    ensures { OnOk result (trees_by_name members.new.items
        ≡ trees_by_name members.old.items ++ logs_part spec.now child.now) }
{
    put_log_names(members, spec)?;
    put_count(members, "pid", child.pid)
}

fn put_log_names(members: &mut Vec<(Text, Value)>, spec: &Spec) -> Result<(), AllocError>
    ensures { OnOk result (trees_by_name members.new.items
        ≡ trees_by_name members.old.items ++ log_names spec.now) }
{
    put_log(members, "logfile", &spec.stdout)?;
    put_log(members, "stdout_logfile", &spec.stdout)?;
    put_log(members, "stderr_logfile", &spec.stderr)?;
    Ok(())
}

fn seconds_of(moment: Option<Moment>) -> i64
    ensures { result ≡ seconds_of moment }
{
    match moment {
        None => 0,
        Some(moment) => (moment.milliseconds() / 1_000) as i64,
    }
}

/// A row of a status array: what came of a call for the process of this group and name.
pub fn status_row(
    alloc: Global,
    group: &Text,
    name: &Text,
    outcome: Option<Fault>,
) -> Result<Value, AllocError>
    ensures { IfOk result (λ value. view value ≡ status group.now name.now outcome) }
{
    let mut members = Vec::with_capacity(alloc, 4)?;
    put_text(&mut members, "name", name.clone()?)?;
    put_text(&mut members, "group", group.clone()?)?;
    put_number(&mut members, "status", outcome_number(outcome))?;
    let subject = full_name(alloc, group.as_str(), name.as_str())?;
    put_text(
        &mut members,
        "description",
        outcome_text(alloc, outcome, subject.as_str())?,
    )?;
    Ok(Value::Struct(members))
}

fn outcome_number(outcome: Option<Fault>) -> i64
    ensures { result ≡ pos (outcome_number outcome) }
{
    match outcome {
        None => 80,
        Some(fault) => i64::from(fault.number()),
    }
}

fn outcome_text(alloc: Global, outcome: Option<Fault>, subject: &str) -> Result<Text, AllocError>
    ensures { IfOk result (λ text. text ≡ outcome_text outcome subject.now) }
{
    match outcome {
        None => Ok(Text::fixed("OK")),
        Some(fault) => fault.text(alloc, Some(subject)),
    }
}

/// The name of a process with its group's.
fn full_name(alloc: Global, group: &str, name: &str) -> Result<Text, AllocError>
    ensures { IfOk result (λ text. text ≡ full_name group.now name.now) }
{
    let mut text = String::from_str(alloc, group)?;
    text.push_str(":")?;
    text.push_str(name)?;
    Ok(Text::from_string(text))
}
