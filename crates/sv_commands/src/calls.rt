//! The single calls of the commands.
ghost use Rattle.std.specs.Prelude.{◌≡◌, Some, None, IfOk};
ghost use Rattle.std.specs.Option.{option_copied};
ghost use Rattle.sv_base.specs.SplitName.{split_of};
ghost use Rattle.sv_xmlcall.specs.Trees.{trees_view, tree, no_tree, text};
ghost use Rattle.sv_commands.specs.Commands.{asked, act_on, last_bytes, method_of_one};
ghost use Rattle.sv_commands.specs.Commands.{method_of_group, method_of_all, signal_param};
ghost use Rattle.sv_commands.specs.Commands.{step_view};
ghost use Rattle.sv_commands.specs.Subjects.{sent_name};
ghost use Rattle.sv_commands.specs.declared.step.Show.TheVariants.{Done, Rows};

use crate::act::Act;
use crate::step::{Line, Show, Step};
use crate::subjects::{is_group, sent_name};
use std::alloc::{AllocError, Global};
use sv_base::{Text, split_name};
use sv_xmlcall::{Call, Value};

/// A call of a method, with how its answer is shown.
pub(crate) fn asked(
    method: &'static str,
    params: Vec<Value>,
    name: Option<Text>,
    show: Show,
    counts: bool,
) -> Step
    ensures { step_view result ≡ asked method.now (trees_view params.items) name show counts }
{
    Step {
        call: Call {
            method: Text::fixed(method),
            params,
        },
        line: Line { name, show, counts },
    }
}

/// What is asked to act on one name: `all` is all processes, `g:*` and `g:` a group, every other one process.
pub(crate) fn act_on(
    alloc: Global,
    act: Act,
    signal: Option<&Text>,
    counts: bool,
    name: &Text,
) -> Result<Step, AllocError>
    ensures { IfOk result (λ step.
        step_view step ≡ act_on act (option_copied signal.entry) counts name.now) }
{
    if name.as_str() == "all" {
        return act_on_all(alloc, act, signal, counts);
    }
    if act.has_groups() && is_group(alloc, name)? {
        return act_on_group(alloc, act, signal, counts, name);
    }
    act_on_one(alloc, act, signal, counts, name)
}

fn act_on_all(
    alloc: Global,
    act: Act,
    signal: Option<&Text>,
    counts: bool,
) -> Result<Step, AllocError>
    ensures { IfOk result (λ step. step_view step
        ≡ asked (method_of_all act) (signal_param (option_copied signal.entry))
        None (Rows act) counts) }
{
    let params = signal_params(alloc, signal)?;
    Ok(asked(act.method_of_all(), params, None, Show::Rows(act), counts))
}

fn act_on_group(
    alloc: Global,
    act: Act,
    signal: Option<&Text>,
    counts: bool,
    name: &Text,
) -> Result<Step, AllocError>
    ensures { IfOk result (λ step. step_view step ≡ asked (method_of_group act)
        (tree (text (split_of name.now).0) (signal_param (option_copied signal.entry)))
        (Some name.now) (Rows act) counts) }
{
    let (group, _) = split_name(alloc, name.as_str())?;
    let params = named_params(alloc, group, signal)?;
    let name = Some(name.clone()?);
    Ok(asked(act.method_of_group(), params, name, Show::Rows(act), counts))
}

fn act_on_one(
    alloc: Global,
    act: Act,
    signal: Option<&Text>,
    counts: bool,
    name: &Text,
) -> Result<Step, AllocError>
    ensures { IfOk result (λ step. step_view step ≡ asked (method_of_one act)
        (tree (text (sent_name name.now)) (signal_param (option_copied signal.entry)))
        (Some name.now) (Done act) counts) }
{
    let params = named_params(alloc, sent_name(alloc, name)?, signal)?;
    let name = Some(name.clone()?);
    Ok(asked(act.method_of_one(), params, name, Show::Done(act), counts))
}

/// The signal, where there is one.
fn signal_params(alloc: Global, signal: Option<&Text>) -> Result<Vec<Value>, AllocError>
    ensures { IfOk result (λ params.
        trees_view params.items ≡ signal_param (option_copied signal.entry)) }
{
    match signal {
        Some(signal) => Ok(vec![in alloc; Value::Text(signal.clone()?)]?),
        None => Ok(Vec::new(alloc)),
    }
}

/// A name, and the signal, where there is one.
fn named_params(alloc: Global, name: Text, signal: Option<&Text>) -> Result<Vec<Value>, AllocError>
    ensures { IfOk result (λ params.
        trees_view params.items ≡ tree (text name) (signal_param (option_copied signal.entry))) }
{
    match signal {
        Some(signal) => Ok(vec![in alloc; Value::Text(name), Value::Text(signal.clone()?)]?),
        None => Ok(vec![in alloc; Value::Text(name)]?),
    }
}

/// The last so many bytes.
pub(crate) fn last_bytes(alloc: Global, count: u32) -> Result<Vec<Value>, AllocError>
    ensures { IfOk result (λ params. trees_view params.items ≡ last_bytes count) }
{
    Ok(vec![in alloc; Value::Int(-i64::from(count)), Value::Int(0)]?)
}

/// The last so many bytes of what is of this name.
pub(crate) fn last_bytes_of(alloc: Global, name: Text, count: u32) -> Result<Vec<Value>, AllocError>
    ensures { IfOk result (λ params.
        trees_view params.items ≡ tree (text name) (last_bytes count)) }
{
    Ok(vec![in alloc;
        Value::Text(name),
        Value::Int(-i64::from(count)),
        Value::Int(0),
    ]?)
}

/// One name.
pub(crate) fn one_name(alloc: Global, name: Text) -> Result<Vec<Value>, AllocError>
    ensures { IfOk result (λ params. trees_view params.items ≡ tree (text name) no_tree) }
{
    Ok(vec![in alloc; Value::Text(name)]?)
}
