//! What ends a wait, and what its answer is.
ghost use Rattle.std.specs.Prelude.{◌≡◌, ◌++◌, IfOk, OnOk, map};
ghost use Rattle.std.specs.List.{list_any};
ghost use Rattle.std.specs.Option.{option_map, option_copied};
ghost use Rattle.sv_methods.specs.Scenes.{scene};
ghost use Rattle.sv_calls.specs.Waits.{answer, checked, child_of, first_fault, is_due};
ghost use Rattle.sv_calls.specs.Waits.{is_waited_for, judged, judged_by, process_of, single};
ghost use Rattle.sv_calls.specs.Waits.{started, status_of, statuses, waits};
ghost use Rattle.sv_xmlcall.specs.Trees.{reply_view, view};

use std::alloc::{AllocError, Global};
use sv_base::ids::ChildId;
use sv_base::state::State;
use sv_base::text::Text;
use sv_child::child::Child;
use sv_groups::Roster;
use sv_info::fault::Fault;
use sv_info::info::status_row;
use sv_methods::{Aim, Asked, Stand, Waiting};
use sv_xmlcall::call::Answered;
use sv_xmlcall::value::Value;

/// The answer of a wait by the states of the children, or `None` exactly while a child asked for meets its waiting condition.
pub fn check(
    alloc: Global,
    stand: &Stand,
    waiting: &Waiting,
) -> Result<Option<Answered>, AllocError>
    ensures { IfOk result (λ answered. option_map reply_view answered
        ≡ checked (scene stand.now) waiting.now) }
{
    if waits(stand.children, waiting) {
        return Ok(None);
    }
    Ok(Some(answer(alloc, stand.roster, stand.children, waiting)?))
}

/// Whether a child asked for meets its waiting condition.
fn waits(children: &[Child], waiting: &Waiting) -> bool
    ensures { result ≡ waits children.now waiting.now }
{
    waiting.wait && any_waited_for(children, waiting.rows.as_slice())
}

fn any_waited_for(children: &[Child], rows: &[Asked]) -> bool
    ensures { result ≡ list_any (is_waited_for children.now) rows.now }
{
    rows.iter().any(|asked| is_waited_for(children, *asked))
}

fn is_waited_for(children: &[Child], asked: Asked) -> bool
    ensures { result ≡ is_waited_for children.now asked }
{
    match child_of(children, asked.child) {
        Some(child) => is_due(asked.aim, child),
        None => false,
    }
}

/// While a process that was started is STARTING, and one that was stopped isn't at rest, it is waited for.
fn is_due(aim: Aim, child: &Child) -> bool
    ensures { result ≡ is_due aim child.now.state }
{
    match aim {
        Aim::Started => child.state == State::Starting,
        Aim::Stopped => !child.is_at_rest(),
        Aim::Signalled | Aim::Cleared => false,
    }
}

fn child_of(children: &[Child], id: Option<ChildId>) -> Option<&Child>
    ensures { option_copied result ≡ child_of children.now id }
{
    match id {
        Some(id) => children.get(id.0 as usize),
        None => None,
    }
}

/// What came of a row.
fn judged(children: &[Child], wait: bool, asked: Asked) -> Option<Fault>
    ensures { result ≡ judged children.now wait asked }
{
    match asked.fault {
        Some(number) => Some(Fault::of(number)),
        None => judged_by(wait, asked.aim, child_of(children, asked.child)),
    }
}

fn judged_by(wait: bool, aim: Aim, child: Option<&Child>) -> Option<Fault>
    ensures { result ≡ judged_by wait aim (option_copied child.entry) }
{
    match (wait, aim, child) {
        (true, Aim::Started, Some(child)) => started(child),
        _ => None,
    }
}

/// A start that ended elsewhere than in RUNNING: its cause is known or not.
fn started(child: &Child) -> Option<Fault>
    ensures { result ≡ started child.now.state child.now.fault }
{
    if child.state == State::Running {
        None
    } else if child.fault.as_str().is_empty() {
        Some(Fault::AbnormalTermination)
    } else {
        Some(Fault::SpawnError)
    }
}

/// The answer that a wait ends with.
fn answer(
    alloc: Global,
    roster: &Roster,
    children: &[Child],
    waiting: &Waiting,
) -> Result<Answered, AllocError>
    ensures { IfOk result (λ answered. reply_view answered
        ≡ answer roster.now children.now waiting.now) }
{
    let rows = waiting.rows.as_slice();
    if waiting.array {
        let values = statuses(alloc, roster, children, waiting.wait, rows)?;
        return Ok(Answered::Value(Value::Array(values)));
    }
    single(
        alloc,
        &waiting.name,
        first_fault(children, waiting.wait, rows),
    )
}

/// The answer that isn't a status array.
fn single(alloc: Global, name: &Option<Text>, fault: Option<Fault>) -> Result<Answered, AllocError>
    ensures { IfOk result (λ answered. reply_view answered ≡ single name.now fault) }
{
    let Some(fault) = fault else {
        return Ok(Answered::Value(Value::Truth(true)));
    };
    let text = match name {
        Some(name) => fault.text(alloc, Some(name.as_str()))?,
        None => fault.text(alloc, None)?,
    };
    Ok(Answered::Fault(i64::from(fault.number()), text))
}

/// The first fault of the rows.
fn first_fault(children: &[Child], wait: bool, rows: &[Asked]) -> Option<Fault>
    ensures { result ≡ first_fault children.now wait rows.now }
{
    let mut left = rows;
    while let [asked, rest @ ..] = left {
        if let Some(fault) = judged(children, wait, *asked) {
            return Some(fault);
        }
        left = rest;
    }
    None
}

/// The rows of a status array.
fn statuses(
    alloc: Global,
    roster: &Roster,
    children: &[Child],
    wait: bool,
    rows: &[Asked],
) -> Result<Vec<Value>, AllocError>
    ensures { IfOk result (λ values. map view values.items
        ≡ statuses roster.now children.now wait rows.now) }
{
    let mut values = Vec::with_capacity(alloc, rows.len())?;
    for asked in rows {
        push_status(
            alloc,
            roster,
            asked.child,
            judged(children, wait, *asked),
            &mut values,
        )?;
    }
    Ok(values)
}

/// Adds the row of a process, where there is one.
fn push_status(
    alloc: Global,
    roster: &Roster,
    id: Option<ChildId>,
    outcome: Option<Fault>,
    values: &mut Vec<Value>,
) -> Result<(), AllocError>
    ensures { OnOk result (map view values.new.items
        ≡ map view values.old.items ++ status_of (process_of roster.now id) outcome) }
{
    let Some(id) = id else {
        return Ok(());
    };
    if let Some((group, spec)) = roster.process(id.0 as usize) {
        values.push(status_row(alloc, &group.name, &spec.name, outcome)?)?;
    }
    Ok(())
}
