//! The rows of the table of methods, by what a method takes.
ghost use Rattle.std.specs.Prelude.{◌≡◌, ◌∷◌, ◌++◌, [], IfOk, None, OnOk, Some, map, slice_get};
ghost use Rattle.sv_groups.specs.StartOrder.{pairs_of};
ghost use Rattle.sv_methods.specs.MethodNames.{all_methods, method_named, signature, spelling};
ghost use Rattle.sv_methods.specs.MethodTable.{info_row, is_closed, is_heard, plain_row};
ghost use Rattle.sv_methods.specs.MethodTable.{signature_row, state_tree, stdin_found, text_row};
ghost use Rattle.sv_methods.specs.MethodTable.{text_wait_row, texts_row, texts_tree, wait_row};
ghost use Rattle.sv_methods.specs.Outcomes.{does, outcome};
ghost use Rattle.sv_methods.specs.Processes.{info_of, infos, is_heard_state};
ghost use Rattle.sv_methods.specs.Scenes.{scene};
ghost use Rattle.sv_methods.specs.Spellings.{spelling_tree};
ghost use Rattle.sv_xmlcall.specs.Trees.{text, view};

use crate::act::{Act, asks_all, asks_group_named, asks_named, find, find_group};
use crate::logs::{clears_all, clears_main, clears_named};
use crate::method::{
    ALL, Method, PlainMethod, TextMethod, TextWaitMethod, TextsMethod, WaitMethod,
};
use crate::planned::{Planned, Request, does, refused, refused_for};
use crate::signals::{signal_in, signals_all, signals_found, signals_found_group};
use crate::stand::Stand;
use std::alloc::{AllocError, Global};
use sv_base::bytes::Bytes;
use sv_base::ids::ChildId;
use sv_base::moment::Moment;
use sv_base::state::{Mood, State};
use sv_base::text::Text;
use sv_child::child::Child;
use sv_groups::{Found, Roster};
use sv_info::fault::Fault;
use sv_info::info::process_info;
use sv_xmlcall::value::Value;

/// Methods that take nothing.
pub(crate) fn plain_row(
    alloc: Global,
    method: PlainMethod,
    stand: &Stand,
    now: Moment,
) -> Result<Planned, AllocError>
    ensures { IfOk result (λ planned. outcome planned ≡ plain_row method (scene stand.now) now) }
{
    match method {
        PlainMethod::ClearAllProcessLogs => clears_all(alloc, stand),
        PlainMethod::ClearLog => clears_main(alloc, stand),
        PlainMethod::GetApiVersion => Ok(Planned::Now(Value::Text(Text::fixed("3.0")))),
        PlainMethod::GetAllProcessInfo => all_infos(alloc, stand, now),
        PlainMethod::GetIdentification => {
            let identifier = stand.config.identifier.clone()?;
            Ok(Planned::Now(Value::Text(identifier)))
        }
        PlainMethod::GetPid => Ok(Planned::Now(Value::Int(i64::from(stand.pid)))),
        PlainMethod::GetState => Ok(Planned::Now(state_value(alloc, stand.mood)?)),
        PlainMethod::GetSupervisorVersion => Ok(Planned::Now(Value::Text(Text::fixed("4.0.0")))),
        PlainMethod::ListMethods => Ok(Planned::Now(Value::Array(spellings(alloc)?))),
        PlainMethod::Shutdown => does(alloc, Request::Shutdown, None),
    }
}

/// The mood as a struct.
fn state_value(alloc: Global, mood: Mood) -> Result<Value, AllocError>
    ensures { IfOk result (λ value. view value ≡ state_tree mood) }
{
    let members = vec![in alloc;
        (
            Text::fixed("statecode"),
            Value::Int(i64::from(mood.number()))
        ),
        (
            Text::fixed("statename"),
            Value::Text(Text::fixed(mood.name()))
        ),
    ]?;
    Ok(Value::Struct(members))
}

/// The spellings of all methods.
fn spellings(alloc: Global) -> Result<Vec<Value>, AllocError>
    ensures { IfOk result (λ values. map view values.items ≡ map text (map spelling all_methods)) }
{
    let methods: &[Method] = &ALL;
    spellings_of(alloc, methods)
}

fn spellings_of(alloc: Global, methods: &[Method]) -> Result<Vec<Value>, AllocError>
    ensures { IfOk result (λ values. map view values.items ≡ map spelling_tree methods.now) }
{
    let mut values = Vec::new(alloc);
    for method in methods {
        values.push(Value::Text(Text::fixed(method.spelling())))?;
    }
    Ok(values)
}

fn all_infos(alloc: Global, stand: &Stand, now: Moment) -> Result<Planned, AllocError>
    ensures { IfOk result (λ planned. outcome planned
        ≡ plain_row PlainMethod.GetAllProcessInfo (scene stand.now) now) }
{
    Ok(Planned::Now(Value::Array(infos(alloc, stand.roster, stand.children, now)?)))
}

/// What is said of all processes, in start order.
fn infos(
    alloc: Global,
    roster: &Roster,
    children: &[Child],
    now: Moment,
) -> Result<Vec<Value>, AllocError>
    ensures { IfOk result (λ values. map view values.items ≡ infos roster.now children.now now) }
{
    let mut values = Vec::with_capacity(alloc, children.len())?;
    for (place, child) in children.iter().enumerate() {
        push_info(alloc, roster, place, child, now, &mut values)?;
    }
    Ok(values)
}

/// Adds what is said of the process of this place, where there is one.
fn push_info(
    alloc: Global,
    roster: &Roster,
    place: usize,
    child: &Child,
    now: Moment,
    values: &mut Vec<Value>,
) -> Result<(), AllocError>
    ensures { OnOk result (map view values.new.items
        ≡ map view values.old.items
        ++ info_of (slice_get (pairs_of roster.now) place) (Some child.now) now) }
{
    if let Some((group, spec)) = roster.process(place) {
        values.push(process_info(alloc, &group.name, spec, child, now)?)?;
    }
    Ok(())
}

/// One process.
fn info_row(alloc: Global, stand: &Stand, name: &Text, now: Moment) -> Result<Planned, AllocError>
    ensures { IfOk result (λ planned. outcome planned ≡ info_row (scene stand.now) name.now now) }
{
    let Found::One(id) = stand.roster.find(name.as_str()) else {
        return refused_for(alloc, Fault::BadName, name.as_str());
    };
    let place = id.0 as usize;
    match (stand.roster.process(place), stand.children.get(place)) {
        (Some((group, spec)), Some(child)) => Ok(Planned::Now(process_info(
            alloc,
            &group.name,
            spec,
            child,
            now,
        )?)),
        _ => refused_for(alloc, Fault::BadName, name.as_str()),
    }
}

fn signature_row(alloc: Global, method: Option<Method>) -> Result<Planned, AllocError>
    ensures { IfOk result (λ planned. outcome planned ≡ signature_row method) }
{
    match method {
        Some(method) => Ok(Planned::Now(Value::Array(signature(alloc, method)?))),
        None => Ok(refused(Fault::SignatureUnsupported)),
    }
}

/// The signature of the method of a name.
fn signature_named(alloc: Global, name: &Text) -> Result<Planned, AllocError>
    ensures { IfOk result (λ planned. outcome planned ≡ signature_row (method_named name.now)) }
{
    let method = Method::named(name.as_str());
    let planned = signature_row(alloc, method)?;
    Ok(planned)
}

/// The type of a method's answer, then those of what it takes.
fn signature(alloc: Global, method: Method) -> Result<Vec<Value>, AllocError>
    ensures { IfOk result (λ values. map view values.items ≡ map text (signature method)) }
{
    let answer = method.answer_type();
    match method {
        Method::Plain(_) => words(alloc, &[answer]),
        Method::OfText(_) => words(alloc, &[answer, "string"]),
        Method::OfWait(_) => words(alloc, &[answer, "boolean"]),
        Method::OfTextAndWait(_) => words(alloc, &[answer, "string", "boolean"]),
        Method::OfTexts(_) => words(alloc, &[answer, "string", "string"]),
        Method::ReadLog => words(alloc, &[answer, "int", "int"]),
        Method::OfLog(_) => words(alloc, &[answer, "string", "int", "int"]),
        Method::Multicall => words(alloc, &[answer, "array"]),
    }
}

fn words(alloc: Global, words: &[&'static str]) -> Result<Vec<Value>, AllocError>
    ensures { IfOk result (λ values. map view values.items
        ≡ map (λ word. text word.now) words.now) }
{
    let mut values = Vec::new(alloc);
    for word in words {
        values.push(Value::Text(Text::fixed(word)))?;
    }
    Ok(values)
}

/// Methods that take a text.
pub(crate) fn text_row(
    alloc: Global,
    method: TextMethod,
    stand: &Stand,
    name: &Text,
    now: Moment,
) -> Result<Planned, AllocError>
    ensures { IfOk result (λ planned. outcome planned
        ≡ text_row method (scene stand.now) name.now now) }
{
    match method {
        TextMethod::ClearProcessLogs => clears_named(alloc, stand, name),
        TextMethod::GetProcessInfo => info_row(alloc, stand, name, now),
        TextMethod::MethodSignature => signature_named(alloc, name),
        TextMethod::SignalAllProcesses => signals_all(alloc, stand, name, signal_in(name)),
    }
}

/// Methods that take whether to wait.
pub(crate) fn wait_row(
    alloc: Global,
    method: WaitMethod,
    stand: &Stand,
    wait: bool,
) -> Result<Planned, AllocError>
    ensures { IfOk result (λ planned. outcome planned ≡ wait_row method (scene stand.now) wait) }
{
    match method {
        WaitMethod::StartAllProcesses => asks_all(alloc, Act::Start, stand, wait),
        WaitMethod::StopAllProcesses => asks_all(alloc, Act::Stop, stand, wait),
    }
}

/// Methods that take a text and whether to wait.
pub(crate) fn text_wait_row(
    alloc: Global,
    method: TextWaitMethod,
    stand: &Stand,
    name: &Text,
    wait: bool,
) -> Result<Planned, AllocError>
    ensures { IfOk result (λ planned. outcome planned
        ≡ text_wait_row method (scene stand.now) name.now wait) }
{
    match method {
        TextWaitMethod::StartProcess => asks_named(alloc, Act::Start, stand, wait, name),
        TextWaitMethod::StartProcessGroup => asks_group_named(alloc, Act::Start, stand, wait, name),
        TextWaitMethod::StopProcess => asks_named(alloc, Act::Stop, stand, wait, name),
        TextWaitMethod::StopProcessGroup => asks_group_named(alloc, Act::Stop, stand, wait, name),
    }
}

fn is_heard(children: &[Child], id: ChildId) -> bool
    ensures { result ≡ is_heard (slice_get children.now id.0) }
{
    match children.get(id.0 as usize) {
        Some(child) => hears(child.state),
        None => false,
    }
}

/// Whether a process hears its stdin in this state.
fn hears(state: State) -> bool
    ensures { result ≡ is_heard_state state }
{
    matches!(state, State::Running | State::Starting)
}

fn is_closed(closed: &[bool], id: ChildId) -> bool
    ensures { result ≡ is_closed (slice_get closed.now id.0) }
{
    match closed.get(id.0 as usize) {
        Some(closed) => *closed,
        None => false,
    }
}

/// A text for the stdin of what was found for a name.
fn stdin_found(
    alloc: Global,
    stand: &Stand,
    name: &Text,
    content: &Text,
    found: Found,
) -> Result<Planned, AllocError>
    ensures { IfOk result (λ planned. outcome planned
        ≡ stdin_found (scene stand.now) name.now content.now found) }
{
    let Found::One(id) = found else {
        return refused_for(alloc, Fault::BadName, name.as_str());
    };
    if !is_heard(stand.children, id) {
        return refused_for(alloc, Fault::NotRunning, name.as_str());
    }
    if is_closed(stand.closed, id) {
        return refused_for(alloc, Fault::NoFile, name.as_str());
    }
    let bytes = Bytes::from_slice(alloc, content.as_str().as_bytes())?;
    does(alloc, Request::Stdin(id, bytes), Some(name.clone()?))
}

/// Methods that take two texts.
pub(crate) fn texts_row(
    alloc: Global,
    method: TextsMethod,
    stand: &Stand,
    first: &Text,
    second: &Text,
) -> Result<Planned, AllocError>
    ensures { IfOk result (λ planned. outcome planned
        ≡ texts_row method (scene stand.now) first.now second.now) }
{
    match method {
        TextsMethod::SendProcessStdin => {
            let found = stand.roster.find(first.as_str());
            stdin_found(alloc, stand, first, second, found)
        }
        TextsMethod::SendRemoteCommEvent => remote(alloc, first, second),
        TextsMethod::SignalProcess => {
            let found = find(stand.roster, first.as_str());
            signals_found(alloc, stand, first, second, signal_in(second), found)
        }
        TextsMethod::SignalProcessGroup => {
            let found = find_group(alloc, stand.roster, first.as_str())?;
            signals_found_group(alloc, stand, first, second, signal_in(second), found)
        }
    }
}

/// An event of this type with this data is offered.
fn remote(alloc: Global, sort: &Text, content: &Text) -> Result<Planned, AllocError>
    ensures { IfOk result (λ planned. outcome planned
        ≡ does (Request.Remote sort.now content.now ∷ []) None) }
{
    let bytes = Bytes::from_slice(alloc, content.as_str().as_bytes())?;
    does(alloc, Request::Remote(sort.clone()?, bytes), None)
}
