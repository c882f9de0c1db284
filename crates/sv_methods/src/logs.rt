//! Reading and clearing logs.
ghost use Rattle.std.specs.Prelude.{◌≡◌, ◌++◌, ◌∷◌, [], false, IfOk, MatchOption, None, OnOk, Some};
ghost use Rattle.std.specs.Prelude.{map};
ghost use Rattle.sv_groups.specs.StartOrder.{processes};
ghost use Rattle.sv_logs.specs.Spans.{read_part};
ghost use Rattle.sv_methods.specs.Logs.{clear_request, cleared, clears, clears_main, clears_named};
ghost use Rattle.sv_methods.specs.Logs.{file_of, log_of, log_row, logs_of, process_named, reads};
ghost use Rattle.sv_methods.specs.Logs.{reads_main, reads_part, tails};
ghost use Rattle.sv_methods.specs.MethodTable.{clears_all};
ghost use Rattle.sv_methods.specs.Outcomes.{outcome};
ghost use Rattle.sv_methods.specs.Processes.{size_of};
ghost use Rattle.sv_methods.specs.Scenes.{scene};

use crate::method::LogMethod;
use crate::planned::{Aim, Asked, Planned, ReadShape, Request, Waiting, refused, refused_for};
use crate::stand::Stand;
use std::alloc::{AllocError, Global};
use sv_base::ids::ChildId;
use sv_base::items::Items;
use sv_base::spec::{GroupSpec, Spec};
use sv_base::text::Text;
use sv_groups::{Found, Roster};
use sv_info::fault::Fault;
use sv_logs::spans::{Span, read_span, tail_span};
use sv_xmlcall::value::Value;

/// The known size of a file in bytes, 0 where none is known.
fn size_of(file: &str, sizes: &[(Text, u64)]) -> u64
    ensures { result ≡ size_of file.now sizes.now }
{
    let mut left = sizes;
    while let [(name, size), rest @ ..] = left {
        if name.as_str() == file {
            return *size;
        }
        left = rest;
    }
    0
}

/// The part of a file of this size that a read asks for.
#[tactic(auto, using(crate::proofs::SpanLaws::no_part))]
fn part_of(size: u64, offset: i64, length: i64) -> Option<Span>
    ensures { result ≡ read_part size offset length }
{
    match read_span(size, offset, length) {
        Ok(span) => Some(span),
        Err(_) => None,
    }
}

/// A part of a file from an offset on.
fn reads_part(file: &Text, part: Option<Span>) -> Result<Planned, AllocError>
    ensures { IfOk result (λ planned. outcome planned ≡ reads_part file.now part) }
{
    match part {
        Some(span) => Ok(Planned::Read(file.clone()?, span, ReadShape::Plain)),
        None => Ok(refused(Fault::BadArguments)),
    }
}

fn reads(stand: &Stand, file: &Text, offset: i64, length: i64) -> Result<Planned, AllocError>
    ensures { IfOk result (λ planned. outcome planned
        ≡ reads_part file.now (read_part (size_of file.now stand.now.sizes.now) offset length)) }
{
    let size = size_of(file.as_str(), stand.sizes);
    reads_part(file, part_of(size, offset, length))
}

/// A part of the main log from an offset on.
pub(crate) fn reads_main(stand: &Stand, offset: i64, length: i64) -> Result<Planned, AllocError>
    ensures { IfOk result (λ planned. outcome planned
        ≡ reads_main (scene stand.now) offset length) }
{
    match &stand.config.main.file {
        Some(file) => reads(stand, file, offset, length),
        None => Ok(refused(Fault::NoFile)),
    }
}

/// A part of a log of the process of this name from an offset on.
fn reads_log(
    alloc: Global,
    stand: &Stand,
    name: &Text,
    log: &Option<Text>,
    offset: i64,
    length: i64,
) -> Result<Planned, AllocError>
    ensures { IfOk result (λ planned. outcome planned
        ≡ reads (scene stand.now) (Some name.now) log.now offset length) }
{
    match log {
        Some(file) => reads(stand, file, offset, length),
        None => refused_for(alloc, Fault::NoFile, name.as_str()),
    }
}

/// The end of a log.
fn tails(
    alloc: Global,
    stand: &Stand,
    log: &Option<Text>,
    offset: i64,
    length: i64,
) -> Result<Planned, AllocError>
    ensures { IfOk result (λ planned. outcome planned
        ≡ tails (scene stand.now) log.now offset length) }
{
    match log {
        Some(file) => tails_file(stand, file, offset, length),
        None => Ok(Planned::Now(Value::Array(vec![in alloc;
            Value::Text(Text::fixed("")),
            Value::Int(0),
            Value::Truth(false),
        ]?))),
    }
}

fn tails_file(stand: &Stand, file: &Text, offset: i64, length: i64) -> Result<Planned, AllocError>
    ensures { IfOk result (λ planned. outcome planned
        ≡ tails (scene stand.now) (Some file.now) offset length) }
{
    let (span, end, missed) = tail_span(size_of(file.as_str(), stand.sizes), offset, length);
    Ok(Planned::Read(file.clone()?, span, ReadShape::Tail(end, missed)))
}

/// What a method gives of the logs of a process.
fn log_of(
    alloc: Global,
    method: LogMethod,
    stand: &Stand,
    name: &Text,
    spec: &Spec,
    offset: i64,
    length: i64,
) -> Result<Planned, AllocError>
    ensures { IfOk result (λ planned. outcome planned
        ≡ log_of method (scene stand.now) name.now spec.now offset length) }
{
    match method {
        LogMethod::ReadStderr => reads_log(alloc, stand, name, &spec.stderr.file, offset, length),
        LogMethod::ReadStdout => reads_log(alloc, stand, name, &spec.stdout.file, offset, length),
        LogMethod::TailStderr => tails(alloc, stand, &spec.stderr.file, offset, length),
        LogMethod::TailStdout => tails(alloc, stand, &spec.stdout.file, offset, length),
    }
}

/// The process that a name finds, if it finds one and no group.
pub(crate) fn process_named<'a>(roster: &'a Roster, name: &str) -> Option<(&'a GroupSpec, &'a Spec)>
    ensures { MatchOption result (process_named name.now roster.now ≡ None)
        (λ process. process_named name.now roster.now ≡ Some (process.0.now, process.1.now)) }
{
    match roster.find(name) {
        Found::One(id) => roster.process(id.0 as usize),
        _ => None,
    }
}

/// The logs of a name.
pub(crate) fn log_row(
    alloc: Global,
    method: LogMethod,
    stand: &Stand,
    name: &Text,
    offset: i64,
    length: i64,
) -> Result<Planned, AllocError>
    ensures { IfOk result (λ planned. outcome planned
        ≡ log_row method (scene stand.now) name.now offset length) }
{
    match process_named(stand.roster, name.as_str()) {
        Some((_, spec)) => log_of(alloc, method, stand, name, spec, offset, length),
        None => refused_for(alloc, Fault::BadName, name.as_str()),
    }
}

fn cleared(child: Option<ChildId>) -> Asked
    ensures { result ≡ cleared child }
{
    Asked {
        child,
        aim: Aim::Cleared,
        fault: None,
    }
}

fn clears(requests: Vec<Request>, array: bool, name: Option<Text>, rows: Vec<Asked>) -> Planned
    ensures { outcome result ≡ clears requests.items array name rows.items }
{
    Planned::Do(
        Items::from_vec(requests),
        Waiting {
            wait: false,
            array,
            name,
            rows: Items::from_vec(rows),
        },
    )
}

/// The main log is cleared.
pub(crate) fn clears_main(alloc: Global, stand: &Stand) -> Result<Planned, AllocError>
    ensures { IfOk result (λ planned. outcome planned
        ≡ clears_main stand.now.config.now.main.file) }
{
    let Some(file) = &stand.config.main.file else {
        return Ok(refused(Fault::NoFile));
    };
    let files = Items::from_vec(vec![in alloc; file.clone()?]?);
    let requests = vec![in alloc; Request::Clear(files)]?;
    Ok(clears(requests, false, None, vec![in alloc; cleared(None)]?))
}

fn push_file(files: &mut Vec<Text>, file: &Option<Text>) -> Result<(), AllocError>
    ensures { OnOk result (files.new.items ≡ files.old.items ++ file_of file.now) }
{
    if let Some(file) = file {
        files.push(file.clone()?)?;
    }
    Ok(())
}

/// The logs of a process are cleared, stdout's before stderr's.
fn clear_request(alloc: Global, spec: &Spec) -> Result<Request, AllocError>
    ensures { IfOk result (λ request. request ≡ clear_request spec.now) }
{
    let mut files = Vec::new(alloc);
    push_file(&mut files, &spec.stdout.file)?;
    push_file(&mut files, &spec.stderr.file)?;
    Ok(Request::Clear(Items::from_vec(files)))
}

fn clears_process(
    alloc: Global,
    name: &Text,
    id: ChildId,
    spec: &Spec,
) -> Result<Planned, AllocError>
    ensures { IfOk result (λ planned. outcome planned
        ≡ clears (clear_request spec.now ∷ []) false (Some name.now) (cleared (Some id) ∷ [])) }
{
    let requests = vec![in alloc; clear_request(alloc, spec)?]?;
    let rows = vec![in alloc; cleared(Some(id))]?;
    Ok(clears(requests, false, Some(name.clone()?), rows))
}

/// The logs of a name are cleared.
pub(crate) fn clears_named(alloc: Global, stand: &Stand, name: &Text) -> Result<Planned, AllocError>
    ensures { IfOk result (λ planned. outcome planned ≡ clears_named (scene stand.now) name.now) }
{
    let Found::One(id) = stand.roster.find(name.as_str()) else {
        return refused_for(alloc, Fault::BadName, name.as_str());
    };
    match stand.roster.process(id.0 as usize) {
        Some((_, spec)) => clears_process(alloc, name, id, spec),
        None => refused_for(alloc, Fault::BadName, name.as_str()),
    }
}

fn push_clears(alloc: Global, specs: &[Spec], requests: &mut Vec<Request>) -> Result<(), AllocError>
    ensures { OnOk result (requests.new.items ≡ requests.old.items ++ map clear_request specs.now) }
{
    for spec in specs {
        requests.push(clear_request(alloc, spec)?)?;
    }
    Ok(())
}

fn clear_requests(alloc: Global, groups: &[GroupSpec]) -> Result<Vec<Request>, AllocError>
    ensures { IfOk result (λ requests. requests.items ≡ map clear_request (processes groups.now)) }
{
    let mut requests = Vec::new(alloc);
    for group in groups {
        push_clears(alloc, group.members.as_slice(), &mut requests)?;
    }
    Ok(requests)
}

fn cleared_rows(alloc: Global, ids: &[ChildId]) -> Result<Vec<Asked>, AllocError>
    ensures { IfOk result (λ rows. rows.items ≡ map (λ id. cleared (Some id)) ids.now) }
{
    ids.iter().map(|id| cleared(Some(*id))).collect(alloc)
}

/// The logs of all processes are cleared.
pub(crate) fn clears_all(alloc: Global, stand: &Stand) -> Result<Planned, AllocError>
    ensures { IfOk result (λ planned. outcome planned ≡ clears_all (scene stand.now)) }
{
    let requests = clear_requests(alloc, stand.roster.groups())?;
    let ids = stand.roster.start_order(alloc)?;
    let rows = cleared_rows(alloc, ids.as_slice())?;
    Ok(clears(requests, true, None, rows))
}
