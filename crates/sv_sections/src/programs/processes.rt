//! The processes of a section in a group.

ghost use Rattle.std.specs.Prelude.{◌≡◌, ◌≤◌, ◌+◌, [], Ok, IfOk, IfErr, ◌++◌, ◌∷◌, codes, length};
ghost use Rattle.sv_keys.specs.Environments.{environment_of, server_url};
ghost use Rattle.sv_keys.specs.Judged.{IsFault};
ghost use Rattle.sv_keys.specs.KeyTable.{or_default, numprocs, numprocs_start, settings_of};
ghost use Rattle.sv_keys.specs.KeyTable.{draft_of};
ghost use Rattle.std.specs.Option.{option_map};
ghost use Rattle.sv_expand.specs.Expansion.{expansion_of};
ghost use Rattle.sv_sections.specs.Programs.Processes.{is_expanded, auto_file, file_of, log_spec};
ghost use Rattle.sv_sections.specs.Programs.Processes.{without_capture, spec_of, with_next, drafts_from};
ghost use Rattle.sv_sections.specs.Programs.Processes.{all_drafts, all_specs, group_from, part_of, lacks_number};
ghost use Rattle.sv_sections.specs.Programs.Processes.{needs_number};

use crate::server::Common;
use std::alloc::{AllocError, Global};
use sv_base::config::Host;
use sv_base::items::Items;
use sv_base::number::CaptureBytes;
use sv_base::spec::{GroupSpec, LogSpec, Spec};
use sv_base::text::Text;
use sv_expand::expand::expand;
use sv_expand::fault::ExpandFault;
use sv_expand::names::{NamedTexts, Names, text_of};
use sv_keys::environment::{environment_of, server_url};
use sv_keys::judged::{Judged, KeyFault, Unread, earlier, joined};
use sv_keys::key::Key;
use sv_keys::names;
use sv_keys::table::{
    Around, Count, Draft, Log, Settings, Start, draft_of, numprocs, numprocs_start, settings_of,
};
use sv_keys::values::LogFile;

fn auto_file(
    alloc: Global,
    directory: &str,
    group: &str,
    name: &str,
    stream: &str,
) -> Result<Text, AllocError>
    ensures { IfOk result (λ file. file ≡ auto_file directory.now group.now name.now stream.now) }
{
    Ok(Text::from_string(format!(in alloc; "{directory}/{group}-{name}-{stream}.log")?))
}

fn file_of(
    alloc: Global,
    file: LogFile,
    directory: &str,
    group: &str,
    name: &str,
    stream: &str,
) -> Result<Option<Text>, AllocError>
    ensures { IfOk result (λ name_of_file.
        name_of_file ≡ file_of file directory.now group.now name.now stream.now) }
{
    match file {
        LogFile::Auto => Ok(Some(auto_file(alloc, directory, group, name, stream)?)),
        LogFile::Nowhere => Ok(None),
        LogFile::Named(file) => Ok(Some(file)),
    }
}

fn log_spec(
    alloc: Global,
    log: Log,
    directory: &str,
    group: &str,
    name: &str,
    stream: &str,
) -> Result<LogSpec, AllocError>
    ensures { IfOk result (λ spec.
        spec ≡ log_spec log directory.now group.now name.now stream.now) }
{
    Ok(LogSpec {
        file: file_of(alloc, log.file, directory, group, name, stream)?,
        maxbytes: log.maxbytes,
        backups: log.backups,
        capture: log.capture,
        events: log.events,
    })
}

fn without_capture(listener: bool, log: Log) -> Log
    ensures { result ≡ without_capture listener log }
{
    if listener {
        Log {
            file: log.file,
            maxbytes: log.maxbytes,
            backups: log.backups,
            capture: CaptureBytes::least(),
            events: log.events,
        }
    } else {
        log
    }
}

/// What of a process isn't in its keys as they stand: its group, its logs and its variables.
#[derive(Drop)]
struct Added {
    group: Text,
    stdout: LogSpec,
    stderr: LogSpec,
    environment: Items<(Text, Text)>,
}

fn make_added(
    alloc: Global,
    common: &Common,
    group: &str,
    name: &str,
    stdout: Log,
    stderr: Log,
    around: &Around,
) -> Result<Added, AllocError>
    ensures group { IfOk result (λ added. added.group ≡ group.now) }
    ensures stdout { IfOk result (λ added. added.stdout
        ≡ log_spec stdout common.now.childlogdir group.now name.now (codes "stdout")) }
    ensures stderr { IfOk result (λ added. added.stderr
        ≡ log_spec stderr common.now.childlogdir group.now name.now (codes "stderr")) }
    ensures environment { IfOk result (λ added. added.environment
        ≡ environment_of group.now name.now (server_url around.now.serverurl common.now.url)
        common.now.environment around.now.environment) }
{
    let directory = common.childlogdir.as_str();
    let url = server_url(&around.serverurl, &common.url)?;
    let of_daemon = common.environment.as_slice();
    let own = around.environment.as_slice();
    Ok(Added {
        environment: environment_of(alloc, group, name, url, of_daemon, own)?,
        stdout: log_spec(alloc, stdout, directory, group, name, "stdout")?,
        stderr: log_spec(alloc, stderr, directory, group, name, "stderr")?,
        group: Text::from_str(alloc, group)?,
    })
}

/// The process that these keys tell.
#[tactic(auto, unfolding(crate::specs::Programs::Processes::spec_of))]
fn spec_of(
    alloc: Global,
    common: &Common,
    listener: bool,
    group: &str,
    priority: i32,
    draft: Draft,
) -> Result<Spec, AllocError>
    ensures { IfOk result (λ spec. spec ≡ spec_of common.now listener group.now priority draft) }
{
    let Draft {
        running,
        stopping,
        stdout,
        stderr,
        around,
    } = draft;
    let stdout = without_capture(listener, stdout);
    let name = running.name.as_str();
    let added = make_added(alloc, common, group, name, stdout, stderr, &around)?;
    Ok(Spec {
        group: added.group,
        name: running.name,
        words: running.words,
        priority,
        autostart: running.autostart,
        startsecs: running.startsecs,
        startretries: running.startretries,
        autorestart: running.autorestart,
        exitcodes: running.exitcodes,
        stopsignal: running.stopsignal,
        stopwaitsecs: running.stopwaitsecs,
        stopasgroup: stopping.stopasgroup,
        killasgroup: stopping.killasgroup,
        redirect_stderr: stopping.redirect_stderr,
        stdout: added.stdout,
        stderr: added.stderr,
        environment: added.environment,
        directory: around.directory,
        umask: around.umask,
        user: around.user,
    })
}

/// One more of several, where the fault of the earliest key counts.
pub fn with_next<T: Drop>(
    done: Result<Items<T>, KeyFault>,
    next: Result<T, KeyFault>,
) -> Result<Result<Items<T>, KeyFault>, AllocError>
    ensures { IfOk result (λ all. all ≡ with_next done next) }
{
    match (done, next) {
        (Ok(values), Ok(value)) => {
            let mut values = values;
            values.push(value)?;
            Ok(Ok(values))
        }
        (Ok(_), Err(fault)) => Ok(Err(fault)),
        (Err(fault), Ok(_)) => Ok(Err(fault)),
        (Err(fault), Err(other)) => Ok(Err(earlier(fault, other))),
    }
}

fn all_drafts(
    alloc: Global,
    listener: bool,
    program: &str,
    keys: &[(Text, Text)],
    pairs: NamedTexts,
    count: Count,
    start: Start,
) -> Result<Result<Items<Draft>, KeyFault>, AllocError>
    ensures { IfOk result (λ drafts.
        drafts ≡ all_drafts listener program.now keys.now pairs count start) }
{
    let mut done = Ok(Items::new(alloc));
    let mut known = pairs;
    let mut process = start.get();
    let mut left = count.get();
    while left > 0 {
        let names = names::with_process(alloc, known, count.get(), process)?;
        let draft = draft_in(alloc, listener, program, keys, &names)?;
        done = with_next(done, draft)?;
        known = names.pairs;
        process += 1;
        left -= 1;
    }
    Ok(done)
}

fn all_specs(
    alloc: Global,
    common: &Common,
    listener: bool,
    group: &str,
    priority: i32,
    drafts: Items<Draft>,
) -> Result<Items<Spec>, AllocError>
    ensures { IfOk result (λ specs.
        specs ≡ all_specs common.now listener group.now priority drafts) }
{
    let mut specs = Items::new(alloc);
    for draft in drafts.into_vec() {
        specs.push(spec_of(alloc, common, listener, group, priority, draft)?)?;
    }
    Ok(specs)
}

#[tactic(auto, unfolding(crate::specs::Programs::Processes::group_from))]
fn group_from(
    alloc: Global,
    common: &Common,
    listener: bool,
    group: &str,
    settings: Settings,
    drafts: Items<Draft>,
) -> Result<GroupSpec, AllocError>
    ensures { IfOk result (λ part.
        part ≡ group_from common.now listener group.now (settings, drafts)) }
{
    let priority = settings.priority;
    Ok(GroupSpec {
        name: Text::from_str(alloc, group)?,
        priority,
        members: all_specs(alloc, common, listener, group, priority, drafts)?,
        pool: settings.pool,
    })
}

/// The processes of a section in a group, as a group of their own.
#[tactic(auto, unfolding(crate::specs::Programs::Processes::part_of))]
pub fn part_of(
    alloc: Global,
    host: &Host,
    common: &Common,
    listener: bool,
    program: &str,
    keys: &[(Text, Text)],
    group: &str,
) -> Judged<GroupSpec>
    ensures value { IfOk result (λ part.
        part_of host.now common.now listener program.now keys.now group.now ≡ Ok part) }
    ensures fault { IfErr result (λ fault.
        IsFault fault (part_of host.now common.now listener program.now keys.now group.now)) }
{
    let pairs = names::program_pairs(alloc, host, program, group)?;
    let names = names::without_numbers(alloc, pairs);
    let count = count_in(alloc, keys, &names)?;
    let start = start_in(alloc, keys, &names)?;
    let settings = settings_in(alloc, listener, keys, &names)?;
    let drafts = all_drafts(alloc, listener, program, keys, names.pairs, count, start)?;
    let (settings, drafts) = joined(settings, drafts)?;
    Ok(group_from(alloc, common, listener, group, settings, drafts)?)
}

/// How many processes there are; one where that is faulty.
fn count_in(alloc: Global, keys: &[(Text, Text)], names: &Names) -> Result<Count, AllocError>
    ensures { IfOk result (λ value. value ≡ or_default 1 (numprocs keys.now names.now)) }
{
    match numprocs(alloc, keys, names) {
        Ok(value) => Ok(value),
        Err(Unread::Faulty(_)) => Ok(Count::least()),
        Err(Unread::OutOfMemory) => Err(AllocError),
    }
}

/// The number of the first process; 0 where that is faulty.
fn start_in(alloc: Global, keys: &[(Text, Text)], names: &Names) -> Result<Start, AllocError>
    ensures { IfOk result (λ value. value ≡ or_default 0 (numprocs_start keys.now names.now)) }
{
    match numprocs_start(alloc, keys, names) {
        Ok(value) => Ok(value),
        Err(Unread::Faulty(_)) => Ok(Start::least()),
        Err(Unread::OutOfMemory) => Err(AllocError),
    }
}

/// What is read once for all processes, or its fault.
fn settings_in(
    alloc: Global,
    listener: bool,
    keys: &[(Text, Text)],
    names: &Names,
) -> Result<Result<Settings, KeyFault>, AllocError>
    ensures { IfOk result (λ value. value ≡ settings_of listener keys.now names.now) }
{
    match settings_of(alloc, listener, keys, names) {
        Ok(value) => Ok(Ok(value)),
        Err(Unread::Faulty(fault)) => Ok(Err(fault)),
        Err(Unread::OutOfMemory) => Err(AllocError),
    }
}

/// All keys of a process, or their fault.
fn draft_in(
    alloc: Global,
    listener: bool,
    program: &str,
    keys: &[(Text, Text)],
    names: &Names,
) -> Result<Result<Draft, KeyFault>, AllocError>
    ensures { IfOk result (λ value. value ≡ draft_of listener program.now keys.now names.now) }
{
    match draft_of(alloc, listener, program, keys, names) {
        Ok(value) => Ok(Ok(value)),
        Err(Unread::Faulty(fault)) => Ok(Err(fault)),
        Err(Unread::OutOfMemory) => Err(AllocError),
    }
}

/// Whether a name has no form with the process's number.
fn lacks_number(
    alloc: Global,
    pairs: NamedTexts,
    count: usize,
    name: Option<&str>,
) -> Result<bool, AllocError>
    ensures { IfOk result (λ lacks.
        lacks ≡ lacks_number pairs count (option_map (λ x. x.now) name.entry)) }
{
    match name {
        None => Ok(true),
        Some(text) => {
            let names = names::with_count(alloc, pairs, count)?;
            is_expanded(alloc, text, &names)
        }
    }
}

fn is_expanded(alloc: Global, text: &str, names: &Names) -> Result<bool, AllocError>
    ensures { IfOk result (λ expanded. expanded ≡ is_expanded (expansion_of names.now text.now)) }
{
    match expand(alloc, text, names) {
        Ok(_) => Ok(true),
        Err(ExpandFault::Unknown(_)) => Ok(false),
        Err(ExpandFault::BadForm(_)) => Ok(false),
        Err(ExpandFault::OutOfMemory) => Err(AllocError),
    }
}

/// Whether so many processes of a section in this group want a number in their name.
#[tactic(auto, unfolding(crate::specs::Programs::Processes::needs_number))]
pub fn needs_number(
    alloc: Global,
    host: &Host,
    program: &str,
    keys: &[(Text, Text)],
    group: &str,
    count: usize,
) -> Result<bool, AllocError>
    ensures { IfOk result (λ needs.
        needs ≡ needs_number host.now program.now keys.now group.now count) }
{
    if count <= 1 {
        return Ok(false);
    }
    let pairs = names::program_pairs(alloc, host, program, group)?;
    lacks_number(alloc, pairs, count, text_of(keys, Key::ProcessName.name()))
}
