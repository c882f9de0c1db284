//! Sections whose keys, but the name of a process, are read once for all of their processes in all of their groups.

ghost use Rattle.std.specs.Prelude.{◌≡◌, ◌++◌, ◌∷◌, [], Ok, IfOk, IfSome, OnOk, false, is_ok};
ghost use Rattle.std.specs.Result.{result_ok};
ghost use Rattle.sv_conf.specs.Once.{section_pairs, with_stand_in, have_names, AreOnce, ReadsOnce};
ghost use Rattle.sv_conf.specs.Once.{counted_once};
ghost use Rattle.sv_keys.specs.KeyTable.{draft_of, settings_of};
ghost use Rattle.sv_keys.specs.ProgramNames.{name_of};
ghost use Rattle.sv_keys.specs.Rows.{row};
ghost use Rattle.sv_keys.specs.declared.key.Key.TheVariants as key;
ghost use Rattle.sv_sections.specs.declared.server.Common.{Common};

use crate::counted::Counted;
use crate::duplicates::add_name;
use std::alloc::{AllocError, Global};
use std::collections::HashSet;
use sv_base::config::Host;
use sv_base::items::Items;
use sv_base::spec::GroupSpec;
use sv_base::text::Text;
use sv_expand::names::{NamedTexts, Names};
use sv_keys::judged::Unread;
use sv_keys::key::Key;
use sv_keys::names;
use sv_keys::rows::row;
use sv_keys::table::{Count, Settings, Start, draft_of, settings_of};
use sv_keys::values::ProcessName;
use sv_sections::programs::homes::Home;
use sv_sections::programs::processes::needs_number;

/// The settings of a section where they, and its keys but the name of a process, are the same for all of its processes
/// in all of its groups, and each process has a name of its own. `None` where that isn't seen at once.
pub fn read_once(
    alloc: Global,
    host: &Host,
    listener: bool,
    program: &str,
    keys: &[(Text, Text)],
) -> Result<Option<Settings>, AllocError>
    ensures { IfOk result (λ once. IfSome once (λ settings.
        (common : Common) → ReadsOnce host.now common listener program.now keys.now settings)) }
{
    let pairs = section_pairs(alloc, host, program)?;
    settings_once(alloc, listener, program, keys, pairs)
}

/// The settings of a section that are read with these pairs alone, where its keys but the name of a process are too, and
/// each process has a name of its own.
fn settings_once(
    alloc: Global,
    listener: bool,
    program: &str,
    keys: &[(Text, Text)],
    pairs: NamedTexts,
) -> Result<Option<Settings>, AllocError>
    ensures { IfOk result (λ once. IfSome once (λ settings.
        AreOnce listener program.now keys.now pairs settings)) }
{
    let names = names::without_numbers(alloc, pairs);
    let Some(settings) = settings_in(alloc, listener, keys, &names)? else {
        return Ok(None);
    };
    let names = names::with_count(alloc, names.pairs, settings.count.get() as usize)?;
    if !has_draft(alloc, listener, program, keys, &names)? {
        return Ok(None);
    }
    let (count, start) = (settings.count, settings.start);
    if !have_names(alloc, program, keys, names.pairs, count, start)? {
        return Ok(None);
    }
    Ok(Some(settings))
}

/// What stands in the values of a section whatever the group is.
fn section_pairs(alloc: Global, host: &Host, program: &str) -> Result<NamedTexts, AllocError>
    ensures { IfOk result (λ pairs. pairs ≡ section_pairs host.now program.now) }
{
    let mut pairs = names::host_names(alloc, host)?.pairs;
    add_pair(&mut pairs, "program_name", Text::from_str(alloc, program)?)?;
    Ok(pairs)
}

fn add_pair(pairs: &mut NamedTexts, name: &'static str, text: Text) -> Result<(), AllocError>
    ensures { OnOk result (pairs.new ≡ pairs.old ++ (name.now, text) ∷ []) }
{
    pairs.push((Text::fixed(name), text))?;
    Ok(())
}

/// What is read once for all processes, where it has no fault.
fn settings_in(
    alloc: Global,
    listener: bool,
    keys: &[(Text, Text)],
    names: &Names,
) -> Result<Option<Settings>, AllocError>
    ensures { IfOk result (λ read. IfSome read (λ settings.
        settings_of listener keys.now names.now ≡ Ok settings)) }
{
    match settings_of(alloc, listener, keys, names) {
        Ok(settings) => Ok(Some(settings)),
        Err(Unread::Faulty(_)) => Ok(None),
        Err(Unread::OutOfMemory) => Err(AllocError),
    }
}

/// Whether the keys but the name of a process are read so whatever its number is.
fn has_draft(
    alloc: Global,
    listener: bool,
    program: &str,
    keys: &[(Text, Text)],
    names: &Names,
) -> Result<bool, AllocError>
    ensures { IfOk result (λ has.
        has ≡ is_ok (draft_of listener program.now (with_stand_in keys.now) names.now)) }
{
    let keys = with_stand_in(alloc, keys)?;
    match draft_of(alloc, listener, program, keys.as_slice(), names) {
        Ok(_) => Ok(true),
        Err(Unread::Faulty(_)) => Ok(false),
        Err(Unread::OutOfMemory) => Err(AllocError),
    }
}

/// The keys, with another name in the place of that of a process.
fn with_stand_in(alloc: Global, keys: &[(Text, Text)]) -> Result<Items<(Text, Text)>, AllocError>
    ensures { IfOk result (λ changed. changed ≡ with_stand_in keys.now) }
{
    let mut changed = Items::new(alloc);
    changed.push((Text::fixed("process_name"), Text::fixed("x")))?;
    let mut left = keys;
    while let [(key, value), rest @ ..] = left {
        changed.push((key.clone()?, value.clone()?))?;
        left = rest;
    }
    Ok(changed)
}

/// Whether each process has a name of its own.
fn have_names(
    alloc: Global,
    program: &str,
    keys: &[(Text, Text)],
    pairs: NamedTexts,
    count: Count,
    start: Start,
) -> Result<bool, AllocError>
    ensures { IfOk result (λ have.
        have ≡ have_names program.now keys.now pairs count (λ _. false) start count) }
{
    let mut seen = HashSet::new(alloc);
    let mut known = pairs;
    let mut process = start.get();
    let mut left = count.get();
    while left > 0 {
        let names = names::with_process(alloc, known, count.get(), process)?;
        let Some(name) = name_in(alloc, program, keys, &names)? else {
            return Ok(false);
        };
        if seen.contains(name.as_str()) {
            return Ok(false);
        }
        add_name(alloc, &mut seen, name.as_str())?;
        known = names.pairs;
        process += 1;
        left -= 1;
    }
    Ok(true)
}

/// The name of a process, where it has one.
fn name_in(
    alloc: Global,
    program: &str,
    keys: &[(Text, Text)],
    names: &Names,
) -> Result<Option<Text>, AllocError>
    ensures { IfOk result (λ name.
        name ≡ result_ok (row key.ProcessName name_of program.now keys.now names.now)) }
{
    let program = Text::from_str(alloc, program)?;
    match row::<ProcessName>(alloc, Key::ProcessName, program, keys, names) {
        Ok(name) => Ok(Some(name)),
        Err(Unread::Faulty(_)) => Ok(None),
        Err(Unread::OutOfMemory) => Err(AllocError),
    }
}

/// The processes that a section's settings tell in a group.
pub fn counted_once(
    alloc: Global,
    host: &Host,
    program: &str,
    keys: &[(Text, Text)],
    settings: &Settings,
    home: &Home,
) -> Result<Counted, AllocError>
    ensures { IfOk result (λ counted.
        counted ≡ counted_once host.now program.now keys.now settings.now home.now) }
{
    let count = settings.count.get() as usize;
    let needs = needs_number(alloc, host, program, keys, home.group.as_str(), count)?;
    let group = GroupSpec {
        name: home.group.clone()?,
        priority: settings.priority,
        members: Items::new(alloc),
        pool: settings.pool.clone()?,
    };
    Ok(Counted {
        place: home.place,
        group,
        count,
        needs,
    })
}
