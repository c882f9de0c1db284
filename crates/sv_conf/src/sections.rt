//! The processes of a section in each of its groups, counted.

ghost use Rattle.std.specs.Prelude.{◌≡◌, [], Ok, IfOk, IfErr};
ghost use Rattle.sv_conf.specs.Crowds.{counts_from, are_unnumbered, program_counts, counts_at};
ghost use Rattle.sv_conf.specs.Emptied.{emptied, counted_in};
ghost use Rattle.sv_conf.specs.Once.{ReadsOnce};
ghost use Rattle.sv_sections.specs.FaultTexts.{IsFault};
ghost use Rattle.sv_sections.specs.SectionFaults.{or_section_fault};

use crate::counted::Counted;
use crate::duplicates::first_twice;
use crate::once::{counted_once, read_once};
use std::alloc::{AllocError, Global};
use sv_base::config::Host;
use sv_base::items::Items;
use sv_base::spec::GroupSpec;
use sv_base::text::Text;
use sv_ini::section::Section;
use sv_keys::judged::KeyFault;
use sv_keys::key::Key;
use sv_keys::table::Settings;
use sv_keys::titles::titled;
use sv_sections::fault::ConfFault;
use sv_sections::programs::homes::{Home, NamedGroups, homes_of, own_home};
use sv_sections::programs::processes::{needs_number, with_next};
use sv_sections::programs::programs::part_in;
use sv_sections::section_faults::{check_name, must_have, section_fault};
use sv_sections::server::Common;

/// A group without its processes, where each of their names stands once.
fn emptied(alloc: Global, group: GroupSpec) -> Result<GroupSpec, AllocError>
    ensures { IfOk result (λ made. made ≡ emptied group) }
{
    if first_twice(alloc, group.members.as_slice())?.is_some() {
        return Ok(group);
    }
    let mut group = group;
    group.members = Items::new(alloc);
    Ok(group)
}

/// The processes of a section in a group, built, counted and let go.
fn counted_in(
    alloc: Global,
    host: &Host,
    common: &Common,
    listener: bool,
    program: &str,
    keys: &[(Text, Text)],
    home: &Home,
) -> Result<Result<Counted, KeyFault>, AllocError>
    ensures { IfOk result (λ counted.
        counted ≡ counted_in host.now common.now listener program.now keys.now home.now) }
{
    match part_in(
        alloc,
        host,
        common,
        listener,
        program,
        keys,
        home.group.as_str(),
    )? {
        Ok(group) => {
            let count = group.members.as_slice().len();
            let needs = needs_number(alloc, host, program, keys, group.name.as_str(), count)?;
            Ok(Ok(Counted {
                place: home.place,
                group: emptied(alloc, group)?,
                count,
                needs,
            }))
        }
        Err(fault) => Ok(Err(fault)),
    }
}

/// The processes of a section in each of its groups.
fn counts_from(
    alloc: Global,
    host: &Host,
    common: &Common,
    listener: bool,
    program: &str,
    keys: &[(Text, Text)],
    homes: &[Home],
) -> Result<Result<Items<Counted>, KeyFault>, AllocError>
    ensures { IfOk result (λ counts.
        counts ≡ counts_from host.now common.now listener program.now keys.now (Ok []) homes.now) }
{
    match read_once(alloc, host, listener, program, keys)? {
        Some(settings) => {
            let once = &settings;
            Ok(Ok(counts_once(alloc, host, common, listener, program, keys, once, homes)?))
        }
        None => counts_each(alloc, host, common, listener, program, keys, homes),
    }
}

/// By settings that tell the section's processes in each group.
#[tactic(auto, using(crate::proofs::NamesOnce::counted_so))]
fn counts_once(
    alloc: Global,
    host: &Host,
    common: &Common,
    listener: bool,
    program: &str,
    keys: &[(Text, Text)],
    settings: &Settings,
    homes: &[Home],
) -> Result<Items<Counted>, AllocError>
    requires { ReadsOnce host.now common.now listener program.now keys.now settings.now }
    ensures { IfOk result (λ counts.
        Ok counts
        ≡ counts_from host.now common.now listener program.now keys.now (Ok []) homes.now) }
{
    let mut done = Items::new(alloc);
    let mut left = homes;
    while let [home, rest @ ..] = left {
        done.push(counted_once(alloc, host, program, keys, settings, home)?)?;
        left = rest;
    }
    Ok(done)
}

/// By building those of each group in turn.
fn counts_each(
    alloc: Global,
    host: &Host,
    common: &Common,
    listener: bool,
    program: &str,
    keys: &[(Text, Text)],
    homes: &[Home],
) -> Result<Result<Items<Counted>, KeyFault>, AllocError>
    ensures { IfOk result (λ counts.
        counts ≡ counts_from host.now common.now listener program.now keys.now (Ok []) homes.now) }
{
    let mut done = Ok(Items::new(alloc));
    let mut left = homes;
    while let [home, rest @ ..] = left {
        let counted = counted_in(alloc, host, common, listener, program, keys, home)?;
        done = with_next(done, counted)?;
        left = rest;
    }
    Ok(done)
}

/// The processes of a section in each of its groups, or its fault.
fn counts_in(
    alloc: Global,
    host: &Host,
    common: &Common,
    listener: bool,
    title: &str,
    program: &str,
    keys: &[(Text, Text)],
    homes: &[Home],
) -> Result<Items<Counted>, ConfFault>
    ensures value { IfOk result (λ value.
        or_section_fault title.now
        (counts_from host.now common.now listener program.now keys.now (Ok []) homes.now)
        ≡ Ok value) }
    ensures fault { IfErr result (λ fault.
        IsFault fault
        (or_section_fault title.now
        (counts_from host.now common.now listener program.now keys.now (Ok []) homes.now))) }
{
    match counts_from(alloc, host, common, listener, program, keys, homes)? {
        Ok(counts) => Ok(counts),
        Err(fault) => Err(section_fault(alloc, title, fault)?),
    }
}

fn are_unnumbered(counts: &[Counted]) -> bool
    ensures { result ≡ are_unnumbered counts.now }
{
    counts.iter().any(|counted| counted.needs)
}

#[tactic(auto, unfolding(crate::specs::Crowds::program_counts))]
fn program_counts(
    alloc: Global,
    host: &Host,
    common: &Common,
    listener: bool,
    title: &str,
    program: &str,
    keys: &[(Text, Text)],
    homes: &[Home],
) -> Result<Items<Counted>, ConfFault>
    ensures value { IfOk result (λ value.
        program_counts host.now common.now listener title.now program.now keys.now homes.now
        ≡ Ok value) }
    ensures fault { IfErr result (λ fault.
        IsFault fault
        (program_counts host.now common.now listener title.now program.now keys.now homes.now)) }
{
    check_name(alloc, title, program)?;
    must_have(alloc, title, Key::Command, keys)?;
    if listener {
        must_have(alloc, title, Key::Events, keys)?;
    }
    let counts = counts_in(alloc, host, common, listener, title, program, keys, homes)?;
    if are_unnumbered(counts.as_slice()) {
        return Err(ConfFault::NeedsNumber(Text::from_str(alloc, title)?));
    }
    Ok(counts)
}

/// The processes of the section at this place, where it is a program or a listener.
#[tactic(auto, unfolding(crate::specs::Crowds::counts_at))]
pub fn counts_at(
    alloc: Global,
    host: &Host,
    common: &Common,
    named: &NamedGroups,
    place: usize,
    section: &Section,
) -> Result<Items<Counted>, ConfFault>
    ensures value { IfOk result (λ value.
        counts_at host.now common.now named.now place section.now ≡ Ok value) }
    ensures fault { IfErr result (λ fault.
        IsFault fault (counts_at host.now common.now named.now place section.now)) }
{
    let title = section.name.as_str();
    let keys = section.keys.as_slice();
    if let Some(program) = titled("program", title) {
        let homes = homes_of(alloc, place, program, named)?;
        let homes = homes.as_slice();
        return program_counts(alloc, host, common, false, title, program, keys, homes);
    }
    if let Some(listener) = titled("eventlistener", title) {
        let homes = own_home(alloc, place, listener)?;
        let homes = homes.as_slice();
        return program_counts(alloc, host, common, true, title, listener, keys, homes);
    }
    Ok(Items::new(alloc))
}
