//! The processes of the sections of programs and listeners.

ghost use Rattle.std.specs.Prelude.{◌≡◌, [], Ok, true, IfOk, IfErr, map, List, Result};
ghost use Rattle.sv_sections.specs.Programs.Programs.{with_place, parts_from, need_numbers, numbered_by};
ghost use Rattle.sv_sections.specs.Programs.Programs.{numbered, has_events, program_parts};
ghost use Rattle.sv_sections.specs.SectionFaults.{check_name};
ghost use Rattle.sv_sections.specs.Programs.Programs.{parts_by, parts_at, after_programs, no_parts};
ghost use Rattle.sv_sections.specs.Programs.Programs.{all_parts};
ghost use Rattle.sv_sections.specs.FaultTexts.{IsFault};
ghost use Rattle.sv_sections.specs.SectionFaults.{or_missing, or_section_fault};
ghost use Rattle.sv_sections.specs.Programs.Processes.{part_of};

use crate::fault::ConfFault;
use crate::programs::homes::{Home, NamedGroups, Part, all_named, homes_of, own_home, put_parts};
use crate::programs::processes::{needs_number, part_of, with_next};
use crate::section_faults::{check_name, must_have, section_fault};
use crate::server::Common;
use std::alloc::{AllocError, Global};
use sv_base::config::Host;
use sv_base::items::Items;
use sv_base::spec::GroupSpec;
use sv_base::text::Text;
use sv_ini::section::Section;
use sv_keys::judged::{KeyFault, Unread};
use sv_keys::key::Key;
use sv_keys::titles::titled;

/// A part with the place of its group, or its fault.
pub fn with_place(place: usize, part: Result<GroupSpec, KeyFault>) -> Result<Part, KeyFault>
    ensures { result ≡ with_place place part }
{
    match part {
        Ok(group) => Ok(Part { place, group }),
        Err(fault) => Err(fault),
    }
}

/// The processes of a section in a group, or their fault.
pub fn part_in(
    alloc: Global,
    host: &Host,
    common: &Common,
    listener: bool,
    program: &str,
    keys: &[(Text, Text)],
    group: &str,
) -> Result<Result<GroupSpec, KeyFault>, AllocError>
    ensures { IfOk result (λ part.
        part ≡ part_of host.now common.now listener program.now keys.now group.now) }
{
    match part_of(alloc, host, common, listener, program, keys, group) {
        Ok(part) => Ok(Ok(part)),
        Err(Unread::Faulty(fault)) => Ok(Err(fault)),
        Err(Unread::OutOfMemory) => Err(AllocError),
    }
}

/// The processes of a section in each of its groups.
fn parts_from(
    alloc: Global,
    host: &Host,
    common: &Common,
    listener: bool,
    program: &str,
    keys: &[(Text, Text)],
    homes: &[Home],
) -> Result<Result<Items<Part>, KeyFault>, AllocError>
    ensures { IfOk result (λ parts.
        parts ≡ parts_from host.now common.now listener program.now keys.now (Ok []) homes.now) }
{
    let mut done = Ok(Items::new(alloc));
    let mut left = homes;
    while let [home, rest @ ..] = left {
        let group = home.group.as_str();
        let part = part_in(alloc, host, common, listener, program, keys, group)?;
        done = with_next(done, with_place(home.place, part))?;
        left = rest;
    }
    Ok(done)
}

/// The processes of a section in each of its groups, or its fault.
fn parts_in(
    alloc: Global,
    host: &Host,
    common: &Common,
    listener: bool,
    title: &str,
    program: &str,
    keys: &[(Text, Text)],
    homes: &[Home],
) -> Result<Items<Part>, ConfFault>
    ensures value { IfOk result (λ value.
        or_section_fault title.now
        (parts_from host.now common.now listener program.now keys.now (Ok []) homes.now)
        ≡ Ok value) }
    ensures fault { IfErr result (λ fault.
        IsFault fault
        (or_section_fault title.now
        (parts_from host.now common.now listener program.now keys.now (Ok []) homes.now))) }
{
    match parts_from(alloc, host, common, listener, program, keys, homes)? {
        Ok(parts) => Ok(parts),
        Err(fault) => Err(section_fault(alloc, title, fault)?),
    }
}

#[tactic(auto, unfolding(crate::specs::Programs::Programs::numbered))]
fn numbered(
    alloc: Global,
    host: &Host,
    title: &str,
    program: &str,
    keys: &[(Text, Text)],
    parts: Items<Part>,
) -> Result<Items<Part>, ConfFault>
    ensures value { IfOk result (λ value.
        numbered host.now title.now program.now keys.now parts ≡ Ok value) }
    ensures fault { IfErr result (λ fault.
        IsFault fault (numbered host.now title.now program.now keys.now parts)) }
{
    if need_numbers(alloc, host, program, keys, parts.as_slice())? {
        Err(ConfFault::NeedsNumber(Text::from_str(alloc, title)?))
    } else {
        Ok(parts)
    }
}

#[tactic(auto, unfolding(crate::specs::Programs::Programs::need_numbers))]
fn need_numbers(
    alloc: Global,
    host: &Host,
    program: &str,
    keys: &[(Text, Text)],
    parts: &[Part],
) -> Result<bool, AllocError>
    ensures { IfOk result (λ need. need ≡ need_numbers host.now program.now keys.now parts.now) }
{
    let mut left = parts;
    while let [part, rest @ ..] = left {
        let group = part.group.name.as_str();
        let count = part.group.members.as_slice().len();
        if needs_number(alloc, host, program, keys, group, count)? {
            return Ok(true);
        }
        left = rest;
    }
    Ok(false)
}

#[tactic(auto, unfolding(crate::specs::Programs::Programs::program_parts))]
fn program_parts(
    alloc: Global,
    host: &Host,
    common: &Common,
    listener: bool,
    title: &str,
    program: &str,
    keys: &[(Text, Text)],
    homes: &[Home],
) -> Result<Items<Part>, ConfFault>
    ensures value { IfOk result (λ value.
        program_parts host.now common.now listener title.now program.now keys.now homes.now
        ≡ Ok value) }
    ensures fault { IfErr result (λ fault.
        IsFault fault
        (program_parts host.now common.now listener title.now program.now keys.now homes.now)) }
{
    check_name(alloc, title, program)?;
    must_have(alloc, title, Key::Command, keys)?;
    if listener {
        must_have(alloc, title, Key::Events, keys)?;
    }
    let parts = parts_in(alloc, host, common, listener, title, program, keys, homes)?;
    numbered(alloc, host, title, program, keys, parts)
}

#[tactic(auto, unfolding(crate::specs::Programs::Programs::parts_at))]
fn parts_at(
    alloc: Global,
    host: &Host,
    common: &Common,
    named: &NamedGroups,
    place: usize,
    section: &Section,
) -> Result<Items<Part>, ConfFault>
    ensures value { IfOk result (λ value.
        parts_at host.now common.now named.now place section.now ≡ Ok value) }
    ensures fault { IfErr result (λ fault.
        IsFault fault (parts_at host.now common.now named.now place section.now)) }
{
    let title = section.name.as_str();
    let keys = section.keys.as_slice();
    if let Some(program) = titled("program", title) {
        let homes = homes_of(alloc, place, program, named)?;
        let homes = homes.as_slice();
        return program_parts(alloc, host, common, false, title, program, keys, homes);
    }
    if let Some(listener) = titled("eventlistener", title) {
        let homes = own_home(alloc, place, listener)?;
        let homes = homes.as_slice();
        return program_parts(alloc, host, common, true, title, listener, keys, homes);
    }
    Ok(Items::new(alloc))
}

/// The parts of each group, at the place of the section that makes it.
#[tactic(auto, unfolding(crate::specs::Programs::Programs::all_parts))]
pub fn all_parts(
    alloc: Global,
    host: &Host,
    common: &Common,
    sections: &[Section],
) -> Result<Items<Items<GroupSpec>>, ConfFault>
    ensures value { IfOk result (λ value. all_parts host.now common.now sections.now ≡ Ok value) }
    ensures fault { IfErr result (λ fault.
        IsFault fault (all_parts host.now common.now sections.now)) }
{
    let named = all_named(alloc, host, sections)?;
    let mut parts = no_parts(alloc, sections)?;
    let mut place = 0;
    let mut left = sections;
    while let [section, rest @ ..] = left {
        let more = parts_at(alloc, host, common, &named, place, section)?;
        put_parts(&mut parts, more)?;
        place += 1;
        left = rest;
    }
    Ok(Items::from_vec(parts))
}

/// No parts yet for each section.
pub fn no_parts(alloc: Global, sections: &[Section]) -> Result<Vec<Items<GroupSpec>>, AllocError>
    ensures { IfOk result (λ parts. parts.items ≡ map no_parts sections.now) }
{
    let mut parts = Vec::new(alloc);
    let mut left = sections;
    while let [_, rest @ ..] = left {
        parts.push(Items::new(alloc))?;
        left = rest;
    }
    Ok(parts)
}
