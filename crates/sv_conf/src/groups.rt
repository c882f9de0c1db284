//! The groups of a configuration, each name once, in start order.

ghost use Rattle.std.specs.Prelude.{◌≡◌, ◌++◌, [], Ok, true, false, IfOk, IfErr, OnOk};
ghost use Rattle.std.specs.Prelude.{map, codes};
ghost use Rattle.sv_sections.specs.FaultTexts.{IsFault};
ghost use Rattle.sv_sections.specs.SectionFaults.{or_section_fault};
ghost use Rattle.sv_keys.specs.KeyTable.{priority};
ghost use Rattle.sv_keys.specs.Rows.{needed};
ghost use Rattle.sv_keys.specs.Values.{programs_of};
ghost use Rattle.sv_keys.specs.declared.key.Key.TheVariants as key;
ghost use Rattle.sv_keys.specs.ProgramNames.{titled};
ghost use Rattle.std.specs.List.{find};
ghost use Rattle.sv_conf.specs.Titles.{has_title, HasTitles};
ghost use Rattle.sv_conf.specs.Configuration.{is_program, is_missing, missing_in, members_of};
ghost use Rattle.sv_conf.specs.Configuration.{group_at, groups_by, groups_from, all_groups};
ghost use Rattle.sv_conf.specs.Configuration.{each_once};
ghost use Rattle.sv_conf.specs.Configuration.{sorted_members, with_sorted, sorted_groups};

use crate::duplicates::{add_name, first_twice};
use std::alloc::{AllocError, Global};
use std::collections::HashSet;
use std::marker::Model;
use std::mem;
use sv_base::config::Host;
use sv_base::items::Items;
use sv_base::spec::{GroupSpec, Spec};
use sv_base::text::Text;
use sv_expand::names::Names;
use sv_ini::section::Section;
use sv_keys::judged::Unread;
use sv_keys::key::Key;
use sv_keys::names;
use sv_keys::rows::needed;
use sv_keys::table::priority;
use sv_keys::titles::titled;
use sv_keys::values::Programs;
use sv_ranks::sorted;
use sv_sections::fault::ConfFault;
use sv_sections::section_faults::{check_name, must_have, section_fault};

/// The sections of all texts, with their titles.
#[derive(Drop)]
pub struct Titled<'a> {
    sections: &'a [Section],
    titles: HashSet<String>,
}

impl<'a> Model for Titled<'a> {
    ghost use Rattle.std.specs.Prelude.{List};
    ghost use Rattle.sv_ini.specs.declared.section.Section.{Section};
    ghost use Rattle.sv_conf.specs.Titles.{HasTitles};

    ghost Value = { List Section };

    ghost view = { λ t. t.sections.now };

    ghost invariant = { λ t. HasTitles t.titles t.sections.now };
}

impl<'a> Titled<'a> {
    fn new(alloc: Global, sections: &'a [Section]) -> Result<Titled<'a>, AllocError>
        ensures { IfOk result (λ titled. titled ≡ sections.now) }
    {
        let titles = titles_of(alloc, sections)?;
        Ok(Titled { sections, titles })
    }

    /// Whether a section has this title.
    fn has(&self, title: &str) -> bool
        ensures { result ≡ has_title title.now self.now }
    {
        self.titles.contains(title)
    }
}

fn titles_of(alloc: Global, sections: &[Section]) -> Result<HashSet<String>, AllocError>
    ensures { IfOk result (λ titles. HasTitles titles sections.now) }
{
    let mut titles = HashSet::new(alloc);
    let mut left = sections;
    while let [section, rest @ ..] = left {
        add_name(alloc, &mut titles, section.name.as_str())?;
        left = rest;
    }
    Ok(titles)
}

fn is_program(alloc: Global, sections: &Titled, program: &str) -> Result<bool, AllocError>
    ensures { IfOk result (λ found. found ≡ is_program sections.now program.now) }
{
    let title = format!(in alloc; "program:{program}")?;
    Ok(sections.has(title.as_str()))
}

fn missing_in(
    alloc: Global,
    sections: &Titled,
    group: &str,
    programs: &[Text],
) -> Result<(), ConfFault>
    ensures good { IfOk result (λ _.
        missing_in group.now (find (is_missing sections.now) programs.now) ≡ Ok true) }
    ensures fault { IfErr result (λ fault.
        IsFault fault (missing_in group.now (find (is_missing sections.now) programs.now))) }
{
    let mut left = programs;
    while let [program, rest @ ..] = left {
        if !is_program(alloc, sections, program.as_str())? {
            return Err(ConfFault::NoSuchProgram(Text::from_str(alloc, group)?, program.clone()?));
        }
        left = rest;
    }
    Ok(())
}

fn members_of(alloc: Global, parts: Items<GroupSpec>) -> Result<Items<Spec>, AllocError>
    ensures { IfOk result (λ members. members ≡ members_of parts) }
{
    let mut members = Items::new(alloc);
    for part in parts.into_vec() {
        let mut part = part;
        add_members(
            &mut members,
            mem::replace(&mut part.members, Items::new(alloc)),
        )?;
    }
    Ok(members)
}

fn add_members(members: &mut Items<Spec>, more: Items<Spec>) -> Result<(), AllocError>
    ensures { OnOk result (members.new ≡ members.old ++ more) }
{
    for member in more.into_vec() {
        members.push(member)?;
    }
    Ok(())
}

/// The programs that a group names.
fn programs_in(
    alloc: Global,
    title: &str,
    keys: &[(Text, Text)],
    names: &Names,
) -> Result<Items<Text>, ConfFault>
    ensures value { IfOk result (λ value.
        or_section_fault title.now (needed key.Programs programs_of keys.now names.now)
        ≡ Ok value) }
    ensures fault { IfErr result (λ fault.
        IsFault fault
        (or_section_fault title.now (needed key.Programs programs_of keys.now names.now))) }
{
    match needed::<Programs>(alloc, Key::Programs, keys, names) {
        Ok(value) => Ok(value),
        Err(Unread::Faulty(fault)) => Err(section_fault(alloc, title, fault)?),
        Err(Unread::OutOfMemory) => Err(ConfFault::OutOfMemory),
    }
}

/// The priority of a group.
fn priority_in(
    alloc: Global,
    title: &str,
    keys: &[(Text, Text)],
    names: &Names,
) -> Result<i32, ConfFault>
    ensures value { IfOk result (λ value.
        or_section_fault title.now (priority false keys.now names.now) ≡ Ok value) }
    ensures fault { IfErr result (λ fault.
        IsFault fault (or_section_fault title.now (priority false keys.now names.now))) }
{
    match priority(alloc, false, keys, names) {
        Ok(value) => Ok(value),
        Err(Unread::Faulty(fault)) => Err(section_fault(alloc, title, fault)?),
        Err(Unread::OutOfMemory) => Err(ConfFault::OutOfMemory),
    }
}

#[tactic(auto, unfolding(crate::specs::Configuration::group_at))]
fn group_at(
    alloc: Global,
    sections: &Titled,
    names: &Names,
    title: &str,
    group: &str,
    keys: &[(Text, Text)],
    parts: Items<GroupSpec>,
) -> Result<GroupSpec, ConfFault>
    ensures value { IfOk result (λ value.
        group_at sections.now names.now title.now group.now keys.now parts ≡ Ok value) }
    ensures fault { IfErr result (λ fault.
        IsFault fault (group_at sections.now names.now title.now group.now keys.now parts)) }
{
    must_have(alloc, title, Key::Programs, keys)?;
    check_name(alloc, title, group)?;
    let programs = programs_in(alloc, title, keys, names)?;
    let priority = priority_in(alloc, title, keys, names)?;
    missing_in(alloc, sections, group, programs.as_slice())?;
    Ok(GroupSpec {
        name: Text::from_str(alloc, group)?,
        priority,
        members: members_of(alloc, parts)?,
        pool: None,
    })
}

/// The groups that a section makes, after those of the sections before it.
#[tactic(auto, unfolding(crate::specs::Configuration::groups_by))]
fn groups_by(
    alloc: Global,
    sections: &Titled,
    names: &Names,
    section: &Section,
    parts: Items<GroupSpec>,
) -> Result<Items<GroupSpec>, ConfFault>
    ensures value { IfOk result (λ value.
        groups_by sections.now names.now section.now parts (titled (codes "group") section.now.name)
        ≡ Ok value) }
    ensures fault { IfErr result (λ fault.
        IsFault fault
        (groups_by sections.now names.now section.now parts
        (titled (codes "group") section.now.name))) }
{
    let title = section.name.as_str();
    let keys = section.keys.as_slice();
    match titled("group", title) {
        None => Ok(parts),
        Some(group) => {
            let mut groups = Items::new(alloc);
            groups.push(group_at(alloc, sections, names, title, group, keys, parts)?)?;
            Ok(groups)
        }
    }
}

/// The groups that the sections make, in their order.
#[tactic(auto, unfolding(crate::specs::Configuration::all_groups))]
pub fn all_groups(
    alloc: Global,
    host: &Host,
    sections: &[Section],
    parts: Items<Items<GroupSpec>>,
) -> Result<Items<GroupSpec>, ConfFault>
    ensures value { IfOk result (λ value. all_groups host.now sections.now parts ≡ Ok value) }
    ensures fault { IfErr result (λ fault. IsFault fault (all_groups host.now sections.now parts)) }
{
    let names = names::host_names(alloc, host)?;
    let titled = Titled::new(alloc, sections)?;
    let mut groups = Items::new(alloc);
    let mut there = parts.into_vec().into_iter();
    let mut left = sections;
    while let [section, rest @ ..] = left {
        let Some(part) = there.next() else {
            return Ok(groups);
        };
        add_groups(
            &mut groups,
            groups_by(alloc, &titled, &names, section, part)?,
        )?;
        left = rest;
    }
    Ok(groups)
}

fn add_groups(groups: &mut Items<GroupSpec>, more: Items<GroupSpec>) -> Result<(), AllocError>
    ensures { OnOk result (groups.new ≡ groups.old ++ more) }
{
    for group in more.into_vec() {
        groups.push(group)?;
    }
    Ok(())
}

/// Nothing where each name stands once, else the first duplicate as a fault.
pub fn each_once(alloc: Global, groups: &[GroupSpec]) -> Result<(), ConfFault>
    ensures good { IfOk result (λ _. each_once [] groups.now ≡ Ok true) }
    ensures fault { IfErr result (λ fault. IsFault fault (each_once [] groups.now)) }
{
    let mut names = HashSet::new(alloc);
    let mut place: usize = 0;
    let mut left = groups;
    while let [group, rest @ ..] = left {
        let name = group.name.as_str();
        if names.contains(name) {
            return Err(ConfFault::TwiceNamed(group.name.clone()?));
        }
        if let Some(name) = first_twice(alloc, group.members.as_slice())? {
            return Err(ConfFault::TwiceNamed(name.clone()?));
        }
        add_name(alloc, &mut names, name)?;
        place += 1;
        left = rest;
    }
    Ok(())
}

#[tactic(auto, unfolding(crate::specs::Configuration::with_sorted))]
fn with_sorted(alloc: Global, group: GroupSpec) -> Result<GroupSpec, AllocError>
    ensures { IfOk result (λ made. made ≡ with_sorted group) }
{
    let mut group = group;
    let members = mem::replace(&mut group.members, Items::new(alloc));
    group.members = Items::from_vec(sorted(members)?);
    Ok(group)
}

/// The groups in start order, each with its members in start order.
#[tactic(auto, unfolding(crate::specs::Configuration::sorted_groups))]
pub fn sorted_groups(alloc: Global, groups: Items<GroupSpec>) -> Result<Vec<GroupSpec>, AllocError>
    ensures { IfOk result (λ sorted. sorted.items ≡ sorted_groups groups) }
{
    let mut made = Items::new(alloc);
    for group in groups.into_vec() {
        made.push(with_sorted(alloc, group)?)?;
    }
    sorted(made)
}
