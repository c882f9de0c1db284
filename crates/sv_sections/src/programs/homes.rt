//! Which groups the processes of a section belong to.

ghost use Rattle.std.specs.Prelude.{◌≡◌, ◌++◌, ◌+◌, ◌≤◌, IfOk, OnOk, length};
ghost use Rattle.sv_sections.specs.Programs.Homes.{named_by, named_in, all_named, homes_in, homes_from};
ghost use Rattle.sv_sections.specs.Programs.Homes.{own_home, or_own, homes_of, with_part, with_parts};
ghost use Rattle.sv_sections.specs.Programs.HomesByName.{AddsHome, AddsHomes, HasHomes};
ghost use Rattle.std.specs.Option.{option_map};
ghost use Rattle.std.specs.Prelude.{[], ◌∷◌, ℕ};
ghost use Rattle.sv_keys.specs.KeyTable.{or_default};
ghost use Rattle.sv_keys.specs.Rows.{needed};
ghost use Rattle.sv_keys.specs.Values.{programs_of};
ghost use Rattle.sv_keys.specs.declared.key.Key.TheVariants as key;

use std::alloc::{AllocError, Global};
use std::collections::HashMap;
use std::marker::Model;
use sv_base::config::Host;
use sv_base::items::Items;
use sv_base::spec::GroupSpec;
use sv_base::text::Text;
use sv_expand::names::Names;
use sv_ini::section::Section;
use sv_keys::judged::Unread;
use sv_keys::key::Key;
use sv_keys::names;
use sv_keys::rows::needed;
use sv_keys::titles::titled;
use sv_keys::values::Programs;

/// What a section names as a group; nothing where it isn't one.
#[derive(Drop)]
pub struct Named {
    pub group: Text,
    pub programs: Items<Text>,
}

/// A group that a program belongs to: the place of the section that makes it, and its name.
#[derive(Drop)]
pub struct Home {
    pub place: usize,
    pub group: Text,
}

/// The groups of each program that a group names, by the name of the program.
pub type HomesByName = HashMap<String, Vec<Home>>;

/// What each section names as a group, with the groups of each program.
#[derive(Drop)]
pub struct NamedGroups {
    named: Items<Named>,
    homes: HomesByName,
}

impl Model for NamedGroups {
    ghost use Rattle.std.specs.Prelude.{List};
    ghost use Rattle.sv_sections.specs.declared.programs.homes.Named.{Named};
    ghost use Rattle.sv_sections.specs.Programs.HomesByName.{HasHomes};

    ghost Value = { List Named };

    ghost view = { λ g. g.named };

    ghost invariant = { λ g. HasHomes g.homes g.named };
}

impl NamedGroups {
    /// The groups that name this program.
    fn homes(&self, program: &str) -> &[Home]
        ensures { result.now ≡ homes_from 0 program.now self.now }
    {
        match self.homes.get(program) {
            Some(homes) => homes.as_slice(),
            None => &[],
        }
    }
}

/// The processes of a section in a group, and the place of the section that makes the group.
#[derive(Drop)]
pub struct Part {
    pub place: usize,
    pub group: GroupSpec,
}

fn named_by(alloc: Global, group: Option<&str>, programs: Items<Text>) -> Result<Named, AllocError>
    ensures { IfOk result (λ named.
        named ≡ named_by (option_map (λ x. x.now) group.entry) programs) }
{
    match group {
        None => Ok(Named {
            group: Text::fixed(""),
            programs: Items::new(alloc),
        }),
        Some(group) => Ok(Named {
            group: Text::from_str(alloc, group)?,
            programs,
        }),
    }
}

/// The programs that a section names, none where its list is faulty.
fn programs_in(
    alloc: Global,
    keys: &[(Text, Text)],
    names: &Names,
) -> Result<Items<Text>, AllocError>
    ensures { IfOk result (λ programs.
        programs ≡ or_default [] (needed key.Programs programs_of keys.now names.now)) }
{
    match needed::<Programs>(alloc, Key::Programs, keys, names) {
        Ok(programs) => Ok(programs),
        Err(Unread::Faulty(_)) => Ok(Items::new(alloc)),
        Err(Unread::OutOfMemory) => Err(AllocError),
    }
}

#[tactic(auto, unfolding(crate::specs::Programs::Homes::named_in))]
fn named_in(alloc: Global, names: &Names, section: &Section) -> Result<Named, AllocError>
    ensures { IfOk result (λ named. named ≡ named_in names.now section.now) }
{
    let programs = programs_in(alloc, section.keys.as_slice(), names)?;
    named_by(alloc, titled("group", section.name.as_str()), programs)
}

/// What each of these sections names as a group.
pub fn all_named(
    alloc: Global,
    host: &Host,
    sections: &[Section],
) -> Result<NamedGroups, AllocError>
    ensures { IfOk result (λ named. named ≡ all_named host.now sections.now) }
{
    let named = named_in_each(alloc, host, sections)?;
    let homes = homes_by_name(alloc, named.as_slice())?;
    Ok(NamedGroups { named, homes })
}

#[tactic(auto, unfolding(crate::specs::Programs::Homes::all_named))]
fn named_in_each(
    alloc: Global,
    host: &Host,
    sections: &[Section],
) -> Result<Items<Named>, AllocError>
    ensures { IfOk result (λ named. named ≡ all_named host.now sections.now) }
{
    let names = names::host_names(alloc, host)?;
    let mut named = Items::new(alloc);
    let mut left = sections;
    while let [section, rest @ ..] = left {
        named.push(named_in(alloc, &names, section)?)?;
        left = rest;
    }
    Ok(named)
}

fn homes_by_name(alloc: Global, named: &[Named]) -> Result<HomesByName, AllocError>
    ensures { IfOk result (λ homes. HasHomes homes named.now) }
{
    let mut homes = HashMap::new(alloc);
    let mut place = 0;
    let mut left = named;
    while let [one, rest @ ..] = left {
        add_homes(alloc, &mut homes, place, one)?;
        place += 1;
        left = rest;
    }
    Ok(homes)
}

/// Adds a group to those of each program that it names.
fn add_homes(
    alloc: Global,
    homes: &mut HomesByName,
    place: usize,
    named: &Named,
) -> Result<(), AllocError>
    ensures { OnOk result (AddsHomes homes.old homes.new place named.now.group named.now.programs) }
{
    let mut left = named.programs.as_slice();
    while let [program, rest @ ..] = left {
        let home = Home {
            place,
            group: named.group.clone()?,
        };
        add_home(alloc, homes, program.as_str(), home)?;
        left = rest;
    }
    Ok(())
}

fn add_home(
    alloc: Global,
    homes: &mut HomesByName,
    program: &str,
    home: Home,
) -> Result<(), AllocError>
    ensures { OnOk result (AddsHome homes.old homes.new program.now home) }
{
    let program = String::from_str(alloc, program)?;
    homes.entry(program)?.or_default().push(home)?;
    Ok(())
}

/// The groups of the program whose section has this place.
#[tactic(auto, unfolding(crate::specs::Programs::Homes::homes_of))]
pub fn homes_of(
    alloc: Global,
    place: usize,
    program: &str,
    named: &NamedGroups,
) -> Result<Items<Home>, AllocError>
    ensures { IfOk result (λ homes. homes ≡ homes_of place program.now named.now) }
{
    let homes = named.homes(program);
    if homes.is_empty() {
        return own_home(alloc, place, program);
    }
    copied(alloc, homes)
}

/// How many groups a program has, wherever its section stands.
#[tactic(auto, unfolding(crate::specs::Programs::Homes::homes_of))]
pub fn count_homes(program: &str, named: &NamedGroups) -> usize
    ensures { (place : ℕ) → result ≡ length (homes_of place program.now named.now) }
{
    let homes = named.homes(program);
    if homes.is_empty() { 1 } else { homes.len() }
}

fn copied(alloc: Global, homes: &[Home]) -> Result<Items<Home>, AllocError>
    ensures { IfOk result (λ copy. copy ≡ homes.now) }
{
    let mut copy = Items::new(alloc);
    let mut left = homes;
    while let [home, rest @ ..] = left {
        copy.push(Home {
            place: home.place,
            group: home.group.clone()?,
        })?;
        left = rest;
    }
    Ok(copy)
}

/// The group that a section makes for itself alone.
pub fn own_home(alloc: Global, place: usize, program: &str) -> Result<Items<Home>, AllocError>
    ensures { IfOk result (λ homes. homes ≡ own_home place program.now ∷ []) }
{
    let mut homes = Items::new(alloc);
    homes.push(Home {
        place,
        group: Text::from_str(alloc, program)?,
    })?;
    Ok(homes)
}

/// Adds parts to those of their groups.
#[tactic(auto, using(crate::proofs::ProgramsLemmas::Folds::parts_more))]
pub fn put_parts(parts: &mut Vec<Items<GroupSpec>>, more: Items<Part>) -> Result<(), AllocError>
    ensures { OnOk result (parts.new.items ≡ with_parts parts.old.items more) }
{
    for part in more.into_vec() {
        put_part(parts, part)?;
    }
    Ok(())
}

fn put_part(parts: &mut Vec<Items<GroupSpec>>, part: Part) -> Result<(), AllocError>
    ensures { OnOk result (parts.new.items ≡ with_part parts.old.items part) }
{
    if part.place < parts.as_slice().len() {
        let there = &mut parts[part.place];
        there.push(part.group)?;
    }
    Ok(())
}
