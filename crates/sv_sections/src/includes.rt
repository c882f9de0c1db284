//! Which files a configuration includes.

ghost use Rattle.std.specs.Prelude.{◌≡◌, ◌++◌, [], Ok, IfOk, IfErr, List, ℕ, map, codes, Option};
ghost use Rattle.std.specs.Prelude.{Some, None};
ghost use Rattle.std.specs.List.{find};
ghost use Rattle.std.specs.Option.{option_map};
ghost use Rattle.std.specs.Str.{bytes_eq};
ghost use Rattle.sv_sections.specs.FaultTexts.{IsFault};
ghost use Rattle.sv_sections.specs.Includes.{sections_in, section_named, begins_with_slash};
ghost use Rattle.sv_sections.specs.Includes.{slash_behind, joined, patterns_in, patterns_of};
ghost use Rattle.sv_sections.specs.Includes.{includes_of};
ghost use Rattle.sv_sections.specs.SectionFaults.{or_section_fault};
ghost use Rattle.sv_keys.specs.Rows.{value_at};
ghost use Rattle.sv_keys.specs.declared.key.Key.TheVariants.{Files};
ghost use Rattle.sv_ini.specs.declared.section.Section.{Section};

use crate::fault::ConfFault;
use crate::section_faults::section_fault;
use std::alloc::{AllocError, Global};
use sv_base::config::Host;
use sv_base::items::Items;
use sv_base::text::Text;
use sv_expand::names::Names;
use sv_ini::fault::IniFault;
use sv_ini::section::Section;
use sv_ini::sections::sections;
use sv_keys::judged::Unread;
use sv_keys::key::Key;
use sv_keys::rows::value_at;
use sv_keys::{cuts, names};

/// The patterns of the files that a configuration text includes: those of its `include` section, expanded, in order,
/// a relative one joined to the directory of the configuration file. Refused as `Ini` where the text has no sections,
/// as `Missing` where the section has no `files`, as `Expand` where they can't be expanded.
#[tactic(auto, unfolding(crate::specs::Includes::includes_of))]
pub fn includes(alloc: Global, main: &[u8], host: &Host) -> Result<Vec<Text>, ConfFault>
    ensures patterns { IfOk result (λ patterns. includes_of main.now host.now ≡ Ok patterns.items) }
    ensures fault { IfErr result (λ fault. IsFault fault (includes_of main.now host.now)) }
{
    let sections = sections_in(alloc, main)?;
    let patterns = patterns_of(alloc, host, section_named("include", sections.as_slice()))?;
    Ok(patterns.into_vec())
}

/// The sections of a text.
#[tactic(auto, unfolding(crate::specs::Includes::sections_in))]
pub fn sections_in(alloc: Global, text: &[u8]) -> Result<Items<Section>, ConfFault>
    ensures value { IfOk result (λ value. sections_in text.now ≡ Ok value) }
    ensures fault { IfErr result (λ fault. IsFault fault (sections_in text.now)) }
{
    match sections(alloc, text) {
        Ok(sections) => Ok(Items::from_vec(sections)),
        Err(IniFault::OutOfMemory) => Err(ConfFault::OutOfMemory),
        Err(IniFault::TooLong) => Err(ConfFault::Ini(IniFault::TooLong)),
        Err(IniFault::NotUtf8(place)) => Err(ConfFault::Ini(IniFault::NotUtf8(place))),
        Err(IniFault::BadLine(line)) => Err(ConfFault::Ini(IniFault::BadLine(line))),
        Err(IniFault::OutsideSection(line)) => Err(ConfFault::Ini(IniFault::OutsideSection(line))),
    }
}

/// The section of this name.
pub fn section_named<'a>(name: &str, sections: &'a [Section]) -> Option<&'a Section>
    ensures { option_map (λ x. x.now) result ≡ section_named name.now sections.now }
{
    let mut left = sections;
    while let [section, rest @ ..] = left {
        if section.name.as_str() == name {
            return Some(section);
        }
        left = rest;
    }
    None
}

/// The patterns of an include section.
#[tactic(auto, unfolding(crate::specs::Includes::patterns_of))]
pub fn patterns_of(
    alloc: Global,
    host: &Host,
    section: Option<&Section>,
) -> Result<Items<Text>, ConfFault>
    ensures value { IfOk result (λ value.
        patterns_of host.now (option_map (λ x. x.now) section.entry) ≡ Ok value) }
    ensures fault { IfErr result (λ fault.
        IsFault fault (patterns_of host.now (option_map (λ x. x.now) section.entry))) }
{
    match section {
        Some(section) => {
            let names = names::host_names(alloc, host)?;
            let files = files_in(alloc, "include", section.keys.as_slice(), &names)?;
            patterns_in(alloc, host, files)
        }
        None => Ok(Items::new(alloc)),
    }
}

/// The value of `files`, where it is set.
fn files_in(
    alloc: Global,
    title: &str,
    keys: &[(Text, Text)],
    names: &Names,
) -> Result<Option<Text>, ConfFault>
    ensures value { IfOk result (λ value.
        or_section_fault title.now (value_at Files keys.now names.now) ≡ Ok value) }
    ensures fault { IfErr result (λ fault.
        IsFault fault (or_section_fault title.now (value_at Files keys.now names.now))) }
{
    match value_at(alloc, Key::Files, keys, names) {
        Ok(value) => Ok(value),
        Err(Unread::Faulty(fault)) => Err(section_fault(alloc, title, fault)?),
        Err(Unread::OutOfMemory) => Err(ConfFault::OutOfMemory),
    }
}

fn patterns_in(alloc: Global, host: &Host, files: Option<Text>) -> Result<Items<Text>, ConfFault>
    ensures value { IfOk result (λ value. patterns_in host.now files ≡ Ok value) }
    ensures fault { IfErr result (λ fault. IsFault fault (patterns_in host.now files)) }
{
    match files {
        None => Err(ConfFault::Missing(Text::fixed("include"), Text::fixed(Key::Files.name()))),
        Some(text) => {
            let parts = cuts::gaps_in(alloc, text.as_str())?;
            Ok(all_joined(alloc, host.here.as_str(), parts.as_slice())?)
        }
    }
}

fn all_joined(alloc: Global, here: &str, patterns: &[Text]) -> Result<Items<Text>, AllocError>
    ensures { IfOk result (λ texts. texts ≡ map (joined here.now) patterns.now) }
{
    let mut texts = Items::new(alloc);
    let mut left = patterns;
    while let [pattern, rest @ ..] = left {
        texts.push(joined(alloc, here, pattern.as_str())?)?;
        left = rest;
    }
    Ok(texts)
}

fn joined(alloc: Global, here: &str, pattern: &str) -> Result<Text, AllocError>
    ensures { IfOk result (λ text. text ≡ joined here.now pattern.now) }
{
    if begins_with_slash(pattern.as_bytes()) {
        return Text::from_str(alloc, pattern);
    }
    let slash = slash_behind(here.as_bytes());
    Ok(Text::from_string(format!(in alloc; "{here}{slash}{pattern}")?))
}

fn begins_with_slash(bytes: &[u8]) -> bool
    ensures { result ≡ begins_with_slash bytes.now }
{
    match bytes {
        [first, ..] => *first == b'/',
        [] => false,
    }
}

/// What a path to a directory needs before a further name.
fn slash_behind(here: &[u8]) -> &'static str
    ensures { result.now ≡ slash_behind here.now }
{
    match here {
        [.., last] if *last != b'/' => "/",
        _ => "",
    }
}
