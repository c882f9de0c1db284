//! The configuration of a text and of the texts that it includes.

ghost use Rattle.std.specs.Prelude.{◌≡◌, Ok, IfOk, IfErr};
ghost use Rattle.std.specs.List.{list_any};
ghost use Rattle.std.specs.Str.{bytes_eq};
ghost use Rattle.sv_conf.specs.Configuration.{has_rpc, with_groups, config_of, of_groups, of_parts};
ghost use Rattle.sv_conf.specs.Configuration.{of_sections, configuration_of};
ghost use Rattle.sv_conf.specs.Crowded.{are_single, judged_crowd, built, of_others};
ghost use Rattle.sv_conf.specs.Crowds.{crowd_of};
ghost use Rattle.sv_conf.specs.Emptied.{mapped};
ghost use Rattle.sv_sections.specs.Programs.Programs.{all_parts};
ghost use Rattle.sv_sections.specs.FaultTexts.{IsFault};

use crate::crowd::Crowd;
use crate::groups::{all_groups, each_once, sorted_groups};
use crate::{count_all, is_crowded};
use std::alloc::Global;
use sv_base::bytes::Bytes;
use sv_base::config::{Config, Host};
use sv_base::groups::Groups;
use sv_base::items::Items;
use sv_base::spec::GroupSpec;
use sv_base::text::Text;
use sv_ini::section::Section;
use sv_keys::server_keys::Daemon;
use sv_sections::fault::ConfFault;
use sv_sections::includes::{patterns_of, section_named, sections_in};
use sv_sections::programs::all_parts;
use sv_sections::sections::{all_supported, with_included};
use sv_sections::server::{Common, Others, common_of, others_of};

/// The configuration that a text tells, with the texts that it includes, each with the name of its file, on a host.
/// Refused with the first fault: the text itself, its `include` section, the included texts, sections that aren't
/// supported, programs and listeners, servers and the daemon's and client's sections, groups, duplicate names,
/// too many groups or processes.
#[tactic(auto, unfolding(crate::specs::Configuration::configuration_of))]
pub fn config(
    alloc: Global,
    main: &[u8],
    included: &[(Text, Bytes)],
    host: &Host,
) -> Result<Config, ConfFault>
    ensures config { IfOk result (λ config.
        configuration_of main.now included.now host.now ≡ Ok config) }
    ensures fault { IfErr result (λ fault.
        IsFault fault (configuration_of main.now included.now host.now)) }
{
    let sections = sections_in(alloc, main)?;
    let _patterns = patterns_of(alloc, host, section_named("include", sections.as_slice()))?;
    let all = with_included(alloc, sections, included)?;
    of_sections(alloc, host, all.as_slice())
}

#[tactic(auto, unfolding(crate::specs::Configuration::of_sections, crate::specs::Crowded::of_others))]
fn of_sections(alloc: Global, host: &Host, sections: &[Section]) -> Result<Config, ConfFault>
    ensures value { IfOk result (λ value. of_sections host.now sections.now ≡ Ok value) }
    ensures fault { IfErr result (λ fault. IsFault fault (of_sections host.now sections.now)) }
{
    all_supported(sections)?;
    let others = others_of(alloc, host, sections)?;
    let common = common_of(alloc, &others)?;
    if is_crowded(alloc, host, sections)? {
        return of_crowded(alloc, host, &common, sections, others);
    }
    of_others(alloc, host, &common, sections, others)
}

/// From the processes on, with what the daemon's sections and its servers' were read as.
#[tactic(auto, unfolding(crate::specs::Crowded::of_others))]
fn of_others(
    alloc: Global,
    host: &Host,
    common: &Common,
    sections: &[Section],
    others: Result<Others, ConfFault>,
) -> Result<Config, ConfFault>
    ensures value { IfOk result (λ value.
        of_others host.now common.now sections.now others ≡ Ok value) }
    ensures fault { IfErr result (λ fault.
        IsFault fault (of_others host.now common.now sections.now others)) }
{
    let parts = all_parts(alloc, host, common, sections)?;
    of_parts(alloc, host, sections, others?, parts)
}

/// The same, where more processes are promised than there may be.
#[tactic(auto, unfolding(crate::specs::Crowded::of_others, crate::specs::Crowded::built))]
fn of_crowded(
    alloc: Global,
    host: &Host,
    common: &Common,
    sections: &[Section],
    others: Result<Others, ConfFault>,
) -> Result<Config, ConfFault>
    ensures value { IfOk result (λ value.
        of_others host.now common.now sections.now others ≡ Ok value) }
    ensures fault { IfErr result (λ fault.
        IsFault fault (of_others host.now common.now sections.now others)) }
{
    let crowd = count_all(alloc, host, common, sections)?;
    of_crowd(alloc, host, common, sections, others?, crowd)
}

/// Where more processes are promised than there may be: they are built only where they aren't refused by what is known
/// of them.
#[tactic(auto, using(crate::proofs::Crowded::refused_so))]
fn of_crowd(
    alloc: Global,
    host: &Host,
    common: &Common,
    sections: &[Section],
    others: Others,
    crowd: Crowd,
) -> Result<Config, ConfFault>
    requires { mapped crowd_of (all_parts host.now common.now sections.now) ≡ Ok crowd }
    ensures value { IfOk result (λ value.
        built host.now common.now sections.now others ≡ Ok value) }
    ensures fault { IfErr result (λ fault.
        IsFault fault (built host.now common.now sections.now others)) }
{
    if are_single(crowd.parts.as_slice()) {
        judged_crowd(alloc, host, sections, crowd)?;
    }
    built(alloc, host, common, sections, others)
}

fn are_single(parts: &[Items<GroupSpec>]) -> bool
    ensures { result ≡ are_single parts.now }
{
    parts.iter().all(|group| group.as_slice().len() <= 1)
}

#[tactic(auto, unfolding(crate::specs::Crowded::judged_crowd))]
fn judged_crowd(
    alloc: Global,
    host: &Host,
    sections: &[Section],
    crowd: Crowd,
) -> Result<(), ConfFault>
    ensures fault { IfErr result (λ fault.
        IsFault fault (judged_crowd host.now sections.now crowd)) }
{
    let groups = all_groups(alloc, host, sections, crowd.parts)?;
    let groups = groups.as_slice();
    each_once(alloc, groups)?;
    if groups.len() > 256 || crowd.room == 0 {
        return Err(ConfFault::TooMany);
    }
    Ok(())
}

#[tactic(auto, unfolding(crate::specs::Crowded::built))]
fn built(
    alloc: Global,
    host: &Host,
    common: &Common,
    sections: &[Section],
    others: Others,
) -> Result<Config, ConfFault>
    ensures value { IfOk result (λ value.
        built host.now common.now sections.now others ≡ Ok value) }
    ensures fault { IfErr result (λ fault.
        IsFault fault (built host.now common.now sections.now others)) }
{
    let parts = all_parts(alloc, host, common, sections)?;
    of_parts(alloc, host, sections, others, parts)
}

#[tactic(auto, unfolding(crate::specs::Configuration::of_parts))]
fn of_parts(
    alloc: Global,
    host: &Host,
    sections: &[Section],
    others: Others,
    parts: Items<Items<GroupSpec>>,
) -> Result<Config, ConfFault>
    ensures value { IfOk result (λ value. of_parts host.now sections.now others parts ≡ Ok value) }
    ensures fault { IfErr result (λ fault.
        IsFault fault (of_parts host.now sections.now others parts)) }
{
    let groups = all_groups(alloc, host, sections, parts)?;
    of_groups(alloc, others, has_rpc(sections), groups)
}

fn has_rpc(sections: &[Section]) -> bool
    ensures { result ≡ has_rpc sections.now }
{
    sections.iter().any(|section| section.name.as_str() == "rpcinterface:supervisor")
}

#[tactic(auto, unfolding(crate::specs::Configuration::of_groups))]
fn of_groups(
    alloc: Global,
    others: Others,
    rpc: bool,
    groups: Items<GroupSpec>,
) -> Result<Config, ConfFault>
    ensures value { IfOk result (λ value. of_groups others rpc groups ≡ Ok value) }
    ensures fault { IfErr result (λ fault. IsFault fault (of_groups others rpc groups)) }
{
    each_once(alloc, groups.as_slice())?;
    let groups = sorted_groups(alloc, groups)?;
    config_of(others, rpc, groups)
}

#[tactic(auto, unfolding(crate::specs::Configuration::config_of))]
fn config_of(others: Others, rpc: bool, groups: Vec<GroupSpec>) -> Result<Config, ConfFault>
    ensures value { IfOk result (λ value. config_of others rpc groups.items ≡ Ok value) }
    ensures fault { IfErr result (λ fault. IsFault fault (config_of others rpc groups.items)) }
{
    match Groups::new(groups) {
        Some(groups) => Ok(with_groups(others, rpc, groups)),
        None => Err(ConfFault::TooMany),
    }
}

#[tactic(auto, unfolding(crate::specs::Configuration::with_groups))]
fn with_groups(others: Others, rpc: bool, groups: Groups) -> Config
    ensures { result ≡ with_groups others rpc groups }
{
    let (daemon, client, servers) = others.into_parts();
    let Daemon {
        main,
        level,
        identifier,
        ..
    } = daemon;
    Config {
        identifier,
        main,
        level,
        groups,
        servers,
        client,
        rpc,
    }
}
