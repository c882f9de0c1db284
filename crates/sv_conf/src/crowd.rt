//! The processes of all sections, counted.

ghost use Rattle.std.specs.Prelude.{◌≡◌, ◌++◌, ◌∷◌, [], Ok, IfOk, IfErr, OnOk};
ghost use Rattle.sv_conf.specs.Crowds.{crowd_of, crowd_with, with_counted, with_counts};
ghost use Rattle.sv_conf.specs.Crowds.{whole_crowd};
ghost use Rattle.sv_conf.specs.Emptied.{mapped};
ghost use Rattle.sv_sections.specs.Programs.Programs.{all_parts};
ghost use Rattle.sv_sections.specs.FaultTexts.{IsFault};

use crate::counted::Counted;
use crate::sections::counts_at;
use std::alloc::{AllocError, Global};
use sv_base::config::Host;
use sv_base::items::Items;
use sv_base::spec::GroupSpec;
use sv_ini::section::Section;
use sv_sections::fault::ConfFault;
use sv_sections::programs::homes::all_named;
use sv_sections::programs::programs::no_parts;
use sv_sections::server::Common;

/// What is known of the processes of all sections, which aren't kept.
#[derive(Drop)]
pub struct Crowd {
    /// The parts of each group, by the place of the section that makes it; a part has its processes only where one of
    /// their names stands twice.
    pub parts: Items<Items<GroupSpec>>,
    /// How many processes there could be more; none where there are over 1,024.
    pub room: usize,
}

/// What is known of the processes of all sections, or the first fault; the same one as where all are built.
#[tactic(auto, using(crate::proofs::CrowdFolds::crowd_is, crate::proofs::CrowdFolds::fault_is))]
pub fn count_all(
    alloc: Global,
    host: &Host,
    common: &Common,
    sections: &[Section],
) -> Result<Crowd, ConfFault>
    ensures value { IfOk result (λ crowd.
        mapped crowd_of (all_parts host.now common.now sections.now) ≡ Ok crowd) }
    ensures fault { IfErr result (λ fault.
        IsFault fault (all_parts host.now common.now sections.now)) }
{
    whole_crowd(alloc, host, common, sections)
}

#[tactic(auto, unfolding(crate::specs::Crowds::whole_crowd))]
fn whole_crowd(
    alloc: Global,
    host: &Host,
    common: &Common,
    sections: &[Section],
) -> Result<Crowd, ConfFault>
    ensures value { IfOk result (λ crowd.
        whole_crowd host.now common.now sections.now ≡ Ok crowd) }
    ensures fault { IfErr result (λ fault.
        IsFault fault (whole_crowd host.now common.now sections.now)) }
{
    let named = all_named(alloc, host, sections)?;
    let mut parts = no_parts(alloc, sections)?;
    let mut room = 1_025;
    let mut place = 0;
    let mut left = sections;
    while let [section, rest @ ..] = left {
        let counts = counts_at(alloc, host, common, &named, place, section)?;
        room = add_counts(alloc, &mut parts, room, counts)?;
        place += 1;
        left = rest;
    }
    Ok(Crowd {
        parts: Items::from_vec(parts),
        room,
    })
}

/// Adds parts to those of their groups, and gives the room that is left.
#[tactic(auto, using(crate::proofs::Folds::counts_more))]
fn add_counts(
    alloc: Global,
    parts: &mut Vec<Items<GroupSpec>>,
    room: usize,
    counts: Items<Counted>,
) -> Result<usize, AllocError>
    ensures { IfOk result (λ room_left.
        crowd_with parts.new.items room_left
        ≡ with_counts (crowd_with parts.old.items room) counts) }
{
    let mut room_left = room;
    for counted in counts.into_vec() {
        room_left = add_counted(alloc, parts, room_left, counted)?;
    }
    Ok(room_left)
}

fn add_counted(
    alloc: Global,
    parts: &mut Vec<Items<GroupSpec>>,
    room: usize,
    counted: Counted,
) -> Result<usize, AllocError>
    ensures { IfOk result (λ room_left.
        crowd_with parts.new.items room_left
        ≡ with_counted (crowd_with parts.old.items room) counted) }
{
    if counted.place >= parts.as_slice().len() {
        return Ok(room);
    }
    add_part(alloc, &mut parts[counted.place], counted.group)?;
    Ok(room.saturating_sub(counted.count))
}

/// Adds a part; most groups have one, for which there is room exactly.
fn add_part(alloc: Global, parts: &mut Items<GroupSpec>, part: GroupSpec) -> Result<(), AllocError>
    ensures { OnOk result (parts.new ≡ parts.old ++ part ∷ []) }
{
    if parts.as_slice().is_empty() {
        *parts = Items::from_vec(Vec::with_capacity(alloc, 1)?);
    }
    parts.push(part)
}
